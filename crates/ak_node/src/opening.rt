//! Opens a store, or makes one.
ghost use Rattle.std.specs.Prelude.{ℕ, List, ◌≡◌, ◌⊎◌, ◌+◌, ◌*◌, ◌≤◌, [], false, Some, None, length, slice_index, OnOk, IfOk, IfErr};
ghost use Rattle.ak_base.specs.Ranges.{AreLimits};
ghost use Rattle.ak_checkpoint.specs.Making.{KeepsDisk, made_sizes};
ghost use Rattle.ak_host.specs.Files.{Files};
ghost use Rattle.ak_host.specs.Moments.{DiskPasses, LeavesNow};
ghost use Rattle.ak_image.specs.Blocks.{seen_in, AreThere};
ghost use Rattle.ak_image.specs.Images.{IsSound, StandsFor};
ghost use Rattle.ak_image.specs.Laid.{IsLaid};
ghost use Rattle.ak_image.specs.Named.{IsDamagedNode};
ghost use Rattle.ak_image.specs.Planted.{AreAllLawful, ArePlanted};
ghost use Rattle.ak_meta.specs.Contents.{Content, IsMeta, names_of, size_of};
ghost use Rattle.ak_node.specs.Opening.{IsFirst, IsFoundRecord, IsNodeOpenStop, KeepsOpened};
ghost use Rattle.ak_node.specs.Standing.{CanServe, Stands};
ghost use Rattle.ak_record.specs.Stops.{IsNoStore, IsTaken, IsMakeStop};
ghost use Rattle.ak_repair.specs.Firsts.{firsts};
ghost use Rattle.ak_repair.specs.Reads.{OnlyReads, IsReadStop};
ghost use Rattle.ak_run.specs.Run.{world_of};
ghost use Rattle.ak_world.specs.Leaves.{Leaf};
ghost use Rattle.ak_world.specs.Views.{View, first_view};

use crate::keeper::Keeper;
use crate::node::Node;
use ak_base::{Limits, Stop};
use ak_cache::{Cached, Reach};
use ak_checkpoint::{Checkpoint, make_store};
use ak_host::Disk;
use ak_leaf::LeafBuf;
use ak_levels::LevelsList;
use ak_meta::Meta;
use ak_names::Index;
use ak_record::{Opened, open_newest, sync_all};
use ak_repair::repair;
use ak_tree::Forest;
use std::alloc::{AllocError, Global};

/// How many blocks the cache has room for.
const CACHE_BLOCKS: u32 = 64;

/// The index of the names of a record's series.
fn index_of(alloc: Global, meta: &Meta) -> Result<Index, AllocError>
    requires { IsMeta meta.now }
    ensures { IfOk result (λ index. index ≡ names_of meta.now.series) }
{
    let mut index = Index::new(alloc)?;
    let all = meta.series();
    for known in all {
        index.add(alloc, &known.name)?;
    }
    Ok(index)
}

/// What a store has in memory of its leaves: what waits of each series, a cache of blocks, and a leaf to read into.
#[derive(Drop)]
struct Waiting {
    levels: LevelsList,
    cache: Cached,
    scratch: LeafBuf,
}

impl Waiting {
    /// What a store without series has.
    fn new(alloc: Global) -> Result<Waiting, AllocError>
        ensures { IfOk result (λ waiting. waiting.levels ≡ []) }
    {
        Ok(Waiting {
            levels: LevelsList::new(alloc),
            cache: Cached::new(alloc, CACHE_BLOCKS)?,
            scratch: LeafBuf::new(alloc)?,
        })
    }

    /// What a store of this record has, where what waits of each series is rebuilt from its rescue addresses. `Disk` where a read
    /// failed, `Damaged` with the file and the block where a live block doesn't spell the node that is named to stand there, and
    /// `Memory` where there is none.
    fn repaired<D: Disk>(alloc: Global, disk: &mut D, meta: &Meta) -> Result<Waiting, Stop>
        requires rules { IsMeta meta.now }
        requires there { AreThere meta.now.ordinals (D.state disk.old) }
        ensures reads { OnlyReads D.tells (D.state disk.old) (D.state disk.new) }
        ensures stops { IfErr result (IsReadStop
            (λ file block. D.tells → IsDamagedNode (seen_in meta.now.ordinals.volumes (D.state disk.old).files) meta.now.ordinals meta.now file block)
            (D.state disk.old) (D.state disk.new)) }
        ensures lawful { IfOk result (λ waiting. AreAllLawful meta.now.series waiting.levels) }
        ensures planted { D.tells → (kept : List (List Leaf)) → IsLaid (seen_in meta.now.limits.volumes (D.state disk.old).files) meta.now kept
            → IfOk result (λ waiting. ArePlanted meta.now.ordinals (seen_in meta.now.limits.volumes (D.state disk.old).files) 0
            meta.now.series kept (firsts meta.now.series kept) waiting.levels) }
        ensures sound { D.tells → (kept : List (List Leaf)) → IsLaid (seen_in meta.now.limits.volumes (D.state disk.old).files) meta.now kept
            → IfErr result (λ stop. (stop ≡ Stop.Disk) ⊎ (stop ≡ Stop.Memory)) }
        ensures few { D.tells → (D.state disk.new).reads ≤ (D.state disk.old).reads + 341 * length meta.now.series }
    {
        let Ok(mut waiting) = Waiting::new(alloc) else {
            return Err(Stop::Memory);
        };
        let mut reach = Reach {
            disk,
            volumes: meta.volumes(),
            cache: &mut waiting.cache,
            scratch: &mut waiting.scratch,
        };
        let levels = repair(alloc, &mut reach, meta)?;
        waiting.levels = levels;
        Ok(waiting)
    }
}

/// A store over the record of a view, whose last checkpoint this is, with what waits of its series. No leaf is open.
fn keep(
    alloc: Global,
    meta: Meta,
    waiting: Waiting,
    check: Checkpoint,
) -> Result<Keeper, AllocError>
    requires rules { IsMeta meta }
    requires room { 16 + size_of meta ≤ 4096 * meta.limits.slot }
    requires slot { check.gate.slot ≡ meta.limits.slot }
    requires lawful { AreAllLawful meta.series waiting.levels }
    ensures opened { IfOk result (λ keeper. KeepsOpened meta waiting.levels check keeper) }
{
    let names = index_of(alloc, &meta)?;
    let Waiting {
        levels,
        cache,
        scratch,
    } = waiting;
    Ok(Keeper {
        forest: Forest::new(alloc, meta, levels, check)?,
        names,
        cache,
        scratch,
    })
}

/// A store over the newest record as it was found, with what waits of its series.
fn keep_opened(alloc: Global, opened: Opened, waiting: Waiting) -> Result<Keeper, AllocError>
    requires rules { IsMeta opened.meta }
    requires room { 16 + size_of opened.meta ≤ 4096 * opened.meta.limits.slot }
    requires slot { opened.gate.slot ≡ opened.meta.limits.slot }
    requires lawful { AreAllLawful opened.meta.series waiting.levels }
    ensures opened { IfOk result (λ keeper. KeepsOpened opened.meta waiting.levels
        (record { gate = opened.gate; pending = false; number = opened.gate.number; bytes = []; file = 0 }) keeper) }
{
    let Opened { gate, meta } = opened;
    let check = Checkpoint::new(alloc, gate)?;
    keep(alloc, meta, waiting, check)
}

/// A store without series, whose last checkpoint this is.
fn keep_first(alloc: Global, meta: Meta, check: Checkpoint) -> Result<Keeper, AllocError>
    requires rules { IsMeta meta }
    requires room { 16 + size_of meta ≤ 4096 * meta.limits.slot }
    requires slot { check.gate.slot ≡ meta.limits.slot }
    requires empty { meta.series ≡ [] }
    ensures opened { IfOk result (λ keeper. KeepsOpened meta [] check keeper) }
{
    let waiting = Waiting::new(alloc)?;
    keep(alloc, meta, waiting, check)
}

impl Node {
    /// A node without sessions.
    fn over(alloc: Global, keeper: Keeper) -> Node
        ensures keeper { result.keeper ≡ keeper }
        ensures sessions { result.sessions.items ≡ [] }
        ensures stop { result.stop ≡ None }
    {
        Node {
            keeper,
            sessions: Vec::new(alloc),
            stop: None,
        }
    }

    /// Opens the newest view that the disk has. Each file is synced first. What waits of each series is rebuilt from its rescue
    /// addresses.
    ///
    /// # Errors
    ///
    /// `NoStore` where file 0 isn't there, has an odd number of blocks or fewer than 4, or no gate is open. `Damaged` where the
    /// body of an open gate is no record, with file 0 and the block where that body begins, where the file of a volume is
    /// missing or short, with that file and the number of its blocks, and where a live block doesn't spell the node that is
    /// named to stand there, with its file and its place. `Disk` where a call of the disk failed. `Memory`.
    pub fn open<D: Disk>(alloc: Global, disk: &mut D) -> Result<Node, Stop>
        ensures err { IfErr result (IsNodeOpenStop D.tells (D.state disk.old) (D.state disk.new)) }
        ensures no_store { D.tells → IsNoStore (D.state disk.old).files → IfOk result (λ node. ⊥) }
        ensures found { D.tells → IfOk result (λ node. IsFoundRecord node.keeper.forest.check.number node.keeper.forest.meta (D.state disk.old).files) }
        ensures fresh { IfOk result (λ node. node.stop ≡ None) }
        ensures ready { IfOk result (λ node. CanServe D.tells node (D.state disk.new)) }
        ensures stands { D.tells → (view : View) → IsSound (D.state disk.old).files → StandsFor view (D.state disk.old).files
            → IfOk result (λ node. Stands node (world_of view) (D.state disk.new)) }
        // A sound disk is opened, unless a call of the disk failed or there is no memory.
        ensures sound { D.tells → IsSound (D.state disk.old).files → IfErr result (λ stop. (stop ≡ Stop.Disk) ⊎ (stop ≡ Stop.Memory)) }
        ensures disk_later { (D.state disk.old).disk_faults ≤ (D.state disk.new).disk_faults }
        ensures port_faults { (D.state disk.new).port_faults ≡ (D.state disk.old).port_faults }
        ensures files { D.tells → (D.state disk.new).files ≡ (D.state disk.old).files }
        ensures sizes { (D.state disk.new).sizes ≡ (D.state disk.old).sizes }
        // It makes no more reads than file 0 has blocks and 341 for each series, also where it stops, and writes nothing.
        ensures reads { D.tells → IfOk result (λ node.
            (D.state disk.new).reads ≤ (D.state disk.old).reads + slice_index (D.state disk.old).sizes 0 + 341 * length node.keeper.forest.meta.series) }
        ensures few { D.tells → (number : ℕ) (found : Content) → IsFoundRecord number found (D.state disk.old).files
            → (D.state disk.new).reads ≤ (D.state disk.old).reads + slice_index (D.state disk.old).sizes 0 + 341 * length found.series }
        ensures writes { D.tells → (D.state disk.new).writes ≡ (D.state disk.old).writes }
        ensures moments { D.tells → DiskPasses (LeavesNow (D.state disk.old)) (D.state disk.old) (D.state disk.new) }
    {
        if disk.files() == 0 {
            return Err(Stop::NoStore);
        }
        sync_all(disk)?;
        let opened = open_newest(alloc, disk)?;
        let waiting = Waiting::repaired(alloc, disk, &opened.meta)?;
        match keep_opened(alloc, opened, waiting) {
            Ok(keeper) => Ok(Node::over(alloc, keeper)),
            Err(_) => Err(Stop::Memory),
        }
    }

    /// Makes a store with these limits, and opens its first view.
    ///
    /// # Errors
    ///
    /// `Exists` where there is a store already. `Disk` where a call of the disk failed. `Memory`.
    pub fn make<D: Disk>(alloc: Global, disk: &mut D, limits: &Limits) -> Result<Node, Stop>
        requires { AreLimits limits.now }
        ensures err { IfErr result (IsMakeStop D.tells (D.state disk.old) (D.state disk.new)) }
        ensures exists { D.tells → IsTaken (D.state disk.old).files → IfOk result (λ node. ⊥) }
        ensures fresh { IfOk result (λ node. node.stop ≡ None) }
        ensures ready { IfOk result (λ node. CanServe D.tells node (D.state disk.new)) }
        ensures stands { D.tells → IfOk result (λ node. Stands node (world_of (first_view limits.now)) (D.state disk.new)) }
        ensures disk_later { (D.state disk.old).disk_faults ≤ (D.state disk.new).disk_faults }
        ensures port_faults { (D.state disk.new).port_faults ≡ (D.state disk.old).port_faults }
        ensures sizes { OnOk result ((D.state disk.new).sizes ≡ made_sizes limits.now (D.state disk.old).sizes) }
        // A store that is there already is left alone.
        ensures kept { D.tells → IsTaken (D.state disk.old).files → KeepsDisk (D.state disk.old) (D.state disk.new) }
        // Until it is done, a stop leaves no store, or the first view.
        ensures moments { D.tells → ((left : Files) → LeavesNow (D.state disk.old) left → IsNoStore left)
            → DiskPasses (λ left. IsNoStore left ⊎ IsFirst limits.now left) (D.state disk.old) (D.state disk.new) }
        ensures passes { D.tells → DiskPasses (λ left. Unit {0}) (D.state disk.old) (D.state disk.new) }
    {
        let (meta, check) = make_store(alloc, disk, limits)?;
        match keep_first(alloc, meta, check) {
            Ok(keeper) => Ok(Node::over(alloc, keeper)),
            Err(_) => Err(Stop::Memory),
        }
    }
}
