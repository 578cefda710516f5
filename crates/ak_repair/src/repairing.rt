//! What waits of each series, as its live leaves make it.
ghost use Rattle.std.specs.Prelude.{◌≡◌, ◌⊎◌, ℕ, ◌+◌, ◌*◌, ◌^◌, ◌≤◌, List, length, IfOk, IfErr};
ghost use Rattle.ak_cache.specs.Leaves.{KeepsReach};
ghost use Rattle.ak_image.specs.Blocks.{seen_in, AreThere};
ghost use Rattle.ak_image.specs.Laid.{IsLaid};
ghost use Rattle.ak_image.specs.Named.{IsDamagedNode};
ghost use Rattle.ak_image.specs.Planted.{ArePlanted, AreAllLawful};
ghost use Rattle.ak_levels.specs.Entries.{AreLawful};
ghost use Rattle.ak_meta.specs.Contents.{IsMeta};
ghost use Rattle.ak_repair.specs.Firsts.{firsts};
ghost use Rattle.ak_repair.specs.Follows.{AreRebuilt, IsRebuilt, IsLostOf};
ghost use Rattle.ak_repair.specs.Reads.{OnlyReads, IsReadStop};
ghost use Rattle.ak_repair.specs.Under.{AreAllGathered};
ghost use Rattle.ak_world.specs.Leaves.{Leaf};

use crate::following::{Line, follow};
use ak_base::Stop;
use ak_cache::Reach;
use ak_host::Disk;
use ak_inner::Inner;
use ak_levels::{Levels, LevelsList};
use ak_meta::{Meta, SeriesMeta};
use std::alloc::Global;

/// How many levels there are.
const LEVELS: u32 = 11;

/// How many nodes of a level one of the level above refers to.
const FULL: u64 = 32;

/// Rebuilds what waits of each series of a record: on each level the nodes from its rescue address back along elder links, to one
/// that a node of the level above refers to or to an address that isn't live. `Disk` where a read failed, `Damaged` with the file
/// and the block where a live block doesn't spell the node that is named to stand there, and `Memory` where there is none.
pub fn repair<D: Disk>(alloc: Global, reach: &mut Reach<D>, meta: &Meta) -> Result<LevelsList, Stop>
    requires rules { IsMeta meta.now }
    requires same { reach.old.volumes.now ≡ meta.now.ordinals }
    requires there { AreThere reach.old.volumes.now (D.state reach.old.disk.now) }
    ensures keeps { KeepsReach reach.old reach.new }
    ensures cache { reach.new.cache.now ≡ reach.old.cache.now }
    ensures reads { OnlyReads D.tells (D.state reach.old.disk.now) (D.state reach.new.disk.now) }
    ensures stops { IfErr result (IsReadStop
        (λ file block. D.tells → IsDamagedNode (seen_in meta.now.ordinals.volumes (D.state reach.old.disk.now).files) meta.now.ordinals meta.now file block)
        (D.state reach.old.disk.now) (D.state reach.new.disk.now)) }
    ensures lawful { IfOk result (λ levels. AreAllLawful meta.now.series levels) }
    ensures planted { D.tells → (kept : List (List Leaf)) → IsLaid (seen_in meta.now.limits.volumes (D.state reach.old.disk.now).files) meta.now kept
        → IfOk result (λ levels. ArePlanted meta.now.ordinals (seen_in meta.now.limits.volumes (D.state reach.old.disk.now).files) 0
        meta.now.series kept (firsts meta.now.series kept) levels) }
    ensures sound { D.tells → (kept : List (List Leaf)) → IsLaid (seen_in meta.now.limits.volumes (D.state reach.old.disk.now).files) meta.now kept
        → IfErr result (λ stop. (stop ≡ Stop.Disk) ⊎ (stop ≡ Stop.Memory)) }
    // The live leaves under what waits, from the highest level down, are those that a scan finds.
    ensures gathered { D.tells → (kept : List (List Leaf)) → IsLaid (seen_in meta.now.limits.volumes (D.state reach.old.disk.now).files) meta.now kept
        → IfOk result (λ levels. AreAllGathered (seen_in meta.now.limits.volumes (D.state reach.old.disk.now).files) meta.now.ordinals kept levels) }
    ensures rebuilt { D.tells → IfOk result (λ levels.
        AreRebuilt (seen_in meta.now.ordinals.volumes (D.state reach.old.disk.now).files) meta.now.ordinals 0 meta.now.series levels) }
    ensures few { D.tells → (D.state reach.new.disk.now).reads ≤ (D.state reach.old.disk.now).reads + 341 * length meta.now.series }
{
    let mut all = LevelsList::new(alloc);
    let count = meta.series().len();
    for series in 0..count {
        let known = &meta.series()[series];
        let levels = repair_series(alloc, reach, series as u32, known)?;
        if all.push(alloc, levels).is_err() {
            return Err(Stop::Memory);
        }
    }
    Ok(all)
}

/// What waits of a series, of which the record says this.
fn repair_series<D: Disk>(
    alloc: Global,
    reach: &mut Reach<D>,
    series: u32,
    known: &SeriesMeta,
) -> Result<Levels, Stop>
    requires most { known.now.leaves ≤ 2 ^ 52 }
    requires there { AreThere reach.old.volumes.now (D.state reach.old.disk.now) }
    ensures keeps { KeepsReach reach.old reach.new }
    ensures cache { reach.new.cache.now ≡ reach.old.cache.now }
    ensures reads { OnlyReads D.tells (D.state reach.old.disk.now) (D.state reach.new.disk.now) }
    ensures stops { IfErr result (IsReadStop
        (λ file block. D.tells → IsLostOf (seen_in reach.old.volumes.now.volumes (D.state reach.old.disk.now).files) reach.old.volumes.now series known.now file block)
        (D.state reach.old.disk.now) (D.state reach.new.disk.now)) }
    ensures count { D.tells → (D.state reach.new.disk.now).reads ≤ (D.state reach.old.disk.now).reads + 341 }
    ensures lawful { IfOk result (λ levels. AreLawful known.now.leaves levels) }
    ensures levels { IfOk result (λ levels. length levels.pending ≡ 11) }
    ensures rebuilt { D.tells → IfOk result (λ levels.
        IsRebuilt (seen_in reach.old.volumes.now.volumes (D.state reach.old.disk.now).files) reach.old.volumes.now series known.now levels) }
{
    let mut levels = Levels::new();
    if levels.prepare(alloc, known.leaves).is_err() {
        return Err(Stop::Memory);
    }
    let mut node = Inner::new();
    let mut made = known.leaves;
    for level in 0..LEVELS {
        let line = Line { series, level };
        let left = (made % FULL) as u32;
        let at = known.rescue[level as usize];
        follow(reach, line, left, made, at, &mut levels, &mut node)?;
        made /= FULL;
    }
    // there are as many levels as ever
    let _none = levels.pending(0);
    Ok(levels)
}
