//! What a reader reaches.
ghost use Rattle.std.specs.Prelude.{◌≡◌, ◌≤◌, ℕ, List, [], Some, None, IfOk, IfErr, OnOk, OnErr};
ghost use Rattle.ak_cache.specs.Leaves.{KeepsReach, SpellsAsked, IsLeafStop};
ghost use Rattle.ak_cache.specs.Nodes.{SpellsAskedInner, IsInnerStop};
ghost use Rattle.ak_host.specs.Calls.{CountsOne};
ghost use Rattle.ak_host.specs.Causes.{Rose};
ghost use Rattle.ak_host.specs.Moments.{LeavesNow, DiskPasses};
ghost use Rattle.ak_image.specs.Blocks.{seen_in, AreThere};
ghost use Rattle.ak_inner.specs.Nodes.{SpellsInner};
ghost use Rattle.ak_leaf.specs.Leaf.{SpellsLeaf};
ghost use Rattle.ak_volumes.specs.Ordinals.{ordinal_of, index_of, IsLive, file_of};

use crate::cached::Cached;
use crate::place::{file, index};
use ak_base::{Addr, Block, Stop};
use ak_bytes::Head;
use ak_host::Disk;
use ak_inner::Inner;
use ak_leaf::LeafBuf;
use ak_volumes::Volumes;

/// What a reader of nodes reaches: the disk and where its blocks stand, the cache, and a leaf to read into.
#[derive(Drop)]
pub struct Reach<'a, D: Disk> {
    pub disk: &'a mut D,
    pub volumes: &'a Volumes,
    pub cache: &'a mut Cached,
    pub scratch: &'a mut LeafBuf,
}

impl<'a, D: Disk> Reach<'a, D> {
    /// Reads the leaf of a series with this number at a live address: its points are in the scratch then, and its head is
    /// given. `Disk` where the read failed, and `Damaged` with the file and the block where the block there spells no such
    /// leaf.
    pub fn leaf(&mut self, a: Addr, series: u32, number: u64) -> Result<Head, Stop>
        requires live { IsLive self.old.volumes.now a.0 }
        requires there { AreThere self.old.volumes.now (D.state self.old.disk.now) }
        ensures keeps { KeepsReach self.old self.new }
        ensures cache { self.new.cache.now ≡ self.old.cache.now }
        ensures spelled { IfOk result (λ head. (block : List ℕ) × SpellsAsked block a series number head self.new.scratch.now) }
        ensures found { D.tells → IfOk result (λ head. SpellsLeaf
            (seen_in self.old.volumes.now.volumes (D.state self.old.disk.now).files a.0) head self.new.scratch.now) }
        ensures err { IfErr result (IsLeafStop D.tells self.old.volumes.now (D.state self.old.disk.now)
            (D.state self.new.disk.now) a series number) }
        ensures sizes { (D.state self.new.disk.now).sizes ≡ (D.state self.old.disk.now).sizes }
        ensures later { (D.state self.old.disk.now).disk_faults ≤ (D.state self.new.disk.now).disk_faults }
        ensures port_faults { (D.state self.new.disk.now).port_faults ≡ (D.state self.old.disk.now).port_faults }
        ensures files { D.tells → (D.state self.new.disk.now).files ≡ (D.state self.old.disk.now).files }
        ensures reads { D.tells → CountsOne (D.state self.old.disk.now).reads (D.state self.new.disk.now).reads result }
        ensures writes { D.tells → (D.state self.new.disk.now).writes ≡ (D.state self.old.disk.now).writes }
        ensures moments { D.tells → DiskPasses (LeavesNow (D.state self.old.disk.now))
            (D.state self.old.disk.now) (D.state self.new.disk.now) }
    {
        let mut block = [0; 4096];
        self.block(a, &mut block)?;
        let head = self.scratch.decode(&block, series, number, a);
        found(self.volumes, a, head)
    }

    /// Reads the inner node of a series with this level, from 1 to 10, and this number at a live address: its references are
    /// in `into` then, and its head is given. `Disk` where the read failed, and `Damaged` with the file and the block where
    /// the block there spells no such node; after either there are no references. The scratch stays as it is.
    pub fn inner(
        &mut self,
        a: Addr,
        level: u8,
        series: u32,
        number: u64,
        into: &mut Inner,
    ) -> Result<Head, Stop>
        requires live { IsLive self.old.volumes.now a.0 }
        requires there { AreThere self.old.volumes.now (D.state self.old.disk.now) }
        ensures keeps { KeepsReach self.old self.new }
        ensures cache { self.new.cache.now ≡ self.old.cache.now }
        ensures scratch { self.new.scratch.now ≡ self.old.scratch.now }
        ensures spelled { IfOk result (λ head. (block : List ℕ) × SpellsAskedInner block a level series number head into.new) }
        ensures found { D.tells → IfOk result (λ head. SpellsInner
            (seen_in self.old.volumes.now.volumes (D.state self.old.disk.now).files a.0) head into.new) }
        ensures err { IfErr result (IsInnerStop D.tells self.old.volumes.now (D.state self.old.disk.now)
            (D.state self.new.disk.now) a level series number) }
        ensures empty { OnErr result (into.new ≡ []) }
        ensures sizes { (D.state self.new.disk.now).sizes ≡ (D.state self.old.disk.now).sizes }
        ensures later { (D.state self.old.disk.now).disk_faults ≤ (D.state self.new.disk.now).disk_faults }
        ensures port_faults { (D.state self.new.disk.now).port_faults ≡ (D.state self.old.disk.now).port_faults }
        ensures files { D.tells → (D.state self.new.disk.now).files ≡ (D.state self.old.disk.now).files }
        ensures reads { D.tells → CountsOne (D.state self.old.disk.now).reads (D.state self.new.disk.now).reads result }
        ensures writes { D.tells → (D.state self.new.disk.now).writes ≡ (D.state self.old.disk.now).writes }
        ensures moments { D.tells → DiskPasses (LeavesNow (D.state self.old.disk.now))
            (D.state self.old.disk.now) (D.state self.new.disk.now) }
    {
        into.clear();
        let mut block = [0; 4096];
        self.block(a, &mut block)?;
        let head = into.decode(&block, level, series, number, a);
        found(self.volumes, a, head)
    }

    /// Reads the block at a live address. `Disk` where the read failed.
    fn block(&mut self, a: Addr, into: &mut Block) -> Result<(), Stop>
        requires live { IsLive self.old.volumes.now a.0 }
        requires there { AreThere self.old.volumes.now (D.state self.old.disk.now) }
        ensures keeps { KeepsReach self.old self.new }
        ensures cache { self.new.cache.now ≡ self.old.cache.now }
        ensures scratch { self.new.scratch.now ≡ self.old.scratch.now }
        ensures block { D.tells → OnOk result (into.new
            ≡ seen_in self.old.volumes.now.volumes (D.state self.old.disk.now).files a.0) }
        ensures err { IfErr result (λ stop. (stop ≡ Stop.Disk)
            × Rose (D.state self.old.disk.now).disk_faults (D.state self.new.disk.now).disk_faults) }
        ensures sizes { (D.state self.new.disk.now).sizes ≡ (D.state self.old.disk.now).sizes }
        ensures later { (D.state self.old.disk.now).disk_faults ≤ (D.state self.new.disk.now).disk_faults }
        ensures port_faults { (D.state self.new.disk.now).port_faults ≡ (D.state self.old.disk.now).port_faults }
        ensures files { D.tells → (D.state self.new.disk.now).files ≡ (D.state self.old.disk.now).files }
        ensures reads { D.tells → CountsOne (D.state self.old.disk.now).reads (D.state self.new.disk.now).reads result }
        ensures writes { D.tells → (D.state self.new.disk.now).writes ≡ (D.state self.old.disk.now).writes }
        ensures moments { D.tells → DiskPasses (LeavesNow (D.state self.old.disk.now))
            (D.state self.old.disk.now) (D.state self.new.disk.now) }
    {
        match self.cache.read(self.disk, self.volumes, a, into) {
            Ok(()) => Ok(()),
            Err(_) => Err(Stop::Disk),
        }
    }
}

/// The head that was found in the block at a live address. Where none was, the block is damaged.
fn found(volumes: &Volumes, a: Addr, head: Option<Head>) -> Result<Head, Stop>
    requires live { IsLive volumes.now a.0 }
    ensures ok { IfOk result (λ given. head ≡ Some given) }
    ensures err { IfErr result (λ stop. (head ≡ None)
        × (stop ≡ Stop.Damaged (file_of volumes.now (ordinal_of a.0)) (index_of a.0))) }
{
    match head {
        Some(head) => Ok(head),
        None => Err(damaged(volumes, a)),
    }
}

/// That the block at a live address is damaged.
fn damaged(volumes: &Volumes, a: Addr) -> Stop
    requires live { IsLive volumes.now a.0 }
    ensures { result ≡ Stop.Damaged (file_of volumes.now (ordinal_of a.0)) (index_of a.0) }
{
    Stop::Damaged {
        file: file(volumes, a),
        block: index(a),
    }
}
