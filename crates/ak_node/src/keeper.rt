//! A store that is open.
ghost use Rattle.std.specs.Prelude.{◌≡◌, OnOk, IfErr};
ghost use Rattle.ak_host.specs.Moments.{DiskPasses};
ghost use Rattle.ak_node.specs.Calls.{HasStops, IsSoundStop};
ghost use Rattle.ak_node.specs.Standing.{IsReady, Holds};
ghost use Rattle.ak_tree.specs.Later.{KeepsOrigins};
ghost use Rattle.ak_tree.specs.Stops.{OnWorn, IsWornBy};
ghost use Rattle.ak_tree.specs.Storing.{LeavesView};
ghost use Rattle.ak_world.specs.Steps.{flushed};
ghost use Rattle.ak_world.specs.Worlds.{World as Store};

use ak_base::Stop;
use ak_cache::Cached;
use ak_host::Disk;
use ak_leaf::LeafBuf;
use ak_names::Index;
use ak_tree::Forest;
use std::alloc::Global;

/// A store that is open: the series, an index of their names, a cache of blocks, and a leaf to read into.
#[derive(Drop)]
pub struct Keeper {
    pub forest: Forest,
    pub names: Index,
    pub cache: Cached,
    pub scratch: LeafBuf,
}

impl Keeper {
    /// Closes all open leaves by rising number of their series, and takes a view.
    pub fn flush<D: Disk>(&mut self, alloc: Global, disk: &mut D) -> Result<(), Stop>
        requires ready { IsReady D.tells self.old (D.state disk.old) }
        ensures stops { HasStops D.tells self.old.forest.meta (D.state disk.old) (D.state disk.new) result }
        ensures becomes { D.tells → OnOk result (KeepsOrigins (D.state disk.old) (D.state disk.new) self.old.forest.meta self.new.forest.meta) }
        ensures sound { IfErr result IsSoundStop }
        ensures ready { OnOk result (IsReady D.tells self.new (D.state disk.new)) }
        ensures worn { D.tells → (content : Store) → Holds content self.old (D.state disk.old) → OnWorn result (IsWornBy (flushed content)) }
        ensures after { D.tells → (content : Store) → Holds content self.old (D.state disk.old)
            → OnOk result (Holds (flushed content) self.new (D.state disk.new)) }
        ensures reads { D.tells → (D.state disk.new).reads ≡ (D.state disk.old).reads }
        ensures passes { D.tells → DiskPasses (λ left. Unit {0}) (D.state disk.old) (D.state disk.new) }
        ensures moments { D.tells → (content : Store) → Holds content self.old (D.state disk.old)
            → DiskPasses (LeavesView content (flushed content)) (D.state disk.old) (D.state disk.new) }
    {
        self.forest.close_all(alloc, disk)?;
        self.forest.view(disk)
    }
}
