//! Reads of inner nodes by their places.
ghost use Rattle.std.specs.Prelude.{◌≡◌, ℕ, suc, ◌+◌, ◌-◌, ◌*◌, ◌^◌, ◌<◌, ◌≤◌, List, length, map, IfOk, IfErr, OnOk};
ghost use Rattle.std.specs.List.{AllByRecursion};
ghost use Rattle.ak_cache.specs.Leaves.{KeepsReach};
ghost use Rattle.ak_forest.specs.Numbers.{end};
ghost use Rattle.ak_forest.specs.Tree.{Family, spot};
ghost use Rattle.ak_image.specs.Blocks.{seen_in, AreThere};
ghost use Rattle.ak_image.specs.Nodes.{reference_of};
ghost use Rattle.ak_image.specs.Trees.{total_of};
ghost use Rattle.ak_levels.specs.Entries.{IsTally};
ghost use Rattle.ak_repair.specs.Reads.{OnlyReads};
ghost use Rattle.ak_levels.specs.Pending.{Lists};
ghost use Rattle.ak_scene.specs.Scenes.{IsScene, IsReached, AreReached, IsUnspelled};
ghost use Rattle.ak_scene.specs.Stops.{IsQueryStop};
ghost use Rattle.ak_volumes.specs.Ordinals.{IsLive};
ghost use Rattle.ak_world.specs.Leaves.{Leaf};
ghost use Rattle.ak_world.specs.Views.{address_of};

use ak_base::{Addr, Stop};
use ak_cache::Reach;
use ak_host::Disk;
use ak_inner::Inner;

/// How many children a node has.
const CHILDREN: u64 = 32;

/// Reads the inner node of a series with this level and this number at a live address, and gives the number of its first child.
/// On an error there are no references.
pub fn read_refs<D: Disk>(
    reach: &mut Reach<D>,
    series: u32,
    level: u32,
    number: u64,
    a: Addr,
    node: &mut Inner,
) -> Result<u64, Stop>
    requires live { IsLive reach.old.volumes.now a.0 }
    requires there { AreThere reach.old.volumes.now (D.state reach.old.disk.now) }
    requires above { 1 ≤ level }
    requires most { level ≤ 10 }
    requires number { end 32 level number ≤ 2 ^ 52 }
    ensures keeps { KeepsReach reach.old reach.new }
    ensures cache { reach.new.cache.now ≡ reach.old.cache.now }
    ensures reads { OnlyReads D.tells (D.state reach.old.disk.now) (D.state reach.new.disk.now) }
    ensures stops { (count : ℕ) (v : Lists)
        → (D.tells → IsReached reach.old.volumes.now (seen_in reach.old.volumes.now.volumes (D.state reach.old.disk.now).files) series count v level number a.0)
        → IfErr result (IsQueryStop
        (λ file block. D.tells → IsUnspelled reach.old.volumes.now (seen_in reach.old.volumes.now.volumes (D.state reach.old.disk.now).files) series count v file block)
        (D.state reach.old.disk.now) (D.state reach.new.disk.now)) }
    ensures reached { (count : ℕ) (v : Lists) → D.tells
        → IsReached reach.old.volumes.now (seen_in reach.old.volumes.now.volumes (D.state reach.old.disk.now).files) series count v level number a.0
        → IfOk result (λ first. AreReached reach.old.volumes.now (seen_in reach.old.volumes.now.volumes (D.state reach.old.disk.now).files) series count v (level - 1) first node.new) }
    ensures one { D.tells → (D.state reach.new.disk.now).reads ≤ (D.state reach.old.disk.now).reads + 1 }
    ensures first { IfOk result (λ first. first ≡ suc number * 32 - length node.new) }
    ensures few { length node.new ≤ 32 }
    ensures tallies { OnOk result (AllByRecursion (IsTally (level - 1)) node.new) }
    ensures family { D.tells → (leaves : List Leaf)
        → (scene : IsScene reach.old.volumes.now (seen_in reach.old.volumes.now.volumes (D.state reach.old.disk.now).files) series leaves)
        → a.0 ≡ spot 32 (address_of leaves) level number → scene.known.leaves - length leaves < end 32 level number → end 32 level number ≤ scene.known.leaves
        → OnOk result (Family 32 reach.old.volumes.now.lo (scene.known.leaves - length leaves) (address_of leaves) (total_of leaves) (level - 1) number (map reference_of node.new)) }
    ensures sound { D.tells → (leaves : List Leaf)
        → (scene : IsScene reach.old.volumes.now (seen_in reach.old.volumes.now.volumes (D.state reach.old.disk.now).files) series leaves)
        → a.0 ≡ spot 32 (address_of leaves) level number → scene.known.leaves - length leaves < end 32 level number → end 32 level number ≤ scene.known.leaves
        → IfErr result (λ stop. stop ≡ Stop.Disk) }
{
    reach.inner(a, level as u8, series, number, node)?;
    Ok((number + 1) * CHILDREN - node.refs().len() as u64)
}
