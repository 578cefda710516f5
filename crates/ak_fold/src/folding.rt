//! A fold over nodes.
ghost use Rattle.std.specs.Prelude.{◌≡◌, ℕ, suc, ◌+◌, ◌-◌, ◌*◌, ◌^◌, ◌<◌, ◌≤◌, List, ◌++◌, length, map, IfOk, IfErr, IfSome, OnOk};
ghost use Rattle.std.specs.List.{AllByRecursion};
ghost use Rattle.ak_base.specs.declared.point.Point.{Point};
ghost use Rattle.ak_cache.specs.Leaves.{KeepsReach};
ghost use Rattle.ak_fold.specs.Folded.{AreUpTo, IsFolded};
ghost use Rattle.ak_levels.specs.Pending.{Lists};
ghost use Rattle.ak_scene.specs.Scenes.{IsScene, IsReached, AreReached, IsUnspelled};
ghost use Rattle.ak_forest.specs.Numbers.{end};
ghost use Rattle.ak_forest.specs.Tree.{Child, Children, Family, spot};
ghost use Rattle.ak_image.specs.Blocks.{seen_in, AreThere};
ghost use Rattle.ak_image.specs.Nodes.{reference_of};
ghost use Rattle.ak_image.specs.Trees.{points_between, total_of};
ghost use Rattle.ak_levels.specs.Entries.{IsTally};
ghost use Rattle.ak_repair.specs.Reads.{OnlyReads};
ghost use Rattle.ak_scene.specs.Stops.{IsQueryStop};
ghost use Rattle.ak_select.specs.Costs.{borders};
ghost use Rattle.ak_select.specs.Windows.{chosen, summed};
ghost use Rattle.ak_volumes.specs.Ordinals.{IsLive};
ghost use Rattle.ak_world.specs.Leaves.{Leaf};
ghost use Rattle.ak_world.specs.Views.{address_of};

use crate::adding::{Asked, with, with_points};
use ak_base::{Addr, Stop};
use ak_cache::Reach;
use ak_host::Disk;
use ak_inner::{Inner, Ref};
use ak_scene::read_refs;
use ak_select::{Part, part_of};
use ak_summary::Summary;

/// The points of a leaf more.
fn fold_leaf<D: Disk>(
    reach: &mut Reach<D>,
    asked: Asked,
    number: u64,
    a: Addr,
    so_far: Option<Summary>,
) -> Result<Option<Summary>, Stop>
    requires live { IsLive reach.old.volumes.now a.0 }
    requires there { AreThere reach.old.volumes.now (D.state reach.old.disk.now) }
    requires number { number < 2 ^ 52 }
    requires up_to { AreUpTo (2016 * number) so_far }
    ensures keeps { KeepsReach reach.old reach.new }
    ensures cache { reach.new.cache.now ≡ reach.old.cache.now }
    ensures reads { OnlyReads D.tells (D.state reach.old.disk.now) (D.state reach.new.disk.now) }
    ensures stops { (count : ℕ) (v : Lists)
        → (D.tells → IsReached reach.old.volumes.now (seen_in reach.old.volumes.now.volumes (D.state reach.old.disk.now).files) asked.series count v 0 number a.0)
        → IfErr result (IsQueryStop
        (λ file block. D.tells → IsUnspelled reach.old.volumes.now (seen_in reach.old.volumes.now.volumes (D.state reach.old.disk.now).files) asked.series count v file block)
        (D.state reach.old.disk.now) (D.state reach.new.disk.now)) }
    ensures up_to { IfOk result (AreUpTo (2016 * (number + 1))) }
    ensures folded { D.tells → (leaves : List Leaf)
        → (scene : IsScene reach.old.volumes.now (seen_in reach.old.volumes.now.volumes (D.state reach.old.disk.now).files) asked.series leaves)
        → a.0 ≡ address_of leaves number → scene.known.leaves - length leaves ≤ number → number < scene.known.leaves
        → (before : List Point) → so_far ≡ summed before
        → IsFolded asked.window asked.filter before (points_between leaves number (suc number)) 1 (D.state reach.old.disk.now) (D.state reach.new.disk.now) result }
{
    reach.leaf(a, asked.series, number)?;
    Ok(with_points(asked, reach.scratch.points(), so_far))
}

/// The points under an inner node more.
#[cycle(nodes)]
fn fold_node<D: Disk>(
    reach: &mut Reach<D>,
    asked: Asked,
    level: u32,
    number: u64,
    a: Addr,
    so_far: Option<Summary>,
) -> Result<Option<Summary>, Stop>
    requires live { IsLive reach.old.volumes.now a.0 }
    requires there { AreThere reach.old.volumes.now (D.state reach.old.disk.now) }
    requires above { 1 ≤ level }
    requires most { level ≤ 10 }
    requires number { end 32 level number ≤ 2 ^ 52 }
    requires up_to { AreUpTo (2016 * (number * 32 ^ level)) so_far }
    ensures keeps { KeepsReach reach.old reach.new }
    ensures cache { reach.new.cache.now ≡ reach.old.cache.now }
    ensures reads { OnlyReads D.tells (D.state reach.old.disk.now) (D.state reach.new.disk.now) }
    ensures stops { (count : ℕ) (v : Lists)
        → (D.tells → IsReached reach.old.volumes.now (seen_in reach.old.volumes.now.volumes (D.state reach.old.disk.now).files) asked.series count v level number a.0)
        → IfErr result (IsQueryStop
        (λ file block. D.tells → IsUnspelled reach.old.volumes.now (seen_in reach.old.volumes.now.volumes (D.state reach.old.disk.now).files) asked.series count v file block)
        (D.state reach.old.disk.now) (D.state reach.new.disk.now)) }
    ensures up_to { IfOk result (AreUpTo (2016 * end 32 level number)) }
    ensures folded { D.tells → (leaves : List Leaf)
        → (scene : IsScene reach.old.volumes.now (seen_in reach.old.volumes.now.volumes (D.state reach.old.disk.now).files) asked.series leaves)
        → a.0 ≡ spot 32 (address_of leaves) level number → scene.known.leaves - length leaves < end 32 level number → end 32 level number ≤ scene.known.leaves
        → (before : List Point) → so_far ≡ summed before
        → IsFolded asked.window asked.filter before (points_between leaves (number * 32 ^ level) (end 32 level number))
        (1 + level * borders asked.window (scene.known.leaves - length leaves) (points_between leaves) (number * 32 ^ level) (end 32 level number))
        (D.state reach.old.disk.now) (D.state reach.new.disk.now) result }
{
    let mut node = Inner::new();
    let first = read_refs(reach, asked.series, level, number, a, &mut node)?;
    fold_refs(reach, asked, level - 1, first, node.refs(), so_far)
}

/// The points under a reference more.
#[cycle(nodes)]
fn fold_ref<D: Disk>(
    reach: &mut Reach<D>,
    asked: Asked,
    level: u32,
    number: u64,
    r: Ref,
    so_far: Option<Summary>,
) -> Result<Option<Summary>, Stop>
    requires there { AreThere reach.old.volumes.now (D.state reach.old.disk.now) }
    requires most { level ≤ 10 }
    requires number { end 32 level number ≤ 2 ^ 52 }
    requires tally { IsTally level r }
    requires up_to { AreUpTo (2016 * (number * 32 ^ level)) so_far }
    ensures keeps { KeepsReach reach.old reach.new }
    ensures cache { reach.new.cache.now ≡ reach.old.cache.now }
    ensures reads { OnlyReads D.tells (D.state reach.old.disk.now) (D.state reach.new.disk.now) }
    ensures stops { (count : ℕ) (v : Lists)
        → (D.tells → IsReached reach.old.volumes.now (seen_in reach.old.volumes.now.volumes (D.state reach.old.disk.now).files) asked.series count v level number r.addr.0)
        → IfErr result (IsQueryStop
        (λ file block. D.tells → IsUnspelled reach.old.volumes.now (seen_in reach.old.volumes.now.volumes (D.state reach.old.disk.now).files) asked.series count v file block)
        (D.state reach.old.disk.now) (D.state reach.new.disk.now)) }
    ensures up_to { IfOk result (AreUpTo (2016 * end 32 level number)) }
    ensures folded { D.tells → (leaves : List Leaf)
        → (scene : IsScene reach.old.volumes.now (seen_in reach.old.volumes.now.volumes (D.state reach.old.disk.now).files) asked.series leaves)
        → Child 32 reach.old.volumes.now.lo (scene.known.leaves - length leaves) (address_of leaves) (total_of leaves) level number (reference_of r)
        → end 32 level number ≤ scene.known.leaves
        → (before : List Point) → so_far ≡ summed before
        → IsFolded asked.window asked.filter before (points_between leaves (number * 32 ^ level) (end 32 level number))
        (suc level * borders asked.window (scene.known.leaves - length leaves) (points_between leaves) (number * 32 ^ level) (end 32 level number))
        (D.state reach.old.disk.now) (D.state reach.new.disk.now) result }
{
    if !reach.volumes.live(r.addr) {
        return Ok(so_far);
    }
    let first_live = reach.volumes.live(r.first_leaf);
    match part_of(asked.window, asked.filter.is_open(), first_live, r.summary) {
        Part::Out => Ok(so_far),
        Part::Whole => Ok(Some(with(so_far, r.summary))),
        Part::Across => {
            if level == 0 {
                fold_leaf(reach, asked, number, r.addr, so_far)
            } else {
                fold_node(reach, asked, level, number, r.addr, so_far)
            }
        }
    }
}

/// The points under references more, which are in a row: the first is that to the node of this number on its level.
#[cycle(nodes)]
pub fn fold_refs<D: Disk>(
    reach: &mut Reach<D>,
    asked: Asked,
    level: u32,
    first: u64,
    refs: &[Ref],
    so_far: Option<Summary>,
) -> Result<Option<Summary>, Stop>
    requires there { AreThere reach.old.volumes.now (D.state reach.old.disk.now) }
    requires most { level ≤ 10 }
    requires number { (first + length refs.now) * 32 ^ level ≤ 2 ^ 52 }
    requires tallies { AllByRecursion (IsTally level) refs.now }
    requires up_to { AreUpTo (2016 * (first * 32 ^ level)) so_far }
    ensures keeps { KeepsReach reach.old reach.new }
    ensures cache { reach.new.cache.now ≡ reach.old.cache.now }
    ensures reads { OnlyReads D.tells (D.state reach.old.disk.now) (D.state reach.new.disk.now) }
    ensures stops { (count : ℕ) (v : Lists)
        → (D.tells → AreReached reach.old.volumes.now (seen_in reach.old.volumes.now.volumes (D.state reach.old.disk.now).files) asked.series count v level first refs.now)
        → IfErr result (IsQueryStop
        (λ file block. D.tells → IsUnspelled reach.old.volumes.now (seen_in reach.old.volumes.now.volumes (D.state reach.old.disk.now).files) asked.series count v file block)
        (D.state reach.old.disk.now) (D.state reach.new.disk.now)) }
    ensures up_to { IfOk result (AreUpTo (2016 * ((first + length refs.now) * 32 ^ level))) }
    ensures folded { D.tells → (leaves : List Leaf)
        → (scene : IsScene reach.old.volumes.now (seen_in reach.old.volumes.now.volumes (D.state reach.old.disk.now).files) asked.series leaves)
        → Children 32 reach.old.volumes.now.lo (scene.known.leaves - length leaves) (address_of leaves) (total_of leaves) level first (map reference_of refs.now)
        → (first + length refs.now) * 32 ^ level ≤ scene.known.leaves
        → (before : List Point) → so_far ≡ summed before
        → IsFolded asked.window asked.filter before (points_between leaves (first * 32 ^ level) ((first + length refs.now) * 32 ^ level))
        (suc level * borders asked.window (scene.known.leaves - length leaves) (points_between leaves) (first * 32 ^ level) ((first + length refs.now) * 32 ^ level))
        (D.state reach.old.disk.now) (D.state reach.new.disk.now) result }
{
    let mut all = so_far;
    for (i, r) in refs.iter().enumerate() {
        all = fold_ref(reach, asked, level, first + i as u64, *r, all)?;
    }
    Ok(all)
}
