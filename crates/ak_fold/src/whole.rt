//! A fold over a whole series.
ghost use Rattle.std.specs.Prelude.{◌≡◌, ℕ, ◌+◌, ◌*◌, ◌/◌, ◌^◌, ◌≤◌, ◌++◌, List, [], length, IfOk, IfErr, MatchOption};
ghost use Rattle.ak_base.specs.declared.point.Point.{Point};
ghost use Rattle.ak_cache.specs.Leaves.{KeepsReach};
ghost use Rattle.ak_fold.specs.Folded.{AreUpTo};
ghost use Rattle.ak_scene.specs.Scenes.{IsFit, IsUnspelled};
ghost use Rattle.ak_image.specs.Blocks.{seen_in, AreThere};
ghost use Rattle.ak_levels.specs.Entries.{AreLawful};
ghost use Rattle.ak_repair.specs.Reads.{OnlyReads};
ghost use Rattle.ak_scene.specs.Stops.{IsQueryStop};
ghost use Rattle.ak_base.specs.Selections.{selected, IsOpen};
ghost use Rattle.ak_select.specs.Windows.{summed};
ghost use Rattle.ak_world.specs.Leaves.{Leaf, points_of};

use crate::adding::{Asked, with_points};
use crate::folding::fold_refs;
use ak_base::{Filter, Range, Stop};
use ak_cache::Reach;
use ak_host::Disk;
use ak_levels::Entry;
use ak_scene::made;
use ak_select::Window;
use ak_summary::Summary;

/// The highest level.
const TOP: u32 = 10;

/// The summary of the selected points of a series. None exactly where no point is selected. `Disk` where a read failed, and
/// `Damaged` with the file and the block where a live block doesn't spell the node that is named to stand there.
pub fn fold<D: Disk>(
    reach: &mut Reach<D>,
    e: &Entry,
    range: Range,
    filter: Filter,
) -> Result<Option<Summary>, Stop>
    requires there { AreThere reach.old.volumes.now (D.state reach.old.disk.now) }
    requires lawful { AreLawful e.now.leaves e.now.levels.now }
    ensures keeps { KeepsReach reach.old reach.new }
    ensures cache { reach.new.cache.now ≡ reach.old.cache.now }
    ensures reads { OnlyReads D.tells (D.state reach.old.disk.now) (D.state reach.new.disk.now) }
    ensures stops { IfErr result (IsQueryStop
        (λ file block. D.tells → IsUnspelled reach.old.volumes.now (seen_in reach.old.volumes.now.volumes (D.state reach.old.disk.now).files) e.now.series e.now.leaves e.now.levels.now file block)
        (D.state reach.old.disk.now) (D.state reach.new.disk.now)) }
    ensures up_to { IfOk result (AreUpTo (2016 * (e.now.leaves + 1))) }
    ensures value { D.tells → (leaves : List Leaf) (written : List Point)
        → IsFit reach.old.volumes.now (seen_in reach.old.volumes.now.volumes (D.state reach.old.disk.now).files) e.now.series e.now.leaves e.now.levels.now leaves written
        → MatchOption e.now.tail (written ≡ []) (λ leaf. leaf.now ≡ written)
        → IfOk result (λ s. s ≡ summed (selected range filter (points_of leaves ++ written))) }
    ensures sound { D.tells → (leaves : List Leaf) (written : List Point)
        → IsFit reach.old.volumes.now (seen_in reach.old.volumes.now.volumes (D.state reach.old.disk.now).files) e.now.series e.now.leaves e.now.levels.now leaves written
        → IfErr result (λ stop. stop ≡ Stop.Disk) }
    ensures few { D.tells → IsOpen filter → (leaves : List Leaf) (written : List Point)
        → IsFit reach.old.volumes.now (seen_in reach.old.volumes.now.volumes (D.state reach.old.disk.now).files) e.now.series e.now.leaves e.now.levels.now leaves written
        → (D.state reach.new.disk.now).reads ≤ (D.state reach.old.disk.now).reads + 33 }
{
    let asked = Asked {
        series: e.series,
        window: Window::of(&range),
        filter,
    };
    let mut all = None;
    for below in 0..TOP + 1 {
        let level = TOP - below;
        let refs = e.levels.pending(level);
        let first = made(e.leaves, level) - refs.len() as u64;
        all = fold_refs(reach, asked, level, first, refs, all)?;
    }
    match e.tail {
        Some(leaf) => Ok(with_points(asked, leaf.points(), all)),
        None => Ok(all),
    }
}
