//! Nodes by their numbers.
ghost use Rattle.std.specs.Prelude.{◌≡◌, ℕ, suc, ◌+◌, ◌-◌, ◌*◌, ◌/◌, ◌^◌, ◌<◌, ◌≤◌, List, length, IfOk, IfErr, IfSome};
ghost use Rattle.ak_base.specs.declared.point.Point.{Point};
ghost use Rattle.ak_cache.specs.Leaves.{KeepsReach};
ghost use Rattle.ak_scene.specs.Scenes.{IsFit, IsReached, IsUnspelled};
ghost use Rattle.ak_image.specs.Blocks.{seen_in, AreThere};
ghost use Rattle.ak_levels.specs.Entries.{AreLawful};
ghost use Rattle.ak_repair.specs.Reads.{OnlyReads};
ghost use Rattle.ak_scene.specs.Stops.{IsQueryStop};
ghost use Rattle.ak_walk.specs.Places.{IsRefTo};
ghost use Rattle.ak_world.specs.Leaves.{Leaf};

use ak_base::Stop;
use ak_cache::Reach;
use ak_host::Disk;
use ak_inner::{Inner, Ref};
use ak_levels::Entry;
use ak_scene::{made, read_refs};

/// The highest level.
const TOP: u32 = 10;

/// How many children a node has.
const CHILDREN: u64 = 32;

/// The reference to the node of a level by its number. None only where the node has no live leaf. `Disk` where a read failed,
/// and `Damaged` where a live block doesn't spell the node that is named to stand there.
pub fn find<D: Disk>(
    reach: &mut Reach<D>,
    e: &Entry,
    level: u32,
    number: u64,
) -> Result<Option<Ref>, Stop>
    requires there { AreThere reach.old.volumes.now (D.state reach.old.disk.now) }
    requires lawful { AreLawful e.now.leaves e.now.levels.now }
    requires level { level ≤ 10 }
    requires number { number < e.now.leaves / 32 ^ level }
    ensures keeps { KeepsReach reach.old reach.new }
    ensures cache { reach.new.cache.now ≡ reach.old.cache.now }
    ensures reads { OnlyReads D.tells (D.state reach.old.disk.now) (D.state reach.new.disk.now) }
    ensures stops { IfErr result (IsQueryStop
        (λ file block. D.tells → IsUnspelled reach.old.volumes.now (seen_in reach.old.volumes.now.volumes (D.state reach.old.disk.now).files) e.now.series e.now.leaves e.now.levels.now file block)
        (D.state reach.old.disk.now) (D.state reach.new.disk.now)) }
    ensures reached { D.tells → IfOk result (λ found. IfSome found (λ r.
        IsReached reach.old.volumes.now (seen_in reach.old.volumes.now.volumes (D.state reach.old.disk.now).files) e.now.series e.now.leaves e.now.levels.now level number r.addr.0)) }
    ensures named { D.tells → (leaves : List Leaf) (written : List Point)
        → (fit : IsFit reach.old.volumes.now (seen_in reach.old.volumes.now.volumes (D.state reach.old.disk.now).files) e.now.series e.now.leaves e.now.levels.now leaves written)
        → IfOk result (IsRefTo reach.old.volumes.now (seen_in reach.old.volumes.now.volumes (D.state reach.old.disk.now).files) e.now.series leaves fit.scene level number) }
    ensures sound { D.tells → (leaves : List Leaf) (written : List Point)
        → IsFit reach.old.volumes.now (seen_in reach.old.volumes.now.volumes (D.state reach.old.disk.now).files) e.now.series e.now.leaves e.now.levels.now leaves written
        → IfErr result (λ stop. stop ≡ Stop.Disk) }
{
    let refs = e.levels.pending(level);
    let first = made(e.leaves, level) - refs.len() as u64;
    if number >= first {
        return Ok(Some(refs[(number - first) as usize]));
    }
    if level == TOP {
        return Ok(None);
    }
    let above = number / CHILDREN;
    if above >= made(e.leaves, level + 1) {
        return Ok(None);
    }
    let found = find(reach, e, level + 1, above)?;
    let parent = match found {
        Some(parent) => parent,
        None => return Ok(None),
    };
    if !reach.volumes.live(parent.addr) {
        return Ok(None);
    }
    let mut node = Inner::new();
    let begin = read_refs(reach, e.series, level + 1, above, parent.addr, &mut node)?;
    if number < begin {
        return Ok(None);
    }
    Ok(Some(node.refs()[(number - begin) as usize]))
}
