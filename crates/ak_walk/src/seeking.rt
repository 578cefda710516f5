//! Leaves by time.
ghost use Rattle.std.specs.Prelude.{◌≡◌, ℕ, suc, ◌+◌, ◌-◌, ◌*◌, ◌/◌, ◌^◌, ◌<◌, ◌≤◌, List, length, map, IfOk, IfErr, Some, None};
ghost use Rattle.std.specs.List.{AllByRecursion};
ghost use Rattle.ak_base.specs.declared.point.Point.{Point};
ghost use Rattle.ak_cache.specs.Leaves.{KeepsReach};
ghost use Rattle.ak_levels.specs.Pending.{Lists};
ghost use Rattle.ak_scene.specs.Scenes.{IsFit, IsScene, IsReached, AreReached, IsUnspelled};
ghost use Rattle.ak_forest.specs.Numbers.{end};
ghost use Rattle.ak_forest.specs.Tree.{Child, Children, spot};
ghost use Rattle.ak_image.specs.Blocks.{seen_in, AreThere};
ghost use Rattle.ak_image.specs.Nodes.{reference_of};
ghost use Rattle.ak_image.specs.Trees.{points_between, total_of};
ghost use Rattle.ak_levels.specs.Entries.{AreLawful};
ghost use Rattle.ak_repair.specs.Reads.{OnlyReads};
ghost use Rattle.ak_scene.specs.Stops.{IsQueryStop};
ghost use Rattle.ak_summary.specs.Folds.{summary_of};
ghost use Rattle.ak_volumes.specs.Ordinals.{IsLive};
ghost use Rattle.ak_walk.specs.Places.{IsSought};
ghost use Rattle.ak_world.specs.Leaves.{Leaf};
ghost use Rattle.ak_world.specs.Views.{address_of};

use ak_base::{Addr, Stop};
use ak_cache::Reach;
use ak_host::Disk;
use ak_inner::{Inner, Ref};
use ak_levels::Entry;
use ak_scene::{made, read_refs};

/// The highest level.
const TOP: u32 = 10;

/// The number of the first leaf under an inner node that ends no earlier than a time.
#[cycle(sought)]
fn seek_node<D: Disk>(
    reach: &mut Reach<D>,
    series: u32,
    level: u32,
    number: u64,
    a: Addr,
    x: u64,
) -> Result<Option<u64>, Stop>
    requires live { IsLive reach.old.volumes.now a.0 }
    requires there { AreThere reach.old.volumes.now (D.state reach.old.disk.now) }
    requires above { 1 ≤ level }
    requires most { level ≤ 10 }
    requires number { end 32 level number ≤ 2 ^ 52 }
    ensures keeps { KeepsReach reach.old reach.new }
    ensures cache { reach.new.cache.now ≡ reach.old.cache.now }
    ensures reads { OnlyReads D.tells (D.state reach.old.disk.now) (D.state reach.new.disk.now) }
    ensures stops { (count : ℕ) (v : Lists)
        → (D.tells → IsReached reach.old.volumes.now (seen_in reach.old.volumes.now.volumes (D.state reach.old.disk.now).files) series count v level number a.0)
        → IfErr result (IsQueryStop
        (λ file block. D.tells → IsUnspelled reach.old.volumes.now (seen_in reach.old.volumes.now.volumes (D.state reach.old.disk.now).files) series count v file block)
        (D.state reach.old.disk.now) (D.state reach.new.disk.now)) }
    ensures sought { D.tells → (leaves : List Leaf)
        → (scene : IsScene reach.old.volumes.now (seen_in reach.old.volumes.now.volumes (D.state reach.old.disk.now).files) series leaves)
        → a.0 ≡ spot 32 (address_of leaves) level number → scene.known.leaves - length leaves < end 32 level number → end 32 level number ≤ scene.known.leaves
        → IfOk result (IsSought reach.old.volumes.now (seen_in reach.old.volumes.now.volumes (D.state reach.old.disk.now).files) series leaves scene x (number * 32 ^ level) (end 32 level number)) }
    ensures sound { D.tells → (leaves : List Leaf)
        → (scene : IsScene reach.old.volumes.now (seen_in reach.old.volumes.now.volumes (D.state reach.old.disk.now).files) series leaves)
        → a.0 ≡ spot 32 (address_of leaves) level number → scene.known.leaves - length leaves < end 32 level number → end 32 level number ≤ scene.known.leaves
        → IfErr result (λ stop. stop ≡ Stop.Disk) }
{
    let mut node = Inner::new();
    let first = read_refs(reach, series, level, number, a, &mut node)?;
    seek_refs(reach, series, level - 1, first, node.refs(), x)
}

/// The number of the first leaf under a reference that ends no earlier than a time.
#[cycle(sought)]
fn seek_ref<D: Disk>(
    reach: &mut Reach<D>,
    series: u32,
    level: u32,
    number: u64,
    r: Ref,
    x: u64,
) -> Result<Option<u64>, Stop>
    requires there { AreThere reach.old.volumes.now (D.state reach.old.disk.now) }
    requires most { level ≤ 10 }
    requires number { end 32 level number ≤ 2 ^ 52 }
    ensures keeps { KeepsReach reach.old reach.new }
    ensures cache { reach.new.cache.now ≡ reach.old.cache.now }
    ensures reads { OnlyReads D.tells (D.state reach.old.disk.now) (D.state reach.new.disk.now) }
    ensures stops { (count : ℕ) (v : Lists)
        → (D.tells → IsReached reach.old.volumes.now (seen_in reach.old.volumes.now.volumes (D.state reach.old.disk.now).files) series count v level number r.addr.0)
        → IfErr result (IsQueryStop
        (λ file block. D.tells → IsUnspelled reach.old.volumes.now (seen_in reach.old.volumes.now.volumes (D.state reach.old.disk.now).files) series count v file block)
        (D.state reach.old.disk.now) (D.state reach.new.disk.now)) }
    ensures sought { D.tells → (leaves : List Leaf)
        → (scene : IsScene reach.old.volumes.now (seen_in reach.old.volumes.now.volumes (D.state reach.old.disk.now).files) series leaves)
        → Child 32 reach.old.volumes.now.lo (scene.known.leaves - length leaves) (address_of leaves) (total_of leaves) level number (reference_of r)
        → end 32 level number ≤ scene.known.leaves
        → IfOk result (IsSought reach.old.volumes.now (seen_in reach.old.volumes.now.volumes (D.state reach.old.disk.now).files) series leaves scene x (number * 32 ^ level) (end 32 level number)) }
    ensures sound { D.tells → (leaves : List Leaf)
        → (scene : IsScene reach.old.volumes.now (seen_in reach.old.volumes.now.volumes (D.state reach.old.disk.now).files) series leaves)
        → Child 32 reach.old.volumes.now.lo (scene.known.leaves - length leaves) (address_of leaves) (total_of leaves) level number (reference_of r)
        → end 32 level number ≤ scene.known.leaves
        → IfErr result (λ stop. stop ≡ Stop.Disk) }
{
    if !reach.volumes.live(r.addr) {
        return Ok(None);
    }
    if r.summary.end < x {
        return Ok(None);
    }
    if level == 0 {
        return Ok(Some(number));
    }
    seek_node(reach, series, level, number, r.addr, x)
}

/// The number of the first leaf under references in a row that ends no earlier than a time.
#[cycle(sought)]
fn seek_refs<D: Disk>(
    reach: &mut Reach<D>,
    series: u32,
    level: u32,
    first: u64,
    refs: &[Ref],
    x: u64,
) -> Result<Option<u64>, Stop>
    requires there { AreThere reach.old.volumes.now (D.state reach.old.disk.now) }
    requires most { level ≤ 10 }
    requires number { (first + length refs.now) * 32 ^ level ≤ 2 ^ 52 }
    ensures keeps { KeepsReach reach.old reach.new }
    ensures cache { reach.new.cache.now ≡ reach.old.cache.now }
    ensures reads { OnlyReads D.tells (D.state reach.old.disk.now) (D.state reach.new.disk.now) }
    ensures stops { (count : ℕ) (v : Lists)
        → (D.tells → AreReached reach.old.volumes.now (seen_in reach.old.volumes.now.volumes (D.state reach.old.disk.now).files) series count v level first refs.now)
        → IfErr result (IsQueryStop
        (λ file block. D.tells → IsUnspelled reach.old.volumes.now (seen_in reach.old.volumes.now.volumes (D.state reach.old.disk.now).files) series count v file block)
        (D.state reach.old.disk.now) (D.state reach.new.disk.now)) }
    ensures sought { D.tells → (leaves : List Leaf)
        → (scene : IsScene reach.old.volumes.now (seen_in reach.old.volumes.now.volumes (D.state reach.old.disk.now).files) series leaves)
        → Children 32 reach.old.volumes.now.lo (scene.known.leaves - length leaves) (address_of leaves) (total_of leaves) level first (map reference_of refs.now)
        → (first + length refs.now) * 32 ^ level ≤ scene.known.leaves
        → IfOk result (IsSought reach.old.volumes.now (seen_in reach.old.volumes.now.volumes (D.state reach.old.disk.now).files) series leaves scene x (first * 32 ^ level) ((first + length refs.now) * 32 ^ level)) }
    ensures sound { D.tells → (leaves : List Leaf)
        → (scene : IsScene reach.old.volumes.now (seen_in reach.old.volumes.now.volumes (D.state reach.old.disk.now).files) series leaves)
        → Children 32 reach.old.volumes.now.lo (scene.known.leaves - length leaves) (address_of leaves) (total_of leaves) level first (map reference_of refs.now)
        → (first + length refs.now) * 32 ^ level ≤ scene.known.leaves
        → IfErr result (λ stop. stop ≡ Stop.Disk) }
{
    for (i, r) in refs.iter().enumerate() {
        let found = seek_ref(reach, series, level, first + i as u64, *r, x)?;
        if found.is_some() {
            return Ok(found);
        }
    }
    Ok(None)
}

/// The number of the first live leaf of a series that ends no earlier than a time, or its leaf count where there is none.
pub fn seek<D: Disk>(reach: &mut Reach<D>, e: &Entry, x: u64) -> Result<u64, Stop>
    requires there { AreThere reach.old.volumes.now (D.state reach.old.disk.now) }
    requires lawful { AreLawful e.now.leaves e.now.levels.now }
    ensures keeps { KeepsReach reach.old reach.new }
    ensures cache { reach.new.cache.now ≡ reach.old.cache.now }
    ensures reads { OnlyReads D.tells (D.state reach.old.disk.now) (D.state reach.new.disk.now) }
    ensures stops { IfErr result (IsQueryStop
        (λ file block. D.tells → IsUnspelled reach.old.volumes.now (seen_in reach.old.volumes.now.volumes (D.state reach.old.disk.now).files) e.now.series e.now.leaves e.now.levels.now file block)
        (D.state reach.old.disk.now) (D.state reach.new.disk.now)) }
    ensures before { D.tells → (leaves : List Leaf) (written : List Point)
        → (fit : IsFit reach.old.volumes.now (seen_in reach.old.volumes.now.volumes (D.state reach.old.disk.now).files) e.now.series e.now.leaves e.now.levels.now leaves written)
        → IfOk result (λ m. (m ≤ e.now.leaves) × (fit.scene.known.leaves - length leaves ≤ m) × AllByRecursion (λ (p : Point). p.ts < x) (points_between leaves 0 m)
        × (m < e.now.leaves → x ≤ (summary_of (points_between leaves m (suc m))).end)) }
    ensures sound { D.tells → (leaves : List Leaf) (written : List Point)
        → IsFit reach.old.volumes.now (seen_in reach.old.volumes.now.volumes (D.state reach.old.disk.now).files) e.now.series e.now.leaves e.now.levels.now leaves written
        → IfErr result (λ stop. stop ≡ Stop.Disk) }
{
    for below in 0..TOP + 1 {
        let level = TOP - below;
        let refs = e.levels.pending(level);
        let first = made(e.leaves, level) - refs.len() as u64;
        let found = seek_refs(reach, e.series, level, first, refs, x)?;
        match found {
            Some(number) => return Ok(number),
            None => {}
        }
    }
    Ok(e.leaves)
}
