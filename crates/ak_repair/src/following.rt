//! The nodes of one level that wait, from the rescue address of the level back along elder links.
ghost use Rattle.std.specs.Prelude.{◌≡◌, ◌≢◌, ℕ, ◌+◌, ◌-◌, ◌^◌, ◌<◌, ◌≤◌, [], true, false, length, slice_index_or, OnOk, IfOk, IfErr};
ghost use Rattle.std.specs.List.{AllByRecursion};
ghost use Rattle.ak_cache.specs.Leaves.{KeepsReach};
ghost use Rattle.ak_image.specs.Named.{IsNoNode};
ghost use Rattle.ak_image.specs.Blocks.{seen_in, AreThere};
ghost use Rattle.ak_levels.specs.Entries.{IsTally};
ghost use Rattle.ak_levels.specs.Pending.{pending_at};
ghost use Rattle.ak_repair.specs.Follows.{AreFollowed, IsReferred, IsLost};
ghost use Rattle.ak_repair.specs.Reads.{OnlyReads, IsReadStop};
ghost use Rattle.ak_volumes.specs.Ordinals.{IsLive, ordinal_of, index_of, file_of};

use ak_base::{Addr, Stop};
use ak_cache::Reach;
use ak_host::Disk;
use ak_inner::{Inner, Ref};
use ak_levels::{Levels, refer, refer_node};

/// A level of a series.
#[derive(Clone, Copy, Debug, PartialEq, Eq, Drop)]
pub struct Line {
    pub series: u32,
    pub level: u32,
}

/// A node as it was read: the reference to it, and the address that it names as its elder.
#[derive(Clone, Copy, Debug, PartialEq, Eq, Drop)]
struct Found {
    reference: Ref,
    elder: Addr,
}

/// Reads the leaf of a series with this number at a live address.
fn find_leaf<D: Disk>(
    reach: &mut Reach<D>,
    series: u32,
    number: u64,
    at: Addr,
) -> Result<Found, Stop>
    requires live { IsLive reach.old.volumes.now at.0 }
    requires there { AreThere reach.old.volumes.now (D.state reach.old.disk.now) }
    ensures keeps { KeepsReach reach.old reach.new }
    ensures cache { reach.new.cache.now ≡ reach.old.cache.now }
    ensures reads { OnlyReads D.tells (D.state reach.old.disk.now) (D.state reach.new.disk.now) }
    ensures count { D.tells → (D.state reach.new.disk.now).reads ≤ (D.state reach.old.disk.now).reads + 1 }
    ensures stops { IfErr result (IsReadStop
        (λ file block. (file ≡ file_of reach.old.volumes.now (ordinal_of at.0)) × (block ≡ index_of at.0)
        × (D.tells → IsNoNode (seen_in reach.old.volumes.now.volumes (D.state reach.old.disk.now).files) series 0 number at.0))
        (D.state reach.old.disk.now) (D.state reach.new.disk.now)) }
    ensures tally { IfOk result (λ found. IsTally 0 found.reference) }
    ensures referred { D.tells → IfOk result (λ found.
        IsReferred (seen_in reach.old.volumes.now.volumes (D.state reach.old.disk.now).files) series 0 number at.0 found.elder.0 found.reference) }
{
    let head = reach.leaf(at, series, number)?;
    Ok(Found {
        reference: refer(at, reach.scratch.points()),
        elder: head.elder,
    })
}

/// Reads the inner node of a level of a series with this number at a live address. `node` is overwritten.
fn find_inner<D: Disk>(
    reach: &mut Reach<D>,
    line: Line,
    number: u64,
    at: Addr,
    node: &mut Inner,
) -> Result<Found, Stop>
    requires live { IsLive reach.old.volumes.now at.0 }
    requires there { AreThere reach.old.volumes.now (D.state reach.old.disk.now) }
    requires above { 1 ≤ line.level }
    requires level { line.level ≤ 10 }
    ensures keeps { KeepsReach reach.old reach.new }
    ensures cache { reach.new.cache.now ≡ reach.old.cache.now }
    ensures reads { OnlyReads D.tells (D.state reach.old.disk.now) (D.state reach.new.disk.now) }
    ensures count { D.tells → (D.state reach.new.disk.now).reads ≤ (D.state reach.old.disk.now).reads + 1 }
    ensures stops { IfErr result (IsReadStop
        (λ file block. (file ≡ file_of reach.old.volumes.now (ordinal_of at.0)) × (block ≡ index_of at.0)
        × (D.tells → IsNoNode (seen_in reach.old.volumes.now.volumes (D.state reach.old.disk.now).files) line.series line.level number at.0))
        (D.state reach.old.disk.now) (D.state reach.new.disk.now)) }
    ensures tally { IfOk result (λ found. IsTally line.level found.reference) }
    ensures referred { D.tells → IfOk result (λ found.
        IsReferred (seen_in reach.old.volumes.now.volumes (D.state reach.old.disk.now).files) line.series line.level number at.0 found.elder.0 found.reference) }
{
    let head = reach.inner(at, line.level as u8, line.series, number, node)?;
    Ok(Found {
        reference: refer_node(at, node.refs()),
        elder: head.elder,
    })
}

/// Reads the node of a level of a series with this number at a live address. `node` is overwritten.
fn find<D: Disk>(
    reach: &mut Reach<D>,
    line: Line,
    number: u64,
    at: Addr,
    node: &mut Inner,
) -> Result<Found, Stop>
    requires live { IsLive reach.old.volumes.now at.0 }
    requires there { AreThere reach.old.volumes.now (D.state reach.old.disk.now) }
    requires level { line.level ≤ 10 }
    ensures keeps { KeepsReach reach.old reach.new }
    ensures cache { reach.new.cache.now ≡ reach.old.cache.now }
    ensures reads { OnlyReads D.tells (D.state reach.old.disk.now) (D.state reach.new.disk.now) }
    ensures count { D.tells → (D.state reach.new.disk.now).reads ≤ (D.state reach.old.disk.now).reads + 1 }
    ensures stops { IfErr result (IsReadStop
        (λ file block. (file ≡ file_of reach.old.volumes.now (ordinal_of at.0)) × (block ≡ index_of at.0)
        × (D.tells → IsNoNode (seen_in reach.old.volumes.now.volumes (D.state reach.old.disk.now).files) line.series line.level number at.0))
        (D.state reach.old.disk.now) (D.state reach.new.disk.now)) }
    ensures tally { IfOk result (λ found. IsTally line.level found.reference) }
    ensures referred { D.tells → IfOk result (λ found.
        IsReferred (seen_in reach.old.volumes.now.volumes (D.state reach.old.disk.now).files) line.series line.level number at.0 found.elder.0 found.reference) }
{
    if line.level == 0 {
        find_leaf(reach, line.series, number, at)
    } else {
        find_inner(reach, line, number, at, node)
    }
}

/// Lets so many nodes of a level wait, of which the last is the one before this number and stands at this address, where that is
/// live, and each other one where the node behind it says. `node` is overwritten. On an error what waits stays.
pub fn follow<D: Disk>(
    reach: &mut Reach<D>,
    line: Line,
    left: u32,
    number: u64,
    at: Addr,
    levels: &mut Levels,
    node: &mut Inner,
) -> Result<(), Stop>
    requires there { AreThere reach.old.volumes.now (D.state reach.old.disk.now) }
    requires level { line.level ≤ 10 }
    requires few { left ≤ 31 }
    requires within { left ≤ number }
    requires none { pending_at levels.old line.level ≡ [] }
    requires placed { 1 ≤ left → slice_index_or levels.old.placed line.level false ≡ true }
    ensures keeps { KeepsReach reach.old reach.new }
    ensures cache { reach.new.cache.now ≡ reach.old.cache.now }
    ensures reads { OnlyReads D.tells (D.state reach.old.disk.now) (D.state reach.new.disk.now) }
    ensures count { D.tells → (D.state reach.new.disk.now).reads ≤ (D.state reach.old.disk.now).reads + left }
    ensures stops { IfErr result (IsReadStop
        (λ file block. D.tells → IsLost (seen_in reach.old.volumes.now.volumes (D.state reach.old.disk.now).files) reach.old.volumes.now line.series line.level left number at.0 file block)
        (D.state reach.old.disk.now) (D.state reach.new.disk.now)) }
    ensures placed { OnOk result (levels.new.placed ≡ levels.old.placed) }
    ensures others { (k : ℕ) → k ≢ line.level → OnOk result (pending_at levels.new k ≡ pending_at levels.old k) }
    ensures few { OnOk result (length (pending_at levels.new line.level) ≤ left) }
    ensures tallies { OnOk result (AllByRecursion (IsTally line.level) (pending_at levels.new line.level)) }
    ensures followed { D.tells → OnOk result (AreFollowed (seen_in reach.old.volumes.now.volumes (D.state reach.old.disk.now).files) reach.old.volumes.now line.series line.level left number at.0
        (pending_at levels.new line.level)) }
{
    if left == 0 || !reach.volumes.live(at) {
        return Ok(());
    }
    let found = find(reach, line, number - 1, at, node)?;
    follow(reach, line, left - 1, number - 1, found.elder, levels, node)?;
    levels.push(line.level, found.reference);
    Ok(())
}
