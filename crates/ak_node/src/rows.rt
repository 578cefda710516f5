//! The rows of a metric, from leaves on the disk and open ones.
ghost use Rattle.std.specs.Prelude.{◌≡◌, ◌<◌, ◌≤◌, ◌++◌, length, OnOk, IfErr, List};
ghost use Rattle.std.specs.List.{AllByRecursion, flat_map};
ghost use Rattle.ak_base.specs.declared.point.Addr.{Addr};
ghost use Rattle.ak_cache.specs.Leaves.{KeepsReach};
ghost use Rattle.ak_host.specs.Files.{Files};
ghost use Rattle.ak_host.specs.Moments.{DiskPasses, LeavesNow};
ghost use Rattle.ak_image.specs.Blocks.{seen_in, AreThere};
ghost use Rattle.ak_meta.specs.Contents.{rescue_at};
ghost use Rattle.ak_meta.specs.declared.meta.SeriesMeta.{SeriesMeta};
ghost use Rattle.ak_node.specs.Calls.{HasStops, IsSoundStop};
ghost use Rattle.ak_repair.specs.Damage.{IsDamagedLeaf};
ghost use Rattle.ak_repair.specs.Reads.{OnlyReads, IsReadStop};
ghost use Rattle.ak_node.specs.Standing.{IsReady, Holds};
ghost use Rattle.ak_repair.specs.Walks.{IsAt, AreWalked, IsWholeIn, IsBrokenIn};
ghost use Rattle.ak_run.specs.Replies.{rows_of, row_text, series_rows};
ghost use Rattle.ak_tree.specs.Standing.{Keeps};
ghost use Rattle.ak_tree.specs.Stops.{OnWorn};
ghost use Rattle.ak_volumes.specs.Ordinals.{IsLive};
ghost use Rattle.ak_world.specs.Leaves.{Leaf, Series, points_of, kept_points};
ghost use Rattle.ak_world.specs.Steps.{written_in};
ghost use Rattle.ak_world.specs.Worlds.{World as Store, limits_of};

use crate::keeper::Keeper;
use ak_base::{Addr, Bytes, Stop};
use ak_cache::Reach;
use ak_host::Disk;
use ak_meta::SeriesMeta;
use ak_repair::live_leaves;
use ak_run::{is_of, write_rows};
use ak_tree::Forest;
use std::alloc::{AllocError, Global};

/// Appends the rows of the leaves of a series at these addresses, of which the last is the oldest and stands first.
fn write_leaves<D: Disk>(
    alloc: Global,
    reach: &mut Reach<D>,
    series: u32,
    known: &SeriesMeta,
    addresses: &[Addr],
    scale: u32,
    text: &mut Bytes,
) -> Result<(), Stop>
    requires there { AreThere reach.old.volumes.now (D.state reach.old.disk.now) }
    requires live { AllByRecursion (λ (a : Addr). IsLive reach.old.volumes.now a.0) addresses.now }
    requires few { length addresses.now ≤ known.now.leaves }
    requires scale { scale ≤ 9 }
    ensures keeps { KeepsReach reach.old reach.new }
    ensures cache { reach.new.cache.now ≡ reach.old.cache.now }
    ensures reads { OnlyReads D.tells (D.state reach.old.disk.now) (D.state reach.new.disk.now) }
    ensures stops { IfErr result (IsReadStop
        (λ file block. D.tells → AreWalked (seen_in reach.old.volumes.now.volumes (D.state reach.old.disk.now).files) reach.old.volumes.now series known.now.leaves (rescue_at known.now.rescue 0) addresses.now → ⊥)
        (D.state reach.old.disk.now) (D.state reach.new.disk.now)) }
    ensures longer { OnOk result (length text.old ≤ length text.new) }
    ensures rows { D.tells
        → (walked : AreWalked (seen_in reach.old.volumes.now.volumes (D.state reach.old.disk.now).files) reach.old.volumes.now series known.now.leaves (rescue_at known.now.rescue 0) addresses.now)
        → OnOk result (text.new ≡ text.old ++ flat_map (row_text scale known.now.name) (points_of walked.leaves)) }
{
    let count = addresses.len();
    for i in 0..count {
        let back = count - 1 - i;
        reach.leaf(addresses[back], series, known.leaves - 1 - back as u64)?;
        let name = known.name.as_str().as_bytes();
        if write_rows(alloc, scale, name, reach.scratch.points(), text).is_err() {
            return Err(Stop::Memory);
        }
    }
    Ok(())
}

/// Appends the rows of the live leaves of a series, which are read from the disk.
fn write_closed<D: Disk>(
    alloc: Global,
    disk: &mut D,
    keeper: &mut Keeper,
    series: u32,
    text: &mut Bytes,
) -> Result<(), Stop>
    requires there { AreThere keeper.old.forest.meta.ordinals (D.state disk.old) }
    requires known { series < length keeper.old.forest.meta.series }
    ensures forest { keeper.new.forest ≡ keeper.old.forest }
    ensures names { keeper.new.names ≡ keeper.old.names }
    ensures reads { OnlyReads D.tells (D.state disk.old) (D.state disk.new) }
    ensures stops { IfErr result (IsReadStop (λ file block. D.tells → IsBrokenIn keeper.old.forest.meta (D.state disk.old).files series file block)
        (D.state disk.old) (D.state disk.new)) }
    ensures longer { OnOk result (length text.old ≤ length text.new) }
    ensures rows { D.tells → (known : SeriesMeta) → IsAt keeper.old.forest.meta.series series known → OnOk result ((leaves : List Leaf)
        × IsWholeIn keeper.old.forest.meta (D.state disk.old).files series leaves
        × (text.new ≡ text.old ++ flat_map (row_text keeper.old.forest.meta.limits.scale known.name) (points_of leaves))) }
{
    let scale = keeper.forest.scale();
    let known = &keeper.forest.meta().series()[series as usize];
    let mut reach = Reach {
        disk,
        volumes: keeper.forest.volumes(),
        cache: &mut keeper.cache,
        scratch: &mut keeper.scratch,
    };
    let addresses = live_leaves(alloc, &mut reach, series, known)?;
    write_leaves(
        alloc,
        &mut reach,
        series,
        known,
        addresses.as_slice(),
        scale,
        text,
    )
}

/// Appends the rows of the open leaf of a series.
fn write_open(
    alloc: Global,
    forest: &Forest,
    series: u32,
    text: &mut Bytes,
) -> Result<(), AllocError>
    requires known { series < length forest.now.meta.series }
    ensures longer { OnOk result (length text.old ≤ length text.new) }
    ensures rows { (content : Store) (known : SeriesMeta) → Keeps content forest.now → IsAt forest.now.meta.series series known
        → OnOk result (text.new ≡ text.old ++ flat_map (row_text forest.now.meta.limits.scale known.name) (written_in content.series series)) }
{
    let scale = forest.scale();
    let name = forest.meta().series()[series as usize].name.as_str();
    match forest.open_leaf(series) {
        Some(leaf) => write_rows(alloc, scale, name.as_bytes(), leaf.points(), text),
        None => Ok(()),
    }
}

/// Appends the rows of a series: those of its live leaves, and of its open one.
fn write_series<D: Disk>(
    alloc: Global,
    disk: &mut D,
    keeper: &mut Keeper,
    series: u32,
    text: &mut Bytes,
) -> Result<(), Stop>
    requires there { AreThere keeper.old.forest.meta.ordinals (D.state disk.old) }
    requires known { series < length keeper.old.forest.meta.series }
    ensures forest { keeper.new.forest ≡ keeper.old.forest }
    ensures names { keeper.new.names ≡ keeper.old.names }
    ensures reads { OnlyReads D.tells (D.state disk.old) (D.state disk.new) }
    ensures stops { IfErr result (IsReadStop (λ file block. D.tells → IsDamagedLeaf keeper.old.forest.meta file block (D.state disk.old).files)
        (D.state disk.old) (D.state disk.new)) }
    ensures sound { D.tells → (content : Store) → Holds content keeper.old (D.state disk.old) → IfErr result IsSoundStop }
    ensures longer { OnOk result (length text.old ≤ length text.new) }
    ensures rows { D.tells → (content : Store) (s : Series) → Holds content keeper.old (D.state disk.old) → IsAt content.series series s
        → OnOk result (text.new ≡ text.old ++ flat_map (row_text (limits_of content).scale s.name) (kept_points content.ordinals.lo s)) }
{
    write_closed(alloc, disk, keeper, series, text)?;
    match write_open(alloc, &keeper.forest, series, text) {
        Ok(()) => Ok(()),
        Err(_) => Err(Stop::Memory),
    }
}

/// Appends the rows of a series where it is of this metric.
fn write_of<D: Disk>(
    alloc: Global,
    disk: &mut D,
    keeper: &mut Keeper,
    series: u32,
    metric: &[u8],
    text: &mut Bytes,
) -> Result<(), Stop>
    requires there { AreThere keeper.old.forest.meta.ordinals (D.state disk.old) }
    requires known { series < length keeper.old.forest.meta.series }
    ensures forest { keeper.new.forest ≡ keeper.old.forest }
    ensures names { keeper.new.names ≡ keeper.old.names }
    ensures reads { OnlyReads D.tells (D.state disk.old) (D.state disk.new) }
    ensures stops { IfErr result (IsReadStop (λ file block. D.tells → IsDamagedLeaf keeper.old.forest.meta file block (D.state disk.old).files)
        (D.state disk.old) (D.state disk.new)) }
    ensures sound { D.tells → (content : Store) → Holds content keeper.old (D.state disk.old) → IfErr result IsSoundStop }
    ensures longer { OnOk result (length text.old ≤ length text.new) }
    ensures rows { D.tells → (content : Store) (s : Series) → Holds content keeper.old (D.state disk.old) → IsAt content.series series s
        → OnOk result (text.new ≡ text.old ++ series_rows (limits_of content).scale content.ordinals.lo metric.now s) }
{
    let name = keeper.forest.meta().series()[series as usize].name.as_str();
    if is_of(name.as_bytes(), metric) {
        write_series(alloc, disk, keeper, series, text)
    } else {
        Ok(())
    }
}

/// Appends the rows of all series of this metric, by order of first acceptance. Only reads are made. `Memory` where there is
/// none, `Disk` where a read failed, and `Damaged` where a live block doesn't spell the leaf that is named to stand there.
pub fn write_metric<D: Disk>(
    alloc: Global,
    disk: &mut D,
    keeper: &mut Keeper,
    metric: &[u8],
    text: &mut Bytes,
) -> Result<(), Stop>
    requires ready { IsReady D.tells keeper.old (D.state disk.old) }
    ensures forest { keeper.new.forest ≡ keeper.old.forest }
    ensures names { keeper.new.names ≡ keeper.old.names }
    ensures stops { HasStops D.tells keeper.old.forest.meta (D.state disk.old) (D.state disk.new) result }
    ensures not_worn { OnWorn result (λ stop. ⊥) }
    ensures sound { D.tells → (content : Store) → Holds content keeper.old (D.state disk.old) → IfErr result IsSoundStop }
    ensures ready { IsReady D.tells keeper.new (D.state disk.new) }
    ensures longer { OnOk result (length text.old ≤ length text.new) }
    ensures rows { D.tells → (content : Store) → Holds content keeper.old (D.state disk.old)
        → OnOk result (text.new ≡ text.old ++ rows_of content metric.now) }
    ensures holds { D.tells → (content : Store) → Holds content keeper.old (D.state disk.old) → Holds content keeper.new (D.state disk.new) }
    ensures files { D.tells → (D.state disk.new).files ≡ (D.state disk.old).files }
    ensures leaves { D.tells → (left : Files) → LeavesNow (D.state disk.new) left → LeavesNow (D.state disk.old) left }
    ensures moments { D.tells → DiskPasses (LeavesNow (D.state disk.old)) (D.state disk.old) (D.state disk.new) }
{
    // The forest's record is lawful, so its ordinals tell where a block stands that can't be read.
    keeper.forest.room();
    for series in 0..keeper.forest.count() {
        write_of(alloc, disk, keeper, series, metric, text)?;
    }
    Ok(())
}
