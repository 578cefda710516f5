//! Accepts points, or refuses them.
ghost use Rattle.std.specs.Prelude.{ℕ, List, ◌≡◌, ◌+◌, ◌*◌, ◌≤◌, ◌++◌, ◌∷◌, [], length, true, false, IfOk, OnOk, IfErr, IfSome, Some, None};
ghost use Rattle.std.specs.List.{AllByRecursion, list_any};
ghost use Rattle.std.specs.Str.{bytes_eq};
ghost use Rattle.ak_host.specs.Moments.{DiskPasses};
ghost use Rattle.ak_levels.specs.Pending.{no_lists};
ghost use Rattle.ak_meta.specs.Contents.{IsCanonical, names_of, size_of};
ghost use Rattle.ak_meta.specs.Leaves.{with_series};
ghost use Rattle.ak_node.specs.Calls.{HasStops, IsSoundStop};
ghost use Rattle.ak_node.specs.Names.{late_known, with_all, levels_with, ArePlaces};
ghost use Rattle.ak_node.specs.Standing.{IsReady, Holds};
ghost use Rattle.ak_tree.specs.Later.{KeepsOrigins};
ghost use Rattle.ak_tree.specs.Standing.{Keeps, last_known};
ghost use Rattle.ak_tree.specs.Stops.{OnWorn, IsWornBy};
ghost use Rattle.ak_tree.specs.Storing.{LeavesView};
ghost use Rattle.ak_world.specs.Puts.{all_accepted, after_points, named, refusal_of, with_name};
ghost use Rattle.ak_world.specs.Worlds.{World as Store};

use crate::keeper::Keeper;
use crate::look::{Look, look_at, place_of};
use ak_base::{Point, Refusal, Stop, Text};
use ak_host::Disk;
use std::alloc::{AllocError, Global};

/// Adds a name that isn't known. With it the record isn't longer than a slot.
fn add_name(alloc: Global, keeper: &mut Keeper, name: &Text) -> Result<(), AllocError>
    requires index { keeper.old.names ≡ names_of keeper.old.forest.meta.series }
    requires canonical { IsCanonical name.now }
    requires new { list_any (λ n. bytes_eq name.now n) keeper.old.names ≡ false }
    requires room { 16 + size_of (with_series keeper.old.forest.meta name.now) ≤ 4096 * keeper.old.forest.meta.limits.slot }
    ensures index { OnOk result (keeper.new.names ≡ keeper.old.names ++ name.now ∷ []) }
    ensures forest { OnOk result (keeper.new.forest ≡ record keeper.old.forest { meta = with_series keeper.old.forest.meta name.now; frames = keeper.old.forest.frames ++ None ∷ []; levels = keeper.old.forest.levels ++ no_lists ∷ [] }) }
    ensures keeps { (content : Store) → Keeps content keeper.old.forest
        → OnOk result (Keeps (record content { series = with_name content.series name.now }) keeper.new.forest) }
{
    // It isn't full, so want of memory alone is left.
    if keeper.forest.add(alloc, name).is_err() {
        return Err(AllocError);
    }
    keeper.names.add(alloc, name)?;
    Ok(())
}

/// Adds those of the names that aren't known, in order. With them the record isn't longer than a slot.
fn add_names(alloc: Global, keeper: &mut Keeper, names: &[Text]) -> Result<(), AllocError>
    requires index { keeper.old.names ≡ names_of keeper.old.forest.meta.series }
    requires canonical { AllByRecursion IsCanonical names.now }
    requires room { 16 + size_of (with_all keeper.old.forest.meta names.now) ≤ 4096 * keeper.old.forest.meta.limits.slot }
    ensures index { OnOk result (keeper.new.names ≡ names_of keeper.new.forest.meta.series) }
    ensures longer { OnOk result ((more : List (List ℕ)) × (keeper.new.names ≡ keeper.old.names ++ more)) }
    ensures known { OnOk result (AllByRecursion (λ name. list_any (λ n. bytes_eq name n) keeper.new.names ≡ true) names.now) }
    ensures forest { OnOk result (keeper.new.forest ≡ record keeper.old.forest { meta = with_all keeper.old.forest.meta names.now; frames = keeper.new.forest.frames; levels = levels_with keeper.old.forest.meta keeper.old.forest.levels names.now }) }
    ensures last { (n : ℕ) → OnOk result (IfSome (last_known keeper.new.forest n) (λ last. last_known keeper.old.forest n ≡ Some last)) }
    ensures keeps { (content : Store) → Keeps content keeper.old.forest → OnOk result (Keeps (named content names.now) keeper.new.forest) }
{
    for name in names {
        if keeper.names.id(name).is_none() {
            add_name(alloc, keeper, name)?;
        }
    }
    Ok(())
}

/// Accepts a point of one time of each of these names, in order. All are known, and none is late.
fn accept_all<D: Disk>(
    alloc: Global,
    disk: &mut D,
    keeper: &mut Keeper,
    places: &[Option<u32>],
    names: &[Text],
    time: u64,
    values: &[i64],
) -> Result<(), Stop>
    requires ready { IsReady D.tells keeper.old (D.state disk.old) }
    requires alike { length values.now ≡ length names.now }
    requires places { ArePlaces places.now names.now keeper.old.names }
    requires known { AllByRecursion (λ name. list_any (λ n. bytes_eq name n) keeper.old.names ≡ true) names.now }
    requires none_late { late_known keeper.old.forest keeper.old.names names.now time ≡ None }
    ensures stops { HasStops D.tells keeper.old.forest.meta (D.state disk.old) (D.state disk.new) result }
    ensures becomes { D.tells → OnOk result (KeepsOrigins (D.state disk.old) (D.state disk.new) keeper.old.forest.meta keeper.new.forest.meta) }
    ensures sound { IfErr result IsSoundStop }
    ensures ready { OnOk result (IsReady D.tells keeper.new (D.state disk.new)) }
    ensures worn { D.tells → (content : Store) → Holds content keeper.old (D.state disk.old)
        → OnWorn result (IsWornBy (all_accepted content names.now time values.now)) }
    ensures after { D.tells → (content : Store) → Holds content keeper.old (D.state disk.old)
        → OnOk result (Holds (all_accepted content names.now time values.now) keeper.new (D.state disk.new)) }
    ensures reads { D.tells → (D.state disk.new).reads ≡ (D.state disk.old).reads }
    ensures passes { D.tells → DiskPasses (λ left. Unit {0}) (D.state disk.old) (D.state disk.new) }
    ensures moments { D.tells → (content : Store) → Holds content keeper.old (D.state disk.old)
        → DiskPasses (LeavesView content (all_accepted content names.now time values.now)) (D.state disk.old) (D.state disk.new) }
{
    for (at, name) in names.iter().enumerate() {
        if let Some(series) = place_of(places, at, &keeper.names, name) {
            let point = Point {
                ts: time,
                value: values[at],
            };
            keeper.forest.append(alloc, disk, series, point)?;
        }
    }
    Ok(())
}

/// Accepts points of one time, one for each name with its value, or tells why they are refused: the record would be longer than
/// a slot, or a name is late. Refused points change nothing.
pub fn put<D: Disk>(
    alloc: Global,
    disk: &mut D,
    keeper: &mut Keeper,
    names: &[Text],
    time: u64,
    values: &[i64],
) -> Result<Option<Refusal>, Stop>
    requires ready { IsReady D.tells keeper.old (D.state disk.old) }
    requires alike { length values.now ≡ length names.now }
    requires canonical { AllByRecursion IsCanonical names.now }
    ensures stops { HasStops D.tells keeper.old.forest.meta (D.state disk.old) (D.state disk.new) result }
    ensures becomes { D.tells → OnOk result (KeepsOrigins (D.state disk.old) (D.state disk.new) keeper.old.forest.meta keeper.new.forest.meta) }
    ensures sound { IfErr result IsSoundStop }
    ensures ready { OnOk result (IsReady D.tells keeper.new (D.state disk.new)) }
    ensures refusal { (content : Store) → Keeps content keeper.old.forest → IfOk result (λ refusal. refusal ≡ refusal_of content names.now time) }
    ensures worn { D.tells → (content : Store) → Holds content keeper.old (D.state disk.old)
        → OnWorn result (IsWornBy (after_points content names.now time values.now)) }
    ensures after { D.tells → (content : Store) → Holds content keeper.old (D.state disk.old)
        → OnOk result (Holds (after_points content names.now time values.now) keeper.new (D.state disk.new)) }
    ensures reads { D.tells → (D.state disk.new).reads ≡ (D.state disk.old).reads }
    ensures passes { D.tells → DiskPasses (λ left. Unit {0}) (D.state disk.old) (D.state disk.new) }
    ensures moments { D.tells → (content : Store) → Holds content keeper.old (D.state disk.old)
        → DiskPasses (LeavesView content (after_points content names.now time values.now)) (D.state disk.old) (D.state disk.new) }
{
    let Look { need, late, places } = look_at(&keeper.forest, &keeper.names, names, time);
    let room = keeper.forest.room();
    if need > room {
        return Ok(Some(Refusal::MetaFull { need, room }));
    }
    if let Some(last) = late {
        return Ok(Some(Refusal::Late { last }));
    }
    if add_names(alloc, keeper, names).is_err() {
        return Err(Stop::Memory);
    }
    accept_all(alloc, disk, keeper, &places, names, time, values)?;
    Ok(None)
}
