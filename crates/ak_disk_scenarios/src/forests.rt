//! Forests: what closes a leaf, and what is written then.
ghost use Rattle.std.specs.Prelude.{◌≡◌, true, false, IfSome, OnOk, bytes_eq};
ghost use Rattle.std.specs.List.{list_any};
ghost use Rattle.ak_base.specs.Ranges.{AreLimits};
ghost use Rattle.ak_meta.specs.Contents.{IsCanonical, names_of};
ghost use Rattle.ak_tree.specs.Standing.{IsReady};

use ak_base::{Limits, Point, Stop, Text};
use ak_checkpoint::make_store;
use ak_host::Disk;
use ak_levels::LevelsList;
use ak_memhost::MemHost;
use ak_meta::SeriesMeta;
use ak_names::read_names;
use ak_tree::Forest;
use std::alloc::Global;
use std::test::Fail;

// Two volumes of 16 blocks, one frame, and a view for every second leaf that is closed.
pub(crate) const SMALL: Limits = Limits {
    volumes: 2,
    blocks: 16,
    slot: 1,
    pool: 1,
    every: 2,
    scale: 0,
};

// The same with two frames, and no view for as long as there is room.
const LAZY: Limits = Limits {
    volumes: 2,
    blocks: 16,
    slot: 1,
    pool: 2,
    every: 65_536,
    scale: 0,
};

// The same with volumes of 64 blocks.
const WIDE: Limits = Limits {
    volumes: 2,
    blocks: 64,
    slot: 1,
    pool: 2,
    every: 65_536,
    scale: 0,
};

// A new store without series.
pub(crate) fn made<D: Disk>(alloc: Global, disk: &mut D, limits: &Limits) -> Option<Forest>
    requires { AreLimits limits.now }
    ensures { IfSome result (λ f. IsReady D.tells f (D.state disk.new)) }
{
    let Ok((meta, check)) = make_store(alloc, disk, limits) else {
        return None;
    };
    match Forest::new(alloc, meta, LevelsList::new(alloc), check) {
        Ok(forest) => Some(forest),
        Err(_) => None,
    }
}

// A name, where it names itself alone.
fn canonical(alloc: Global, name: &str) -> Option<Text>
    ensures { IfSome result (λ text. IsCanonical text) }
{
    let mut text = Text::new(alloc);
    if let Err(_) = text.push(alloc, name) {
        return None;
    }
    let Ok(names) = read_names(alloc, text.as_str().as_bytes()) else {
        return None;
    };
    match names.as_slice() {
        [only] if text.as_str() == only.as_str() => Some(text),
        _ => None,
    }
}

// Whether none of these, of which there are two at most, has the name.
fn is_new(series: &[SeriesMeta], name: &Text) -> bool
    ensures { result ≡ true → list_any (λ n. bytes_eq name.now n) (names_of series.now) ≡ false }
{
    match series {
        [] => true,
        [a] => name.as_str() != a.name.as_str(),
        [a, b] => name.as_str() != a.name.as_str() && name.as_str() != b.name.as_str(),
        _ => false,
    }
}

// Adds a series. Whether it was added.
fn add<D: Disk>(alloc: Global, forest: &mut Forest, disk: &D, name: &str) -> bool
    requires { IsReady D.tells forest.old (D.state disk.now) }
    ensures { result ≡ true → IsReady D.tells forest.new (D.state disk.now) }
{
    let _ = disk.files();
    let Some(name) = canonical(alloc, name) else {
        return false;
    };
    is_new(forest.meta().series(), &name) && forest.add(alloc, &name).is_ok()
}

// Accepts a point of a series that is there, where its time isn't before the last.
fn accept<D: Disk>(
    alloc: Global,
    forest: &mut Forest,
    disk: &mut D,
    series: u32,
    p: Point,
) -> Result<(), Stop>
    requires { IsReady D.tells forest.old (D.state disk.old) }
    ensures { OnOk result (IsReady D.tells forest.new (D.state disk.new)) }
{
    if series as usize >= forest.meta().series().len() {
        return Err(Stop::Usage);
    }
    if let Some(last) = forest.last(series) {
        if p.ts < last {
            return Err(Stop::Usage);
        }
    }
    forest.append(alloc, disk, series, p)
}

// The same of a time and a value. Whether it was accepted.
fn put<D: Disk>(
    alloc: Global,
    forest: &mut Forest,
    disk: &mut D,
    series: u32,
    point: (u64, i64),
) -> bool
    requires { IsReady D.tells forest.old (D.state disk.old) }
    ensures { result ≡ true → IsReady D.tells forest.new (D.state disk.new) }
{
    let (ts, value) = point;
    accept(alloc, forest, disk, series, Point { ts, value }).is_ok()
}

// A point of series 0 at each of these times, with two values in turn. Whether all were accepted.
fn put_all<D: Disk>(
    alloc: Global,
    forest: &mut Forest,
    disk: &mut D,
    times: (u64, u64),
    values: (i64, i64),
) -> bool
    requires { IsReady D.tells forest.old (D.state disk.old) }
    ensures { result ≡ true → IsReady D.tells forest.new (D.state disk.new) }
{
    for ts in times.0..times.1 {
        let value = if ts % 2 == 1 { values.0 } else { values.1 };
        if !put(alloc, forest, disk, 0, (ts, value)) {
            return false;
        }
    }
    true
}

// A leaf of series 0 with one point, which is closed.
fn leaf<D: Disk>(alloc: Global, forest: &mut Forest, disk: &mut D, ts: u64) -> Result<(), Stop>
    requires { IsReady D.tells forest.old (D.state disk.old) }
    ensures { OnOk result (IsReady D.tells forest.new (D.state disk.new)) }
{
    accept(alloc, forest, disk, 0, Point { ts, value: 0 })?;
    forest.close_all(alloc, disk)
}

// The same. Whether it was closed.
fn closed<D: Disk>(alloc: Global, forest: &mut Forest, disk: &mut D, ts: u64) -> bool
    requires { IsReady D.tells forest.old (D.state disk.old) }
    ensures { result ≡ true → IsReady D.tells forest.new (D.state disk.new) }
{
    leaf(alloc, forest, disk, ts).is_ok()
}

// So many leaves. Whether all were closed.
fn leaves<D: Disk>(alloc: Global, forest: &mut Forest, disk: &mut D, count: u64) -> bool
    requires { IsReady D.tells forest.old (D.state disk.old) }
    ensures { result ≡ true → IsReady D.tells forest.new (D.state disk.new) }
{
    for ts in 0..count {
        if leaf(alloc, forest, disk, ts).is_err() {
            return false;
        }
    }
    true
}

// Whether a series has an open leaf, and how many closed ones.
fn series_of(forest: &Forest, series: u32) -> (bool, u64) {
    let all = forest.meta().series();
    if series as usize >= all.len() {
        return (false, 0);
    }
    (
        forest.open_leaf(series).is_some(),
        all[series as usize].leaves,
    )
}

// What a query sees of a series: how many leaves, and how many references wait at the first two levels.
pub(crate) fn waiting(forest: &Forest, series: u32) -> (u64, usize, usize) {
    if series as usize >= forest.meta().series().len() {
        return (0, 0, 0);
    }
    let entry = forest.entry(series);
    (
        entry.leaves,
        entry.levels.pending(0).len(),
        entry.levels.pending(1).len(),
    )
}

// Whether a query sees an open leaf of a series.
fn forest_has_tail(forest: &Forest, series: u32) -> bool {
    (series as usize) < forest.meta().series().len() && forest.entry(series).tail.is_some()
}

// The newest ordinal and its fill.
fn place(forest: &Forest) -> (u32, u32) {
    (forest.volumes().q(), forest.volumes().n())
}

// Two bytes a point: the next one closes the leaf. The first point of the second leaf takes three. That leaf is followed by a
// view, of a body and a gate.
#[test]
fn a_full_leaf_of_zeros(rt: HostRuntime) -> Result<(), Fail> {
    let alloc = rt.alloc();
    let mut host = MemHost::new(alloc, &[], &[])?;
    let Some(mut forest) = made(alloc, &mut host, &SMALL) else {
        assert!(rt; false);
        return Ok(());
    };
    assert!(rt; add(alloc, &mut forest, &host, "a"));
    let before = host.writes();
    assert!(rt; put_all(alloc, &mut forest, &mut host, (1, 2017), (0, 0)));
    assert_eq!(rt; host.writes(), before);
    assert_eq!(rt; series_of(&forest, 0), (true, 0));
    assert!(rt; put(alloc, &mut forest, &mut host, 0, (2016, 0)));
    assert_eq!(rt; host.writes().saturating_sub(before), 1);
    assert_eq!(rt; series_of(&forest, 0), (true, 1));
    assert!(rt; put_all(alloc, &mut forest, &mut host, (2017, 4031), (0, 0)));
    assert_eq!(rt; host.writes().saturating_sub(before), 1);
    assert!(rt; put(alloc, &mut forest, &mut host, 0, (4031, 0)));
    assert_eq!(rt; host.writes().saturating_sub(before), 4);
    assert_eq!(rt; series_of(&forest, 0), (true, 2));
    assert_eq!(rt; place(&forest), (0, 2));
    Ok(())
}

// Eleven bytes a point: the next one closes the leaf, with one write.
#[test]
fn a_full_leaf_of_extremes(rt: HostRuntime) -> Result<(), Fail> {
    let alloc = rt.alloc();
    let mut host = MemHost::new(alloc, &[], &[])?;
    let Some(mut forest) = made(alloc, &mut host, &SMALL) else {
        assert!(rt; false);
        return Ok(());
    };
    assert!(rt; add(alloc, &mut forest, &host, "a"));
    let before = host.writes();
    assert!(rt;
        put_all(
            alloc,
            &mut forest,
            &mut host,
            (1, 367),
            (i64::MAX, i64::MIN)
        )
    );
    assert_eq!(rt; host.writes(), before);
    assert!(rt; put(alloc, &mut forest, &mut host, 0, (367, i64::MAX)));
    assert_eq!(rt; host.writes().saturating_sub(before), 1);
    assert_eq!(rt; series_of(&forest, 0), (true, 1));
    Ok(())
}

// With one frame, a point of another series closes the open leaf.
#[test]
fn one_frame_is_taken_by_turns(rt: HostRuntime) -> Result<(), Fail> {
    let alloc = rt.alloc();
    let mut host = MemHost::new(alloc, &[], &[])?;
    let Some(mut forest) = made(alloc, &mut host, &SMALL) else {
        assert!(rt; false);
        return Ok(());
    };
    assert!(rt; add(alloc, &mut forest, &host, "a"));
    assert!(rt; add(alloc, &mut forest, &host, "b"));
    let before = host.writes();
    assert!(rt; put(alloc, &mut forest, &mut host, 0, (5, 1)));
    assert_eq!(rt; host.writes(), before);
    assert!(rt; put(alloc, &mut forest, &mut host, 1, (3, 1)));
    assert_eq!(rt; host.writes().saturating_sub(before), 1);
    assert_eq!(rt; series_of(&forest, 0), (false, 1));
    assert_eq!(rt; series_of(&forest, 1), (true, 0));
    // The second leaf that is closed is followed by a view.
    assert!(rt; put(alloc, &mut forest, &mut host, 0, (5, 2)));
    assert_eq!(rt; host.writes().saturating_sub(before), 4);
    assert_eq!(rt; series_of(&forest, 0), (true, 1));
    assert_eq!(rt; series_of(&forest, 1), (false, 1));
    assert!(rt; !add(alloc, &mut forest, &host, "b"));
    Ok(())
}

// Of two frames, that of the leaf that was written least recently is taken.
#[test]
fn the_oldest_leaf_is_closed(rt: HostRuntime) -> Result<(), Fail> {
    let alloc = rt.alloc();
    let mut host = MemHost::new(alloc, &[], &[])?;
    let Some(mut forest) = made(alloc, &mut host, &LAZY) else {
        assert!(rt; false);
        return Ok(());
    };
    assert!(rt; add(alloc, &mut forest, &host, "a"));
    assert!(rt; add(alloc, &mut forest, &host, "b"));
    assert!(rt; add(alloc, &mut forest, &host, "c"));
    assert!(rt; put(alloc, &mut forest, &mut host, 0, (1, 1)));
    assert!(rt; put(alloc, &mut forest, &mut host, 1, (2, 1)));
    assert!(rt; put(alloc, &mut forest, &mut host, 0, (3, 1)));
    assert!(rt; put(alloc, &mut forest, &mut host, 2, (4, 1)));
    assert_eq!(rt; series_of(&forest, 0), (true, 0));
    assert_eq!(rt; series_of(&forest, 1), (false, 1));
    assert_eq!(rt; series_of(&forest, 2), (true, 0));
    Ok(())
}

// The group of leaf 31 has an inner node behind it: 32 references go into it, and the one to it waits at level 1.
#[test]
fn a_group_is_written(rt: HostRuntime) -> Result<(), Fail> {
    let alloc = rt.alloc();
    let mut host = MemHost::new(alloc, &[], &[])?;
    let Some(mut forest) = made(alloc, &mut host, &WIDE) else {
        assert!(rt; false);
        return Ok(());
    };
    assert!(rt; add(alloc, &mut forest, &host, "a"));
    let before = host.writes();
    assert!(rt; leaves(alloc, &mut forest, &mut host, 31));
    assert_eq!(rt; host.writes().saturating_sub(before), 31);
    assert_eq!(rt; place(&forest), (0, 31));
    assert!(rt; closed(alloc, &mut forest, &mut host, 31));
    assert_eq!(rt; host.writes().saturating_sub(before), 33);
    assert_eq!(rt; place(&forest), (0, 33));
    assert_eq!(rt; waiting(&forest, 0), (32, 0, 1));
    assert!(rt; put(alloc, &mut forest, &mut host, 0, (32, 7)));
    assert!(rt; forest_has_tail(&forest, 0));
    assert!(rt; closed(alloc, &mut forest, &mut host, 33));
    assert_eq!(rt; waiting(&forest, 0), (33, 1, 1));
    Ok(())
}

// Leaf 16 has no room in ordinal 0: a view is taken, of a body and a gate, and then the leaf is written. Ordinal 1 has a block
// left for the group of leaf 31, which has two: ordinal 2 begins in the place of ordinal 0.
#[test]
fn an_ordinal_begins_behind_a_view(rt: HostRuntime) -> Result<(), Fail> {
    let alloc = rt.alloc();
    let mut host = MemHost::new(alloc, &[], &[])?;
    let Some(mut forest) = made(alloc, &mut host, &LAZY) else {
        assert!(rt; false);
        return Ok(());
    };
    assert!(rt; add(alloc, &mut forest, &host, "a"));
    let before = host.writes();
    assert!(rt; leaves(alloc, &mut forest, &mut host, 16));
    assert_eq!(rt; host.writes().saturating_sub(before), 16);
    assert_eq!(rt; place(&forest), (0, 16));
    assert!(rt; leaf(alloc, &mut forest, &mut host, 16).is_ok());
    assert_eq!(rt; host.writes().saturating_sub(before), 19);
    assert_eq!(rt; place(&forest), (1, 1));
    Ok(())
}

#[test]
fn an_ordinal_takes_the_place_of_the_oldest(rt: HostRuntime) -> Result<(), Fail> {
    let alloc = rt.alloc();
    let mut host = MemHost::new(alloc, &[], &[])?;
    let Some(mut forest) = made(alloc, &mut host, &LAZY) else {
        assert!(rt; false);
        return Ok(());
    };
    assert!(rt; add(alloc, &mut forest, &host, "a"));
    assert!(rt; leaves(alloc, &mut forest, &mut host, 31));
    assert_eq!(rt; place(&forest), (1, 15));
    assert_eq!(rt; forest.volumes().lo(), 0);
    assert!(rt; closed(alloc, &mut forest, &mut host, 31));
    assert_eq!(rt; place(&forest), (2, 2));
    assert_eq!(rt; forest.volumes().lo(), 1);
    // the references that waited were taken, also those to leaves that are live no more
    assert_eq!(rt; waiting(&forest, 0), (32, 0, 1));
    Ok(())
}
