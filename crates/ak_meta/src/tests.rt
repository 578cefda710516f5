//! Worked bytes, and metadata that grows.
ghost use Rattle.std.specs.Prelude.{◌≡◌, ◌+◌, ◌-◌, ◌*◌, ◌<◌, ◌≤◌, ◌↔◌, bytes_eq, IfOk, IfSome, IsTrue};
ghost use Rattle.std.specs.List.{list_any};
ghost use Rattle.ak_base.specs.Ranges.{AreLimits};
ghost use Rattle.ak_meta.specs.Contents.{IsMeta, names_of, size_of, leaves_of, room_of};
ghost use Rattle.ak_meta.specs.Leaves.{with_series, IsEntered};

use super::*;
use crate::entering::levels;
use crate::reading::read_name;
use ak_base::{Addr, Limits, Text};
use ak_volumes::Place;
use std::alloc::{AllocError, Global};

const LIMITS: Limits = Limits {
    volumes: 2,
    blocks: 16,
    slot: 1,
    pool: 3,
    every: 4,
    scale: 5,
};

/// Two volumes, of which ordinal 0 is live with 3 blocks, and the series `a` with one leaf, whose last time is 261, in
/// block 2.
const WORKED: [u8; 155] = [
    1, 0, 0, 0, // the format
    2, 0, 0, 0, 16, 0, 0, 0, 1, 0, 0, 0, 3, 0, 0, 0, 4, 0, 0, 0, 5, 0, 0, 0, // the limits
    0, 0, 0, 0, 1, 0, 0, 0, 1, 0, 0, 0, // lo, live, series
    3, 0, 0, 0, 0, 0, 0, 0, // the fills
    1, 0, 97, // the name
    1, 0, 0, 0, 0, 0, 0, 0, // the leaves
    5, 1, 0, 0, 0, 0, 0, 0, // the last time
    2, 0, 0, 0, 0, 0, 0, 0, // the rescue address of level 0
    255, 255, 255, 255, 255, 255, 255, 255, 255, 255, 255, 255, 255, 255, 255, 255, //
    255, 255, 255, 255, 255, 255, 255, 255, 255, 255, 255, 255, 255, 255, 255, 255, //
    255, 255, 255, 255, 255, 255, 255, 255, 255, 255, 255, 255, 255, 255, 255, 255, //
    255, 255, 255, 255, 255, 255, 255, 255, 255, 255, 255, 255, 255, 255, 255, 255, //
    255, 255, 255, 255, 255, 255, 255, 255, 255, 255, 255, 255, 255, 255, 255, 255,
];

/// Places and bytes that break a rule each.
const BROKEN: [(usize, u8); 15] = [
    (0, 2), // the format
    (4, 1), // too few volumes
    (8, 15), // too few blocks
    (24, 10), // too many decimal places
    (28, 1), // an ordinal is dead, but not all volumes are in use
    (32, 0), // none live
    (32, 3), // too many live
    (36, 0), // bytes behind the last series
    (36, 2), // a series is missing
    (40, 17), // a fill over the blocks
    (40, 0), // more leaves than blocks
    (44, 1), // a fill of a volume that isn't in use
    (50, 61), // no name
    (51, 0), // a last time without a leaf
    (75, 0), // a rescue address of a level without a node
];

/// Room for a level of a series.
const ROOMY: Limits = Limits {
    volumes: 2,
    blocks: 40,
    slot: 1,
    pool: 3,
    every: 4,
    scale: 5,
};

/// The content of the first view.
fn fresh(alloc: Global, limits: Limits) -> Result<Meta, AllocError>
    requires { AreLimits limits }
    ensures { IfOk result (λ m. IsMeta m) }
{
    let meta = Meta::new(alloc, limits)?;
    Ok(meta)
}

/// Whether a series has this name.
fn is_known(series: &[SeriesMeta], name: &Text) -> bool
    ensures { result ≡ list_any (λ n. bytes_eq name.now n) (names_of series.now) }
{
    for s in series {
        if name.as_str() == s.name.as_str() {
            return true;
        }
    }
    false
}

/// Whether the spelling with a series more fits its slot.
fn is_short(meta: &Meta, name: &Text) -> bool
    ensures { IsTrue result ↔ (size_of (with_series meta.now name.now) ≤ 4096 * meta.now.limits.slot) }
{
    let most = 4096 * u64::from(meta.limits().slot);
    let long = 106 + name.as_str().len() as u64;
    long <= most && meta.size() <= most - long
}

/// Adds a series where that may be done, and gives its number.
fn add(meta: &mut Meta, alloc: Global, name: &str) -> Option<u32>
    requires { IsMeta meta.old }
    ensures { IsMeta meta.new }
{
    let Ok(name) = read_name(alloc, name.as_bytes()) else {
        return None;
    };
    if is_known(meta.series(), &name) || !is_short(meta, &name) {
        return None;
    }
    meta.add(alloc, &name).ok()
}

/// Enters a group in the newest ordinal where it fits there, and gives its address.
fn fill(meta: &mut Meta, group: u32) -> Option<Addr>
    requires rules { IsMeta meta.old }
    requires some { 1 ≤ group }
    ensures rules { IsMeta meta.new }
    ensures series { meta.new.series ≡ meta.old.series }
    ensures entered { IfSome result (λ at. IsEntered meta.new.ordinals at.0 (group - 1)) }
    ensures room { IfSome result (λ _. leaves_of meta.new.series < room_of meta.new.ordinals) }
{
    match meta.volumes().place(group) {
        Place::Here(at) => {
            meta.volumes_mut().fill(group);
            Some(at)
        }
        _ => None,
    }
}

/// Enters a leaf of a series with its group where that fits, and gives its address.
fn enter(meta: &mut Meta, series: u32, last: u64) -> Option<Addr>
    requires { IsMeta meta.old }
    ensures { IsMeta meta.new }
{
    if series as usize >= meta.series().len() {
        return None;
    }
    let nodes = levels(meta.series()[series as usize].leaves);
    let at = fill(meta, 1 + nodes as u32)?;
    meta.closed(series, last, at);
    Some(at)
}

/// Whether a series has so many leaves, this last time, and these rescue addresses from level 0 on and no more.
fn is_at(series: &SeriesMeta, leaves: u64, last: u64, rescue: &[Addr]) -> bool {
    for level in 0..11 {
        let address = if level < rescue.len() {
            rescue[level]
        } else {
            Addr(u64::MAX)
        };
        if series.rescue[level] != address {
            return false;
        }
    }
    series.leaves == leaves && series.last == last
}

fn is_bad(alloc: Global, bytes: &[u8]) -> bool {
    matches!(Meta::decode(alloc, bytes), Err(MetaError::Bad))
}

#[test]
fn worked_bytes_are_written(rt: HostRuntime) {
    let mut bytes = [7; 155];
    if let Ok(meta) = Meta::decode(rt.alloc(), &WORKED) {
        assert_eq!(rt; meta.size(), 155);
        meta.encode(&mut bytes);
    }
    assert!(rt; bytes.as_slice() == WORKED.as_slice());
}

#[test]
fn worked_bytes_are_read(rt: HostRuntime) -> Result<(), AllocError> {
    let Ok(meta) = Meta::decode(rt.alloc(), &WORKED) else {
        assert!(rt; false);
        return Ok(());
    };
    assert_eq!(rt; meta.limits(), LIMITS);
    assert_eq!(rt; meta.volumes().lo(), 0);
    assert_eq!(rt; meta.volumes().fills(), [3].as_slice());
    assert_eq!(rt; meta.series().len(), 1);
    let series = &meta.series()[0];
    assert_eq!(rt; series.name.as_str(), "a");
    assert_eq!(rt; series.leaves, 1);
    assert_eq!(rt; series.last, 261);
    assert_eq!(rt; series.rescue[0], Addr(2));
    assert_eq!(rt; series.rescue[1], Addr(u64::MAX));
    Ok(())
}

#[test]
fn broken_bytes_are_refused(rt: HostRuntime) {
    for (at, byte) in BROKEN {
        let mut bytes = WORKED;
        if at < bytes.len() {
            bytes[at] = byte;
        }
        assert!(rt; is_bad(rt.alloc(), &bytes));
    }
    assert!(rt; is_bad(rt.alloc(), &WORKED[..154]));
    assert!(rt; is_bad(rt.alloc(), &WORKED[..39]));
    assert!(rt; is_bad(rt.alloc(), &[]));
}

#[test]
fn longer_bytes_are_refused(rt: HostRuntime) {
    let mut bytes = [0; 156];
    bytes[..155].copy_from_slice(&WORKED);
    assert!(rt; is_bad(rt.alloc(), &bytes));
}

#[test]
fn last_ordinal_is_read_and_none_behind_it(rt: HostRuntime) {
    let mut bytes = WORKED;
    bytes[28..32].copy_from_slice(&[254, 255, 255, 255]);
    bytes[32] = 2;
    assert!(rt; !is_bad(rt.alloc(), &bytes));
    bytes[28] = 255;
    assert!(rt; is_bad(rt.alloc(), &bytes));
}

#[test]
fn one_name_stands_once(rt: HostRuntime) {
    let mut bytes = [0; 262];
    bytes[..155].copy_from_slice(&WORKED);
    bytes[155..].copy_from_slice(&WORKED[48..]);
    bytes[36] = 2;
    assert!(rt; is_bad(rt.alloc(), &bytes));
    bytes[157] = 98;
    assert!(rt; !is_bad(rt.alloc(), &bytes));
}

#[test]
fn first_content_is_empty(rt: HostRuntime) -> Result<(), AllocError> {
    let meta = Meta::new(rt.alloc(), LIMITS)?;
    assert_eq!(rt; meta.limits(), LIMITS);
    assert_eq!(rt; meta.volumes().lo(), 0);
    assert_eq!(rt; meta.volumes().fills(), [0].as_slice());
    assert_eq!(rt; meta.series().len(), 0);
    Ok(())
}

#[test]
fn chain_gives_the_worked_bytes(rt: HostRuntime) -> Result<(), AllocError> {
    let mut meta = fresh(rt.alloc(), LIMITS)?;
    assert_eq!(rt; fill(&mut meta, 2), Some(Addr(0)));
    assert_eq!(rt; add(&mut meta, rt.alloc(), "a"), Some(0));
    assert_eq!(rt; enter(&mut meta, 0, 261), Some(Addr(2)));
    let mut bytes = [7; 155];
    assert_eq!(rt; meta.size(), 155);
    meta.encode(&mut bytes);
    assert!(rt; bytes.as_slice() == WORKED.as_slice());
    Ok(())
}

#[test]
fn leaf_32_has_a_node(rt: HostRuntime) -> Result<(), AllocError> {
    let mut meta = fresh(rt.alloc(), ROOMY)?;
    assert_eq!(rt; add(&mut meta, rt.alloc(), "cpu host=a"), Some(0));
    assert_eq!(rt; add(&mut meta, rt.alloc(), "cpu host=b"), Some(1));
    assert_eq!(rt; add(&mut meta, rt.alloc(), "mem"), Some(2));
    assert_eq!(rt; enter(&mut meta, 0, 500), Some(Addr(0)));
    for leaf in 0..31 {
        let at = enter(&mut meta, 1, 1000 + leaf);
        assert_eq!(rt; at, Some(Addr(1 + leaf)));
    }
    assert_eq!(rt; meta.series().len(), 3);
    assert!(rt; is_at(&meta.series()[1], 31, 1030, &[Addr(31)]));
    assert_eq!(rt; enter(&mut meta, 1, 1031), Some(Addr(32)));
    assert_eq!(rt; enter(&mut meta, 1, 1032), Some(Addr(34)));
    assert_eq!(rt; meta.series().len(), 3);
    assert!(rt; is_at(&meta.series()[0], 1, 500, &[Addr(0)]));
    assert!(rt; is_at(&meta.series()[1], 33, 1032, &[Addr(34), Addr(33)]));
    assert!(rt; is_at(&meta.series()[2], 0, 0, &[]));
    assert_eq!(rt; meta.series()[2].name.as_str(), "mem");
    assert_eq!(rt; meta.volumes().fills(), [35].as_slice());
    Ok(())
}

#[test]
fn volumes_are_lent(rt: HostRuntime) -> Result<(), AllocError> {
    let mut meta = fresh(rt.alloc(), LIMITS)?;
    assert_eq!(rt; add(&mut meta, rt.alloc(), "a"), Some(0));
    assert_eq!(rt; fill(&mut meta, 16), Some(Addr(0)));
    assert_eq!(rt; enter(&mut meta, 0, 5), None);
    if meta.volumes().q() < u32::MAX {
        meta.volumes_mut().switch();
    }
    assert_eq!(rt; meta.volumes().fills(), [16, 0].as_slice());
    assert_eq!(rt; meta.series().len(), 1);
    Ok(())
}

#[test]
fn laws_are_called() {
    one_content();
    spelling_is_as_long();
    meta_stays_lawful();
}
