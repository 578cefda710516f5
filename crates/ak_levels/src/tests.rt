//! What leaves fill, what waits at first, and what lifts and lists hold.
ghost use Rattle.std.specs.Prelude.{◌≡◌};
ghost use Rattle.ak_levels.specs.Entries.{IsTally};

use super::*;
use ak_base::{Addr, Point};
use ak_inner::{Inner, Ref};
use ak_summary::{Fold, Summary};
use std::alloc::AllocError;

#[test]
fn carries_of_leaves(rt: HostRuntime) {
    assert_eq!(rt; carry(0), 0);
    assert_eq!(rt; carry(30), 0);
    assert_eq!(rt; carry(31), 1);
    assert_eq!(rt; carry(32), 0);
    assert_eq!(rt; carry(1023), 2);
    assert_eq!(rt; carry((1 << 50) - 1), 10);
    assert_eq!(rt; carry((1 << 53) - 1), 10);
}

#[test]
fn none_wait_at_first(rt: HostRuntime) {
    let levels = Levels::new();
    assert_eq!(rt; levels.pending(0).len(), 0);
    assert_eq!(rt; levels.pending(10).len(), 0);
}

/// The reference to a leaf of one point.
fn leaf_of(addr: u64, p: Point) -> Ref
    ensures addr { result.addr.0 ≡ addr }
    ensures tally { IsTally 0 result }
{
    Ref {
        addr: Addr(addr),
        first_leaf: Addr(addr),
        summary: Summary::of(p),
    }
}

#[test]
fn one_series_in_a_list(rt: HostRuntime) -> Result<(), AllocError> {
    let mut list = LevelsList::new(rt.alloc());
    list.push(rt.alloc(), Levels::new())?;
    list.push(rt.alloc(), Levels::new())?;
    list.pop();
    assert_eq!(rt; list.as_slice().len(), 1);
    Ok(())
}

#[test]
fn two_leaves_are_lifted(rt: HostRuntime) -> Result<(), AllocError> {
    let mut levels = Levels::new();
    let mut node = Inner::new();
    levels.reserve(rt.alloc(), 0)?;
    levels.push(0, leaf_of(4, Point { ts: 10, value: 7 }));
    let top = lift(
        &mut levels,
        0,
        leaf_of(5, Point { ts: 20, value: -3 }),
        &mut node,
    );
    let whole = Summary {
        count: 2,
        begin: 10,
        end: 20,
        first: 7,
        last: -3,
        min: -3,
        min_ts: 20,
        max: 7,
        max_ts: 10,
        sum: 4,
    };
    assert_eq!(rt;
        top,
        Ref {
            addr: Addr(6),
            first_leaf: Addr(4),
            summary: whole
        }
    );
    assert_eq!(rt; node.refs().len(), 2);
    assert_eq!(rt; levels.pending(0).len(), 0);
    let entry = Entry {
        series: 0,
        leaves: 2,
        levels: &levels,
        tail: None,
    };
    assert_eq!(rt; entry.levels.pending(1).len(), 0);
    Ok(())
}
