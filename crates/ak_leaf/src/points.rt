//! A list of points.
ghost use Rattle.std.specs.Prelude.{◌≡◌, ◌+◌, ◌<◌, ◌≤◌, ◌++◌, [], List, ℕ, length, drop, IfSome, IfNone, vec_len, vec_capacity};
ghost use Rattle.std.specs.List.{AllByRecursion};
ghost use Rattle.ak_base.specs.Points.{IsPoint, IsHistory};
ghost use Rattle.ak_base.specs.declared.point.Point.{Point};
ghost use Rattle.ak_bytes.specs.Fields.{IsPut};
ghost use Rattle.ak_leaf.specs.Spelling.{start, after_all, spelling, leaf_size};

use crate::point::{Before, get_point, put_point};
use ak_base::Point;

/// Writes points, and gives their end.
pub fn put_points(into: &mut [u8], at: usize, points: &[Point]) -> usize
    requires history { IsHistory points.now }
    requires room { at + leaf_size points.now ≤ length into.old }
    ensures end { result ≡ at + leaf_size points.now }
    ensures put { IsPut into.old into.new at result (spelling points.now) }
{
    let mut end = at;
    let mut before = Before::START;
    for p in points {
        end = put_point(into, end, before, *p);
        before = before.after(*p);
    }
    end
}

/// Reads as many points as `count` says, which all the bytes spell, and gives what a point behind them is spelled
/// against. None where the bytes spell no such points.
pub fn get_points(from: &[u8], count: u16, points: &mut Vec<Point>) -> Option<Before>
    requires empty { points.old.items ≡ [] }
    requires room { count ≤ vec_capacity points.old }
    ensures capacity { vec_capacity points.old ≤ vec_capacity points.new }
    ensures some { IfSome result (λ last. (last ≡ after_all start points.new.items) × (length points.new.items ≡ count) × IsHistory points.new.items × AllByRecursion IsPoint points.new.items × (from.now ≡ spelling points.new.items)) }
    ensures none { IfNone result ((ps : List Point) → length ps ≡ count → IsHistory ps → AllByRecursion IsPoint ps → from.now ≡ spelling ps → ⊥) }
{
    let mut at = 0;
    let mut before = Before::START;
    for _ in 0..count {
        let (point, end) = get_point(from, at, before)?;
        points.push(point).unwrap();
        at = end;
        before = before.after(point);
    }
    if at == from.len() { Some(before) } else { None }
}
