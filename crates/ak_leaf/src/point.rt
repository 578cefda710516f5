//! One point, as it is spelled against what stands before it.
ghost use Rattle.std.specs.Prelude.{◌≡◌, ◌+◌, ◌-◌, ◌-ℤ◌, ◌<◌, ◌≤◌, ◌^◌, ◌++◌, List, ℕ, length, drop, IfSome, IfNone};
ghost use Rattle.ak_base.specs.Points.{IsPoint};
ghost use Rattle.ak_base.specs.declared.point.Point.{Point};
ghost use Rattle.ak_bytes.specs.Fields.{IsPut};
ghost use Rattle.ak_bytes.specs.Zigzag.{zigzag_of};
ghost use Rattle.ak_leaf.specs.Spelling.{IsBefore, after, point_spelling};

use ak_base::Point;
use ak_bytes::{get_uvar, put_uvar, unzigzag, uvar_length, zigzag, zigzag_i64};

/// What a point is spelled against.
#[derive(Clone, Copy, Drop)]
pub struct Before {
    pub ts: u64,
    pub value: i64,
}

impl Before {
    /// What the first point is spelled against.
    pub const START: Before = Before { ts: 0, value: 0 };

    /// What the point behind `p` is spelled against, where `p` is spelled against this.
    pub fn after(self, p: Point) -> Before
        ensures { result ≡ after self p }
    {
        Before {
            ts: p.ts,
            value: p.value,
        }
    }
}

// The number of the difference between two values. It has 65 bits only where the difference has.
fn value_number(before: i64, value: i64) -> u128
    ensures number { result ≡ zigzag_of (value -ℤ before) }
    ensures small { result < 2 ^ 65 }
{
    match value.checked_sub(before) {
        Some(difference) => u128::from(zigzag_i64(difference)),
        None => zigzag(i128::from(value) - i128::from(before)),
    }
}

/// The two numbers that a point is spelled by.
pub fn numbers(before: Before, p: Point) -> (u128, u128)
    requires { before.ts ≤ p.ts }
    ensures time { result.0 ≡ p.ts - before.ts }
    ensures value { result.1 ≡ zigzag_of (p.value -ℤ before.value) }
    ensures early { result.0 < 2 ^ 64 }
    ensures small { result.1 < 2 ^ 65 }
    ensures point { IsPoint p }
{
    (
        u128::from(p.ts - before.ts),
        value_number(before.value, p.value),
    )
}

/// The point that two numbers spell. None where its timestamp or its value is out of range.
pub fn point_of(before: Before, time: u128, value: u128) -> Option<Point>
    requires early { time < 2 ^ 70 }
    requires small { value < 2 ^ 70 }
    ensures point { IfSome result (λ p. IsPoint p) }
    ensures some { IfSome result (λ p. (before.ts ≤ p.ts) × (time ≡ p.ts - before.ts) × (value ≡ zigzag_of (p.value -ℤ before.value))) }
    ensures none { IfNone result ((p : Point) → IsPoint p → before.ts ≤ p.ts → time ≡ p.ts - before.ts → value ≡ zigzag_of (p.value -ℤ before.value) → ⊥) }
{
    let ts = u128::from(before.ts) + time;
    if ts > u128::from(u64::MAX) || value >= 1 << 65 {
        return None;
    }
    let value = i128::from(before.value) + unzigzag(value);
    if value < i128::from(i64::MIN) || value > i128::from(i64::MAX) {
        return None;
    }
    Some(Point {
        ts: ts as u64,
        value: value as i64,
    })
}

/// How many bytes a point takes.
pub fn point_size(before: Before, p: Point) -> u32
    requires { before.ts ≤ p.ts }
    ensures whole { result ≡ length (point_spelling before p) }
    ensures most { result ≤ 20 }
    ensures point { IsPoint p }
{
    let (time, value) = numbers(before, p);
    uvar_length(time) + uvar_length(value)
}

/// Writes a point, and gives its end.
pub fn put_point(into: &mut [u8], at: usize, before: Before, p: Point) -> usize
    requires rises { before.ts ≤ p.ts }
    requires room { at + length (point_spelling before p) ≤ length into.old }
    ensures end { result ≡ at + length (point_spelling before p) }
    ensures put { IsPut into.old into.new at result (point_spelling before p) }
{
    let (time, value) = numbers(before, p);
    let middle = put_uvar(into, at, time).unwrap();
    put_uvar(into, middle, value).unwrap()
}

/// Reads the point that is spelled at a place, and gives its end. None where none is spelled there.
pub fn get_point(from: &[u8], at: usize, before: Before) -> Option<(Point, usize)>
    requires place { at ≤ length from.now }
    requires before { IsBefore before }
    ensures within { IfSome result (λ found. found.1 ≤ length from.now) }
    ensures rises { IfSome result (λ found. IsPoint found.0 × (before.ts ≤ found.0.ts)) }
    ensures some { IfSome result (λ found. drop at from.now ≡ point_spelling before found.0 ++ drop found.1 from.now) }
    ensures none { IfNone result ((p : Point) (rest : List ℕ) → IsPoint p → before.ts ≤ p.ts → drop at from.now ≡ point_spelling before p ++ rest → ⊥) }
{
    let (time, middle) = get_uvar(from, at)?;
    let (value, end) = get_uvar(from, middle)?;
    let point = point_of(before, time, value)?;
    Some((point, end))
}
