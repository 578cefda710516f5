//! One reference, its bytes and its rules.
ghost use Rattle.std.specs.Prelude.{◌≡◌, ◌↔◌, ◌-◌, ◌*◌, ◌^◌, ◌≤◌, pos, ◌*ℤ◌, ◌≤ℤ◌, length, IsTrue};
ghost use Rattle.ak_summary.specs.Summaries.{IsBounded, IsOrderly};
ghost use Rattle.ak_inner.specs.References.{FitsRef, IsRef, ref_bytes};

use ak_base::Addr;
use ak_bytes::{get_i64, get_i128, get_u64, put_i64, put_i128, put_u64};
use ak_summary::Summary;

/// How many bytes a reference takes.
pub const SIZE: usize = 104;

/// What an inner node holds of a node one level below.
#[derive(Clone, Copy, Debug, PartialEq, Eq, Drop)]
pub struct Ref {
    /// The address of the child.
    pub addr: Addr,
    /// The address of the first leaf whose points the summary covers.
    pub first_leaf: Addr,
    /// The summary of the points from that leaf to the end of the child's subtree.
    pub summary: Summary,
}

/// Writes a reference over 104 bytes.
pub fn put_ref(into: &mut [u8], r: Ref)
    requires { length into.old ≡ 104 }
    ensures { into.new ≡ ref_bytes r }
{
    put_u64(into, 0, r.addr.0);
    put_u64(into, 8, r.first_leaf.0);
    put_u64(into, 16, r.summary.count);
    put_u64(into, 24, r.summary.begin);
    put_u64(into, 32, r.summary.end);
    put_i64(into, 40, r.summary.first);
    put_i64(into, 48, r.summary.last);
    put_i64(into, 56, r.summary.min);
    put_u64(into, 64, r.summary.min_ts);
    put_i64(into, 72, r.summary.max);
    put_u64(into, 80, r.summary.max_ts);
    put_i128(into, 88, r.summary.sum);
}

/// The reference that 104 bytes are.
pub fn get_ref(from: &[u8]) -> Ref
    requires { length from.now ≡ 104 }
    ensures bytes { from.now ≡ ref_bytes result }
    ensures fits { FitsRef result }
{
    Ref {
        addr: Addr(get_u64(from, 0)),
        first_leaf: Addr(get_u64(from, 8)),
        summary: Summary {
            count: get_u64(from, 16),
            begin: get_u64(from, 24),
            end: get_u64(from, 32),
            first: get_i64(from, 40),
            last: get_i64(from, 48),
            min: get_i64(from, 56),
            min_ts: get_u64(from, 64),
            max: get_i64(from, 72),
            max_ts: get_u64(from, 80),
            sum: get_i128(from, 88),
        },
    }
}

/// Whether a reference keeps the rules of a node of this level.
pub fn is_ref(r: Ref, level: u8) -> bool
    requires above { 1 ≤ level }
    requires most { level ≤ 10 }
    ensures { IsTrue result ↔ IsRef level r }
{
    r.summary.count >= 1
        && r.summary.count <= most_points(level)
        && is_orderly(r.summary)
        && is_bounded(r.summary)
}

/// The most points that a reference of a node of this level covers.
fn most_points(level: u8) -> u64
    requires above { 1 ≤ level }
    requires most { level ≤ 10 }
    ensures { result ≡ 2016 * 32 ^ (level - 1) }
{
    2016 << (5 * (level - 1))
}

/// Whether times and values are in order.
fn is_orderly(s: Summary) -> bool
    ensures { IsTrue result ↔ IsOrderly s }
{
    has_times_within(s) && has_values_within(s)
}

/// Whether both ends are in order, and the times of the least and the greatest value lie within them.
fn has_times_within(s: Summary) -> bool
    ensures { IsTrue result ↔ ((s.begin ≤ s.end) × (s.begin ≤ s.min_ts) × (s.min_ts ≤ s.end) × (s.begin ≤ s.max_ts) × (s.max_ts ≤ s.end)) }
{
    s.begin <= s.end
        && s.begin <= s.min_ts
        && s.min_ts <= s.end
        && s.begin <= s.max_ts
        && s.max_ts <= s.end
}

/// Whether the first and the last value lie within the least and the greatest.
fn has_values_within(s: Summary) -> bool
    ensures { IsTrue result ↔ ((s.min ≤ℤ s.first) × (s.first ≤ℤ s.max) × (s.min ≤ℤ s.last) × (s.last ≤ℤ s.max)) }
{
    is_value_within(s.first, s.min, s.max) && is_value_within(s.last, s.min, s.max)
}

/// Whether a value lies within two.
fn is_value_within(value: i64, least: i64, most: i64) -> bool
    ensures { IsTrue result ↔ ((least ≤ℤ value) × (value ≤ℤ most)) }
{
    least <= value && value <= most
}

/// Whether the sum is one of so many values from the least to the greatest.
fn is_bounded(s: Summary) -> bool
    ensures { IsTrue result ↔ IsBounded s }
{
    is_within(s.sum, product(s.count, s.min), product(s.count, s.max))
}

/// Whether a sum lies within two.
fn is_within(sum: i128, least: i128, most: i128) -> bool
    ensures { IsTrue result ↔ ((least ≤ℤ sum) × (sum ≤ℤ most)) }
{
    least <= sum && sum <= most
}

/// A count times a value.
fn product(count: u64, value: i64) -> i128
    ensures { result ≡ pos count *ℤ value }
{
    i128::from(count) * i128::from(value)
}
