//! The summary of a list of points.
ghost use Rattle.std.specs.Prelude.{◌≡◌, ◌<ℤ◌, min, ◌<◌, ◌≤◌, List, [], ◌∷◌, ◌++◌};
ghost use Rattle.ak_base.specs.declared.point.Point.{Point};
ghost use Rattle.ak_base.specs.Points.{IsHistory};
ghost use Rattle.ak_summary.specs.declared.summary.Summary.{Summary};
ghost use Rattle.ak_summary.specs.Bounds.{IsSummary-can_join};
ghost use Rattle.ak_summary.specs.Ones.{IsSummary-one};
ghost use Rattle.ak_summary.specs.Order.{IsMerge};
ghost use Rattle.ak_summary.specs.Summaries.{IsSummary, IsBounded, IsOrderly, CanJoin, joined, lesser_of, greater_of, Are, IsMerged};

use crate::fold::Fold;
use ak_base::Point;

/// The summary of a list of points that isn't empty. Times are in nanoseconds since 1970.
#[derive(Clone, Copy, Debug, PartialEq, Eq, Drop)]
pub struct Summary {
    /// How many points there are.
    pub count: u64,
    /// The time of the first point.
    pub begin: u64,
    /// The time of the last point.
    pub end: u64,
    /// The value of the first point.
    pub first: i64,
    /// The value of the last point.
    pub last: i64,
    /// The least value.
    pub min: i64,
    /// The earliest time at which the least value stands.
    pub min_ts: u64,
    /// The greatest value.
    pub max: i64,
    /// The earliest time at which the greatest value stands.
    pub max_ts: u64,
    /// The sum of the values.
    pub sum: i128,
}

impl Fold for Summary {
    ghost is_value = { λ ps s. IsSummary ps s };

    ghost can_join = { λ a b. CanJoin a b };

    fn of(p: Point) -> Self
        ensures value { IsSummary (p ∷ []) result }
        ensures bounded { IsBounded result }
        ensures orderly { IsOrderly result }
    {
        Summary {
            count: 1,
            begin: p.ts,
            end: p.ts,
            first: p.value,
            last: p.value,
            min: p.value,
            min_ts: p.ts,
            max: p.value,
            max_ts: p.ts,
            sum: i128::from(p.value),
        }
    }

    fn join(self, later: Self) -> Self
        requires { CanJoin self later }
        ensures fields { result ≡ joined self later }
        ensures bounded { IsBounded result }
        ensures orderly { IsOrderly self → IsOrderly later → self.end ≤ later.begin → IsOrderly result }
        ensures value { (ps qs : List Point) → IsHistory (ps ++ qs) → IsSummary ps self → IsSummary qs later → IsSummary (ps ++ qs) result }
    {
        let low = lesser(self.min_ts, self.min, later.min_ts, later.min);
        let high = greater(self.max_ts, self.max, later.max_ts, later.max);
        Summary {
            count: self.count + later.count,
            begin: self.begin,
            end: later.end,
            first: self.first,
            last: later.last,
            min: low.value,
            min_ts: low.ts,
            max: high.value,
            max_ts: high.ts,
            sum: self.sum + later.sum,
        }
    }

    ghost one_value = { λ ps a b s t. IsSummary-one ps a b s t };

    ghost short_lists_join = { λ ps qs a b s t small. IsSummary-can_join ps qs a b s t small };
}

impl Summary {
    /// The summary of two lists merged by time, ties to the first.
    pub fn merge(self, other: Self) -> Self
        requires { CanJoin self other }
        ensures fields { IsMerged self other result }
        ensures bounded { IsBounded result }
        ensures orderly { IsOrderly self → IsOrderly other → IsOrderly result }
        ensures value { (rs ps qs : List Point) → IsMerge rs ps qs → IsHistory ps → IsHistory qs → IsSummary ps self → IsSummary qs other → IsSummary rs result }
    {
        let low = least(self.min_ts, self.min, other.min_ts, other.min);
        let high = greatest(self.max_ts, self.max, other.max_ts, other.max);
        let begin = earlier(self.begin, self.first, other.begin, other.first);
        let end = latest(self.end, self.last, other.end, other.last);
        Summary {
            count: self.count + other.count,
            begin: begin.ts,
            end: end.ts,
            first: begin.value,
            last: end.value,
            min: low.value,
            min_ts: low.ts,
            max: high.value,
            max_ts: high.ts,
            sum: self.sum + other.sum,
        }
    }
}

/// The earlier of two points, the first on a tie.
fn earlier(ts: u64, value: i64, other_ts: u64, other: i64) -> Point
    ensures first { ts ≤ other_ts → Are result.ts result.value ts value }
    ensures second { other_ts < ts → Are result.ts result.value other_ts other }
{
    if other_ts < ts {
        Point {
            ts: other_ts,
            value: other,
        }
    } else {
        Point { ts, value }
    }
}

/// The later of two points, the second on a tie.
fn latest(ts: u64, value: i64, other_ts: u64, other: i64) -> Point
    ensures first { other_ts < ts → Are result.ts result.value ts value }
    ensures second { ts ≤ other_ts → Are result.ts result.value other_ts other }
{
    if other_ts < ts {
        Point { ts, value }
    } else {
        Point {
            ts: other_ts,
            value: other,
        }
    }
}

/// The lesser of two values with its time, or the lesser time of one value.
fn least(ts: u64, value: i64, other_ts: u64, other: i64) -> Point
    ensures first { value <ℤ other → Are result.ts result.value ts value }
    ensures second { other <ℤ value → Are result.ts result.value other_ts other }
    ensures both { value ≡ other → Are result.ts result.value (min ts other_ts) value }
{
    if other < value || (other == value && other_ts < ts) {
        Point {
            ts: other_ts,
            value: other,
        }
    } else {
        Point { ts, value }
    }
}

/// The greater of two values with its time, or the lesser time of one value.
fn greatest(ts: u64, value: i64, other_ts: u64, other: i64) -> Point
    ensures first { other <ℤ value → Are result.ts result.value ts value }
    ensures second { value <ℤ other → Are result.ts result.value other_ts other }
    ensures both { value ≡ other → Are result.ts result.value (min ts other_ts) value }
{
    if value < other || (other == value && other_ts < ts) {
        Point {
            ts: other_ts,
            value: other,
        }
    } else {
        Point { ts, value }
    }
}

/// The lesser of two values with its time, the earlier on a tie.
fn lesser(ts: u64, value: i64, later_ts: u64, later: i64) -> Point
    ensures { result ≡ lesser_of ts value later_ts later }
{
    if later < value {
        Point {
            ts: later_ts,
            value: later,
        }
    } else {
        Point { ts, value }
    }
}

/// The greater of two values with its time, the earlier on a tie.
fn greater(ts: u64, value: i64, later_ts: u64, later: i64) -> Point
    ensures { result ≡ greater_of ts value later_ts later }
{
    if value < later {
        Point {
            ts: later_ts,
            value: later,
        }
    } else {
        Point { ts, value }
    }
}
