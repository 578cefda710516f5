//! Points of a walk that are lent in a row.
ghost use Rattle.std.specs.Prelude.{◌≡◌, ℕ, ◌+◌, ◌-◌, ◌<◌, ◌≤◌, List, length, reverse, take, drop, ◌&&◌, true, false, min};
ghost use Rattle.std.specs.List.{prefix_len};
ghost use Rattle.ak_base.specs.Selections.{filter_has};
ghost use Rattle.ak_base.specs.declared.point.Point.{Point};
ghost use Rattle.ak_select.specs.Windows.{is_within};
ghost use Rattle.ak_walk.specs.Walking.{IsAhead, Parts, nearest, run_length};
ghost use Rattle.ak_world.specs.Leaves.{Leaf};

use crate::walking::{Walk, is_asked};
use ak_base::{Filter, Point};
use ak_select::Window;

/// How many points in a row from a place on are asked for.
fn count_on(points: &[Point], at: usize, window: Window, filter: Filter) -> usize
    ensures is { result ≡ prefix_len (λ p. is_within window p.ts && filter_has filter p.value) (drop at points.now) }
{
    let mut i = at;
    while i < points.len() {
        if !is_asked(window, filter, points[i]) {
            return i - at;
        }
        i += 1;
    }
    i - at
}

/// The lesser of a place and a count.
fn up_to(at: usize, count: usize) -> usize
    ensures { result ≡ min at count }
{
    if at < count { at } else { count }
}

/// How many points in a row before a place are asked for.
fn count_back(points: &[Point], to: usize, window: Window, filter: Filter) -> usize
    requires { to ≤ length points.now }
    ensures is { result ≡ prefix_len (λ p. is_within window p.ts && filter_has filter p.value) (reverse (take to points.now)) }
    ensures most { result ≤ to }
{
    let mut i = to;
    while i > 0 {
        if !is_asked(window, filter, points[i - 1]) {
            return to - i;
        }
        i -= 1;
    }
    to
}

/// The next so many points beside a place, in rising order: from it on, or before it.
fn nearest_in(points: &[Point], at: usize, back: bool, count: usize) -> &[Point]
    requires on { back ≡ false → count ≤ length (drop at points.now) }
    requires back { back ≡ true → count ≤ length (take at points.now) }
    ensures on { back ≡ false → result.now ≡ take count (drop at points.now) }
    ensures back { back ≡ true → result.now ≡ drop (length (take at points.now) - count) (take at points.now) }
{
    if back {
        let to = up_to(at, points.len());
        return &points[to - count..to];
    }
    if count == 0 {
        return &[];
    }
    &points[at..at + count]
}

impl Walk {
    /// How many points there are in the run.
    fn run_count(&self) -> usize
        ensures { result ≡ run_length self.now }
    {
        if !self.begun || self.in_open {
            return 0;
        }
        let points = self.leaf.points();
        if self.back {
            count_back(
                points,
                up_to(self.at, points.len()),
                self.window,
                self.filter,
            )
        } else {
            count_on(points, self.at, self.window, self.filter)
        }
    }

    /// The points of the leaf at hand that come next and are all asked for, in rising order: the first of those that are ahead,
    /// or the last where the walk goes back. There may be none: so it is before the walk has begun and in the open leaf, of
    /// which `next` gives the points.
    pub fn run(&self) -> &[Point]
        ensures is { result.now ≡ nearest self.now (run_length self.now) }
        ensures count { length result.now ≡ run_length self.now }
        ensures ahead { (low n : ℕ) (leaves : List Leaf) (written rest : List Point) → IsAhead low n leaves written self.now rest
            → (later : List Point) × Parts self.now.back rest result.now later }
    {
        let count = self.run_count();
        nearest_in(self.leaf.points(), self.at, self.back, count)
    }

    /// Passes the next so many points of the run.
    pub fn pass(&mut self, n: usize)
        requires { n ≤ run_length self.old }
        ensures kept { (self.new.begun ≡ self.old.begun) × (self.new.left ≡ self.old.left) × (self.new.back ≡ self.old.back)
            × (self.new.window ≡ self.old.window) × (self.new.filter ≡ self.old.filter) }
        ensures ahead { (low leaves_made : ℕ) (leaves : List Leaf) (written rest : List Point) → IsAhead low leaves_made leaves written self.old rest
            → (later : List Point) × Parts self.old.back rest (nearest self.old n) later × IsAhead low leaves_made leaves written self.new later }
    {
        if n == 0 {
            return;
        }
        let count = self.leaf.points().len();
        if self.back {
            self.at = up_to(self.at, count) - n;
        } else {
            self.at += n;
        }
    }
}
