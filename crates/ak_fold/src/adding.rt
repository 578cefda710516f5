//! Summaries that are put together.
ghost use Rattle.std.specs.Prelude.{◌≡◌, ℕ, ◌+◌, ◌<◌, ◌≤◌, ◌^◌, ◌-◌, ◌*◌, ◌++◌, ◌∷◌, ◌&&◌, [], List, Some, length, IfSome};
ghost use Rattle.ak_base.specs.declared.point.Point.{Point};
ghost use Rattle.ak_fold.specs.Folded.{IsUpTo, AreUpTo};
ghost use Rattle.ak_base.specs.Selections.{filter_has};
ghost use Rattle.ak_select.specs.Windows.{chosen, summed, combined, is_within};
ghost use Rattle.ak_summary.specs.Summaries.{IsBounded, CanJoin};

use ak_base::{Filter, Point};
use ak_select::Window;
use ak_summary::{Fold, Summary};

/// What a fold asks for: points of a series within a window, under a filter.
#[derive(Clone, Copy)]
pub struct Asked {
    pub series: u32,
    pub window: Window,
    pub filter: Filter,
}

/// One summary more, of later points.
pub fn with(so_far: Option<Summary>, s: Summary) -> Summary
    requires joins { IfSome so_far (λ first. CanJoin first s) }
    requires bounded { IsBounded s }
    ensures is { Some result ≡ combined so_far (Some s) }
    ensures up_to { (n m : ℕ) → AreUpTo n so_far → s.count ≤ m → IsUpTo (n + m) result }
{
    match so_far {
        Some(first) => first.join(s),
        None => s,
    }
}

/// Whether a point is asked for.
fn is_asked(asked: Asked, p: Point) -> bool
    ensures { result ≡ (is_within asked.window p.ts && filter_has asked.filter p.value) }
{
    asked.window.has(p.ts) && asked.filter.has(p.value)
}

/// A point more, where it is asked for.
fn with_point(asked: Asked, p: Point, so_far: Option<Summary>) -> Option<Summary>
    requires { AreUpTo (2 ^ 63 - 2) so_far }
    ensures is { (ps : List Point) → so_far ≡ summed ps → result ≡ summed (ps ++ chosen asked.window asked.filter (p ∷ [])) }
    ensures up_to { (n : ℕ) → AreUpTo n so_far → AreUpTo (n + 1) result }
{
    if is_asked(asked, p) {
        Some(with(so_far, Summary::of(p)))
    } else {
        so_far
    }
}

/// The points of a leaf more.
pub fn with_points(asked: Asked, points: &[Point], so_far: Option<Summary>) -> Option<Summary>
    requires few { AreUpTo (2016 * 2 ^ 52) so_far }
    requires short { length points.now ≤ 2016 }
    ensures is { (ps : List Point) → so_far ≡ summed ps → result ≡ summed (ps ++ chosen asked.window asked.filter points.now) }
    ensures up_to { (n : ℕ) → AreUpTo n so_far → AreUpTo (n + length points.now) result }
{
    let mut all = so_far;
    for p in points {
        all = with_point(asked, *p, all);
    }
    all
}
