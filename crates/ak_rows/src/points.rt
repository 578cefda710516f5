//! The members of a track, by their points.
ghost use Rattle.std.specs.Prelude.{◌≡◌, ◌≢◌, ◌↔◌, ℕ, ◌<◌, map, length, OnOk, IfErr};
ghost use Rattle.std.specs.List.{AllByRecursion};
ghost use Rattle.ak_rows.specs.Ahead.{lane_points, IsReady, IsHad, AreApart, AreLater};
ghost use Rattle.ak_rows.specs.Starts.{lane_of};
ghost use Rattle.ak_rows.specs.Picks.{better_of, better_with, IsBest};
ghost use Rattle.ak_rows.specs.Feeds.{IsFeedStop, Moves};
ghost use Rattle.ak_rows.specs.declared.points.Head.TheVariants.{Unasked, Ended};

use crate::feed::Feed;
use ak_base::{Point, Stop};
use std::alloc::Global;

/// The next point of a member.
#[derive(Clone, Copy, Debug, PartialEq, Eq, Drop)]
pub enum Head {
    /// It has to be asked for.
    Unasked,
    /// There is none.
    Ended,
    /// It is this one.
    At(Point),
}

/// A member of a track.
#[derive(Clone, Copy, Debug, PartialEq, Eq, Drop)]
pub struct Lane {
    /// The number of the series.
    pub series: u32,
    /// Its next point.
    pub head: Head,
}

impl Lane {
    /// A member of which nothing is known; one that is missing has no points.
    pub fn new(series: u32) -> Lane
        ensures { result ≡ lane_of series }
    {
        let head = if series == u32::MAX {
            Head::Ended
        } else {
            Head::Unasked
        };
        Lane { series, head }
    }

    // Asks for the next point where it isn't known.
    fn ask<F: Feed>(&mut self, alloc: Global, feed: &mut F) -> Result<(), Stop>
        requires { IsReady (F.count feed.old) self.old }
        ensures series { self.new.series ≡ self.old.series }
        ensures known { OnOk result (self.new.head ≢ Unasked) }
        ensures same { self.old.head ≢ Unasked → self.new ≡ self.old }
        ensures same_feed { self.old.head ≢ Unasked → feed.new ≡ feed.old }
        ensures ahead { IsHad (F.can feed.old) self.old → OnOk result (lane_points (F.points feed.new) self.new ≡ lane_points (F.points feed.old) self.old) }
        ensures others { (s : ℕ) → s ≢ self.old.series → F.points feed.new s ≡ F.points feed.old s }
        ensures can { OnOk result ((s : ℕ) → F.can feed.new s ↔ F.can feed.old s) }
        ensures stop { IfErr result (λ e. IsFeedStop (F.faults feed.old) (F.faults feed.new) (F.damaged feed.old) e) }
        ensures moves { Moves F.asked F.count F.bound F.faults F.damaged feed.old feed.new }
    {
        if self.head == Head::Unasked {
            self.head = match feed.point(alloc, self.series)? {
                Some(p) => Head::At(p),
                None => Head::Ended,
            };
        }
        Ok(())
    }
}

/// Asks for the next point of each member.
pub fn ask_all<F: Feed>(lanes: &mut [Lane], alloc: Global, feed: &mut F) -> Result<(), Stop>
    requires ready { AllByRecursion (IsReady (F.count feed.old)) lanes.old }
    requires apart { AreApart lanes.old }
    ensures later { AreLater lanes.old lanes.new }
    ensures known { OnOk result (AllByRecursion (λ l. l.head ≢ Unasked) lanes.new) }
    ensures ahead { AllByRecursion (IsHad (F.can feed.old)) lanes.old
        → OnOk result (map (lane_points (F.points feed.new)) lanes.new ≡ map (lane_points (F.points feed.old)) lanes.old) }
    ensures others { (s : ℕ) → AllByRecursion (λ l. l.head ≢ Ended → l.series ≢ s) lanes.old → F.points feed.new s ≡ F.points feed.old s }
    ensures can { OnOk result ((s : ℕ) → F.can feed.new s ↔ F.can feed.old s) }
    ensures stop { IfErr result (λ e. IsFeedStop (F.faults feed.old) (F.faults feed.new) (F.damaged feed.old) e) }
    ensures moves { Moves F.asked F.count F.bound F.faults F.damaged feed.old feed.new }
{
    for i in 0..lanes.len() {
        lanes[i].ask(alloc, feed)?;
    }
    Ok(())
}

/// A member and its next point.
#[derive(Clone, Copy, Debug, PartialEq, Eq, Drop)]
pub struct Best {
    /// The place of the member.
    pub at: usize,
    /// The point.
    pub point: Point,
}

// Of what came next so far and one more member's point, that which comes next.
fn better(best: Option<Best>, at: usize, point: Point, back: bool) -> Option<Best>
    ensures { result ≡ better_of back best at point }
{
    let new = Best { at, point };
    match best {
        None => Some(new),
        Some(b) => {
            if back {
                if b.point.ts <= point.ts {
                    Some(new)
                } else {
                    Some(b)
                }
            } else {
                if point.ts < b.point.ts {
                    Some(new)
                } else {
                    Some(b)
                }
            }
        }
    }
}

// The same where the member may have no point.
fn better_head(best: Option<Best>, at: usize, head: Head, back: bool) -> Option<Best>
    ensures { result ≡ better_with back best at head }
{
    match head {
        Head::At(p) => better(best, at, p, back),
        Head::Ended => best,
        Head::Unasked => best,
    }
}

/// The member whose point comes next: the first with the least time, or for a backward range the last with the greatest.
pub fn next_of(lanes: &[Lane], back: bool) -> Option<Best>
    ensures { IsBest back lanes.now (length lanes.now) result }
{
    let mut best = None;
    for i in 0..lanes.len() {
        best = better_head(best, i, lanes[i].head, back);
    }
    best
}
