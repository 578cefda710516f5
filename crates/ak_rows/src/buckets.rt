//! The members of a track, by their buckets.
ghost use Rattle.std.specs.Prelude.{◌≡◌, ◌≢◌, ◌↔◌, ℕ, ◌<◌, map, OnOk, IfErr};
ghost use Rattle.std.specs.List.{AllByRecursion};
ghost use Rattle.ak_rows.specs.Lodes.{IsSeries, IsHad, AreApart, AreLater};
ghost use Rattle.ak_rows.specs.Feeds.{IsFeedStop, Moves};
ghost use Rattle.ak_rows.specs.Starts.{lode_buckets};
ghost use Rattle.ak_rows.specs.declared.buckets.Next.TheVariants.{Unasked, Ended};
ghost use Rattle.ak_rows.specs.Starts.{lode_of};

use crate::feed::Feed;
use ak_base::Stop;
use ak_summary::Summary;
use std::alloc::Global;

/// A start, and the summary of the points of the step that begins there.
#[derive(Clone, Copy, Debug, PartialEq, Eq, Drop)]
pub struct Part {
    /// The start.
    pub start: u64,
    /// The summary.
    pub summary: Summary,
}

/// The next bucket of a member.
#[derive(Clone, Copy, Debug, PartialEq, Eq, Drop)]
pub enum Next {
    /// It has to be asked for.
    Unasked,
    /// There is none.
    Ended,
    /// It is this one.
    At(Part),
}

/// A member of a track.
#[derive(Clone, Copy, Debug, PartialEq, Eq, Drop)]
pub struct Lode {
    /// The number of the series.
    pub series: u32,
    /// Its next bucket.
    pub next: Next,
}

impl Lode {
    /// A member of which nothing is known.
    pub fn new(series: u32) -> Lode
        ensures { result ≡ lode_of series }
    {
        Lode {
            series,
            next: Next::Unasked,
        }
    }

    // Asks for the next bucket where it isn't known.
    fn ask<F: Feed>(&mut self, alloc: Global, feed: &mut F) -> Result<(), Stop>
        requires { IsSeries (F.count feed.old) self.old }
        ensures series { self.new.series ≡ self.old.series }
        ensures known { OnOk result (self.new.next ≢ Unasked) }
        ensures same { self.old.next ≢ Unasked → self.new ≡ self.old }
        ensures same_feed { self.old.next ≢ Unasked → feed.new ≡ feed.old }
        ensures ahead { IsHad (F.can feed.old) self.old
            → OnOk result (lode_buckets (F.buckets feed.new) self.new ≡ lode_buckets (F.buckets feed.old) self.old) }
        ensures others { (s : ℕ) → s ≢ self.old.series → F.buckets feed.new s ≡ F.buckets feed.old s }
        ensures can { OnOk result ((s : ℕ) → F.can feed.new s ↔ F.can feed.old s) }
        ensures stop { IfErr result (λ e. IsFeedStop (F.faults feed.old) (F.faults feed.new) (F.damaged feed.old) e) }
        ensures moves { Moves F.asked F.count F.bound F.faults F.damaged feed.old feed.new }
    {
        if self.next == Next::Unasked {
            self.next = match feed.bucket(alloc, self.series)? {
                Some((start, summary)) => Next::At(Part { start, summary }),
                None => Next::Ended,
            };
        }
        Ok(())
    }
}

/// Asks for the next bucket of each member.
pub fn ask_each<F: Feed>(lodes: &mut [Lode], alloc: Global, feed: &mut F) -> Result<(), Stop>
    requires ready { AllByRecursion (IsSeries (F.count feed.old)) lodes.old }
    requires apart { AreApart lodes.old }
    ensures later { AreLater lodes.old lodes.new }
    ensures known { OnOk result (AllByRecursion (λ l. l.next ≢ Unasked) lodes.new) }
    ensures ahead { AllByRecursion (IsHad (F.can feed.old)) lodes.old
        → OnOk result (map (lode_buckets (F.buckets feed.new)) lodes.new ≡ map (lode_buckets (F.buckets feed.old)) lodes.old) }
    ensures others { (s : ℕ) → AllByRecursion (λ l. l.next ≢ Ended → l.series ≢ s) lodes.old → F.buckets feed.new s ≡ F.buckets feed.old s }
    ensures can { OnOk result ((s : ℕ) → F.can feed.new s ↔ F.can feed.old s) }
    ensures stop { IfErr result (λ e. IsFeedStop (F.faults feed.old) (F.faults feed.new) (F.damaged feed.old) e) }
    ensures moves { Moves F.asked F.count F.bound F.faults F.damaged feed.old feed.new }
{
    for i in 0..lodes.len() {
        lodes[i].ask(alloc, feed)?;
    }
    Ok(())
}
