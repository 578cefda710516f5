//! The rows of a select by series, after those that are dropped and at most as many as are kept.
ghost use Rattle.std.specs.Prelude.{◌≡◌, ◌↔◌, ℕ, ◌<◌, ◌^◌, false, [], drop, length, IfOk, OnOk, IfErr};
ghost use Rattle.ak_rows.specs.Answers.{paged};
ghost use Rattle.ak_rows.specs.Coming.{IsTaken};
ghost use Rattle.ak_rows.specs.Feeds.{IsFeedStop, Moves};
ghost use Rattle.ak_rows.specs.Pages.{IsDropped, is_none_kept, kept};
ghost use Rattle.ak_rows.specs.Starts.{lists};
ghost use Rattle.ak_rows.specs.Tracks.{select_rows, AreAllApart, AreAllHad, AreAllInOrder, AreAllLater, AreAllReady, HavePassed};

use crate::feed::Feed;
use crate::points::Lane;
use crate::row::Row;
use crate::selects::next_by_series;
use ak_base::Stop;
use std::alloc::Global;

/// How many rows are still to be dropped, and how many may still be kept.
#[derive(Clone, Copy, Debug, PartialEq, Eq, Drop)]
pub struct Page {
    /// So many are dropped first.
    pub skip: u64,
    /// So many are kept at most.
    pub keep: Option<u64>,
}

// Takes so many rows, or all where there are fewer. It answers whether there were so many. The last that was taken is written.
fn drop_rows<F: Feed>(
    tracks: &mut Vec<Vec<Lane>>,
    at: &mut usize,
    skip: &mut u64,
    alloc: Global,
    feed: &mut F,
    back: bool,
    row: &mut Row,
) -> Result<bool, Stop>
    requires few { length (lists tracks.old) < 2 ^ 32 }
    requires ready { AreAllReady (F.count feed.old) (lists tracks.old) }
    requires apart { AreAllApart (lists tracks.old) }
    requires passed { HavePassed at.old (lists tracks.old) }
    ensures later { AreAllLater (lists tracks.old) (lists tracks.new) }
    ensures dropped { AreAllHad (F.can feed.old) (lists tracks.old) → AreAllInOrder back (F.points feed.old) (lists tracks.old)
        → IfOk result (λ all. IsDropped all skip.old skip.new (select_rows back (F.points feed.old) (lists tracks.old)) (select_rows back (F.points feed.new) (lists tracks.new))) }
    ensures order { AreAllHad (F.can feed.old) (lists tracks.old) → AreAllInOrder back (F.points feed.old) (lists tracks.old)
        → OnOk result (AreAllInOrder back (F.points feed.new) (lists tracks.new)) }
    ensures passed { HavePassed at.new (lists tracks.new) }
    ensures can { OnOk result ((s : ℕ) → F.can feed.new s ↔ F.can feed.old s) }
    ensures stop { IfErr result (λ e. IsFeedStop (F.faults feed.old) (F.faults feed.new) (F.damaged feed.old) e) }
    ensures moves { Moves F.asked F.count F.bound F.faults F.damaged feed.old feed.new }
{
    while 0 < *skip {
        if !next_by_series(tracks, at, alloc, feed, back, row)? {
            return Ok(false);
        }
        *skip -= 1;
    }
    Ok(true)
}

impl Page {
    // Whether no row may be kept.
    fn is_full(&self) -> bool
        ensures { result ≡ is_none_kept self.now.keep }
    {
        match self.keep {
            Some(n) => n == 0,
            None => false,
        }
    }

    // One more is kept.
    fn count(&mut self)
        requires { is_none_kept self.old.keep ≡ false }
        ensures keep { self.new.keep ≡ kept self.old.keep }
        ensures skip { self.new.skip ≡ self.old.skip }
    {
        if let Some(n) = self.keep {
            self.keep = Some(n - 1);
        }
    }
}

/// Writes the next row of a select by series, of those that the page leaves. It answers whether there was one.
pub fn fill_by_series<F: Feed>(
    tracks: &mut Vec<Vec<Lane>>,
    at: &mut usize,
    page: &mut Page,
    alloc: Global,
    feed: &mut F,
    back: bool,
    row: &mut Row,
) -> Result<bool, Stop>
    requires few { length (lists tracks.old) < 2 ^ 32 }
    requires ready { AreAllReady (F.count feed.old) (lists tracks.old) }
    requires apart { AreAllApart (lists tracks.old) }
    requires passed { HavePassed at.old (lists tracks.old) }
    ensures later { AreAllLater (lists tracks.old) (lists tracks.new) }
    ensures given { AreAllHad (F.can feed.old) (lists tracks.old) → AreAllInOrder back (F.points feed.old) (lists tracks.old)
        → IfOk result (λ got. IsTaken got row.new (paged page.old.skip page.old.keep (select_rows back (F.points feed.old) (lists tracks.old)))
        (paged page.new.skip page.new.keep (select_rows back (F.points feed.new) (lists tracks.new)))) }
    ensures order { AreAllHad (F.can feed.old) (lists tracks.old) → AreAllInOrder back (F.points feed.old) (lists tracks.old)
        → OnOk result (AreAllInOrder back (F.points feed.new) (lists tracks.new)) }
    ensures passed { HavePassed at.new (lists tracks.new) }
    ensures can { OnOk result ((s : ℕ) → F.can feed.new s ↔ F.can feed.old s) }
    ensures stop { IfErr result (λ e. IsFeedStop (F.faults feed.old) (F.faults feed.new) (F.damaged feed.old) e) }
    ensures moves { Moves F.asked F.count F.bound F.faults F.damaged feed.old feed.new }
{
    if page.is_full() {
        return Ok(false);
    }
    if !drop_rows(tracks, at, &mut page.skip, alloc, feed, back, row)? {
        return Ok(false);
    }
    let got = next_by_series(tracks, at, alloc, feed, back, row)?;
    if got {
        page.count();
    }
    Ok(got)
}
