//! The rows of a select, track by track.
ghost use Rattle.std.specs.Prelude.{◌≡◌, ◌≢◌, ◌↔◌, ℕ, ◌<◌, ◌^◌, length, get_or, IfOk, OnOk, IfErr};
ghost use Rattle.std.specs.List.{AllByRecursion};
ghost use Rattle.ak_rows.specs.Ahead.{AreApart, IsReady};
ghost use Rattle.ak_rows.specs.Coming.{IsTaken};
ghost use Rattle.ak_rows.specs.Feeds.{IsFeedStop, Moves};
ghost use Rattle.ak_rows.specs.Starts.{lists};
ghost use Rattle.ak_rows.specs.Tracks.{no_lanes, select_rows, IsTurned, AreAllApart, AreAllHad, AreAllInOrder, AreAllLater, AreAllReady, HavePassed};
ghost use Rattle.ak_rows.specs.declared.points.Head.TheVariants.{Ended};

use crate::feed::Feed;
use crate::points::Lane;
use crate::row::Row;
use crate::selecting::take_select;
use ak_base::Stop;
use std::alloc::Global;

// Takes the next row of one track and writes it. It answers whether there was one.
fn turn<F: Feed>(
    tracks: &mut Vec<Vec<Lane>>,
    at: usize,
    alloc: Global,
    feed: &mut F,
    back: bool,
    row: &mut Row,
) -> Result<bool, Stop>
    requires within { at < length (lists tracks.old) }
    requires few { length (lists tracks.old) < 2 ^ 32 }
    requires ready { AllByRecursion (IsReady (F.count feed.old)) (get_or (lists tracks.old) at no_lanes) }
    requires apart { AreApart (get_or (lists tracks.old) at no_lanes) }
    ensures later { AreAllLater (lists tracks.old) (lists tracks.new) }
    ensures turned { IfOk result (λ got. IsTurned back (F.can feed.old) (F.points feed.old) (F.points feed.new) at got row.new (lists tracks.old) (lists tracks.new)) }
    ensures others { (s : ℕ) → AllByRecursion (λ l. l.head ≢ Ended → l.series ≢ s) (get_or (lists tracks.old) at no_lanes) → F.points feed.new s ≡ F.points feed.old s }
    ensures can { OnOk result ((s : ℕ) → F.can feed.new s ↔ F.can feed.old s) }
    ensures stop { IfErr result (λ e. IsFeedStop (F.faults feed.old) (F.faults feed.new) (F.damaged feed.old) e) }
    ensures moves { Moves F.asked F.count F.bound F.faults F.damaged feed.old feed.new }
{
    take_select(tracks[at].as_mut_slice(), alloc, feed, back, at as u32, row)
}

/// Takes the next row of a select by series and writes it. It answers whether there was one. The tracks before the place have
/// ended, and the place goes on to the track of the row.
pub fn next_by_series<F: Feed>(
    tracks: &mut Vec<Vec<Lane>>,
    at: &mut usize,
    alloc: Global,
    feed: &mut F,
    back: bool,
    row: &mut Row,
) -> Result<bool, Stop>
    requires few { length (lists tracks.old) < 2 ^ 32 }
    requires ready { AreAllReady (F.count feed.old) (lists tracks.old) }
    requires apart { AreAllApart (lists tracks.old) }
    requires passed { HavePassed at.old (lists tracks.old) }
    ensures later { AreAllLater (lists tracks.old) (lists tracks.new) }
    ensures taken { AreAllHad (F.can feed.old) (lists tracks.old) → AreAllInOrder back (F.points feed.old) (lists tracks.old)
        → IfOk result (λ got. IsTaken got row.new (select_rows back (F.points feed.old) (lists tracks.old)) (select_rows back (F.points feed.new) (lists tracks.new))) }
    ensures order { AreAllHad (F.can feed.old) (lists tracks.old) → AreAllInOrder back (F.points feed.old) (lists tracks.old)
        → OnOk result (AreAllInOrder back (F.points feed.new) (lists tracks.new)) }
    ensures passed { HavePassed at.new (lists tracks.new) }
    ensures can { OnOk result ((s : ℕ) → F.can feed.new s ↔ F.can feed.old s) }
    ensures stop { IfErr result (λ e. IsFeedStop (F.faults feed.old) (F.faults feed.new) (F.damaged feed.old) e) }
    ensures moves { Moves F.asked F.count F.bound F.faults F.damaged feed.old feed.new }
{
    while *at < tracks.len() {
        if turn(tracks, *at, alloc, feed, back, row)? {
            return Ok(true);
        }
        *at += 1;
    }
    Ok(false)
}
