//! The rows of a track that are its points.
ghost use Rattle.std.specs.Prelude.{◌≡◌, ◌≢◌, ◌↔◌, ℕ, ◌≤◌, false, List, [], ◌∷◌, length, take, IfOk, OnOk, IfErr};
ghost use Rattle.std.specs.List.{AllByRecursion};
ghost use Rattle.ak_base.specs.declared.point.Point.{Point};
ghost use Rattle.ak_query.specs.declared.query.Kind.TheVariants.{Select};
ghost use Rattle.ak_rows.specs.Ahead.{AreApart, AreLater, IsHad, IsReady};
ghost use Rattle.ak_rows.specs.Coming.{coming, AreInOrder, IsTaken};
ghost use Rattle.ak_rows.specs.Feeds.{IsFeedStop, Moves};
ghost use Rattle.ak_rows.specs.Orders.{next_time_of};
ghost use Rattle.ak_rows.specs.Tracks.{HaveEnded};
ghost use Rattle.ak_rows.specs.Lines.{IsLine, point_line};
ghost use Rattle.ak_rows.specs.declared.row.Cell.TheVariants.{Units};
ghost use Rattle.ak_rows.specs.declared.points.Head.TheVariants.{Unasked, Ended};

use crate::feed::Feed;
use crate::points::{Head, Lane, ask_all, next_of};
use crate::row::{Cell, Row};
use ak_base::{Point, Stop};
use std::alloc::Global;

// So many units.
fn units(value: i64) -> Cell
    ensures { result ≡ Units value }
{
    Cell::Units(i128::from(value))
}

// Writes the first cell.
fn write_first(cells: &mut [Cell], cell: Cell)
    requires { 1 ≤ length cells.old }
    ensures { take 1 cells.new ≡ cell ∷ [] }
{
    cells[0] = cell;
}

// Writes a row of one cell.
fn write_one(row: &mut Row, track: u32, time: u64, cell: Cell)
    ensures { IsLine row.new (record { track = track; time = time; cells = cell ∷ [] }) }
{
    row.track = track;
    row.time = time;
    row.n = 1;
    write_first(&mut row.cells, cell);
}

// Writes the row of a point.
fn write_point(row: &mut Row, track: u32, p: Point)
    ensures { IsLine row.new (point_line track p) }
{
    write_one(row, track, p.ts, units(p.value));
}

/// The time of the next row of a track. All members have been asked.
pub fn next_time(lanes: &[Lane], back: bool) -> Option<u64>
    requires { AllByRecursion (λ l. l.head ≢ Unasked) lanes.now }
    ensures { (track : ℕ) (points : ℕ → List Point) → AreInOrder back points lanes.now → result ≡ next_time_of (coming Select back track points lanes.now) }
{
    match next_of(lanes, back) {
        Some(best) => Some(best.point.ts),
        None => None,
    }
}

/// Takes the next point of a track, and writes its row. All members have been asked.
pub fn select(lanes: &mut [Lane], back: bool, track: u32, row: &mut Row) -> bool
    requires { AllByRecursion (λ l. l.head ≢ Unasked) lanes.old }
    ensures later { AreLater lanes.old lanes.new }
    ensures taken { (points : ℕ → List Point) → AreInOrder back points lanes.old
        → IsTaken result row.new (coming Select back track points lanes.old) (coming Select back track points lanes.new) }
    ensures order { (points : ℕ → List Point) → AreInOrder back points lanes.old → AreInOrder back points lanes.new }
    ensures ended { result ≡ false → HaveEnded lanes.new }
{
    match next_of(lanes, back) {
        None => false,
        Some(best) => {
            write_point(row, track, best.point);
            lanes[best.at].head = Head::Unasked;
            true
        }
    }
}

/// Asks the members of a track, takes its next row and writes it. It answers whether there was one.
pub fn take_select<F: Feed>(
    lanes: &mut [Lane],
    alloc: Global,
    feed: &mut F,
    back: bool,
    track: u32,
    row: &mut Row,
) -> Result<bool, Stop>
    requires ready { AllByRecursion (IsReady (F.count feed.old)) lanes.old }
    requires apart { AreApart lanes.old }
    ensures later { AreLater lanes.old lanes.new }
    ensures taken { AllByRecursion (IsHad (F.can feed.old)) lanes.old → AreInOrder back (F.points feed.old) lanes.old
        → IfOk result (λ got. IsTaken got row.new (coming Select back track (F.points feed.old) lanes.old) (coming Select back track (F.points feed.new) lanes.new)) }
    ensures order { AllByRecursion (IsHad (F.can feed.old)) lanes.old → AreInOrder back (F.points feed.old) lanes.old
        → OnOk result (AreInOrder back (F.points feed.new) lanes.new) }
    ensures ended { IfOk result (λ got. got ≡ false → HaveEnded lanes.new) }
    ensures others { (s : ℕ) → AllByRecursion (λ l. l.head ≢ Ended → l.series ≢ s) lanes.old → F.points feed.new s ≡ F.points feed.old s }
    ensures can { OnOk result ((s : ℕ) → F.can feed.new s ↔ F.can feed.old s) }
    ensures stop { IfErr result (λ e. IsFeedStop (F.faults feed.old) (F.faults feed.new) (F.damaged feed.old) e) }
    ensures moves { Moves F.asked F.count F.bound F.faults F.damaged feed.old feed.new }
{
    ask_all(lanes, alloc, feed)?;
    Ok(select(lanes, back, track, row))
}
