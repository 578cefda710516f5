//! Walks.
ghost use Rattle.std.specs.Prelude.{◌≡◌, ℕ, suc, ◌+◌, ◌-◌, ◌*◌, ◌^◌, ◌<◌, ◌≤◌, ◌++◌, ◌∷◌, [], List, length, take, drop, get_or, true, false, IfOk, IfErr, OnOk, MatchOption, IsTrue, ◌&&◌, Some, None};
ghost use Rattle.ak_base.specs.declared.point.Point.{Point};
ghost use Rattle.ak_cache.specs.Leaves.{KeepsReach};
ghost use Rattle.ak_scene.specs.Scenes.{IsFit, IsUnspelled};
ghost use Rattle.ak_base.specs.Points.{last_ts_from};
ghost use Rattle.ak_image.specs.Blocks.{seen_in, AreThere};
ghost use Rattle.ak_image.specs.Trees.{points_between};
ghost use Rattle.ak_levels.specs.Entries.{AreLawful};
ghost use Rattle.ak_repair.specs.Reads.{OnlyReads};
ghost use Rattle.ak_scene.specs.Stops.{IsQueryStop};
ghost use Rattle.ak_base.specs.Selections.{filter_has, range_has};
ghost use Rattle.ak_select.specs.Windows.{chosen, is_within};
ghost use Rattle.ak_walk.specs.Walking.{IsAhead, IsPassed, Splits, blank_point, at_hand};
ghost use Rattle.ak_world.specs.Leaves.{Leaf};

use crate::finding::find;
use crate::seeking::seek;
use ak_base::{Filter, Point, Range, Stop};
use ak_cache::Reach;
use ak_host::Disk;
use ak_leaf::LeafBuf;
use ak_levels::Entry;
use ak_select::Window;
use std::alloc::{AllocError, Global};

/// A walk through the selected points of a series, one leaf at a time.
#[derive(Drop)]
pub struct Walk {
    pub window: Window,
    pub filter: Filter,
    pub back: bool,
    /// It has come to its first leaf.
    pub begun: bool,
    /// How many leaves it has still to come to, the open one among them.
    pub left: u64,
    /// The place of the next point of those at hand; one above it where it goes back.
    pub at: usize,
    /// Those at hand are the points of the open leaf.
    pub in_open: bool,
    pub leaf: LeafBuf,
}

/// The points of the open leaf.
fn open_points<'a>(e: &Entry<'a>) -> &'a [Point]
    ensures { (written : List Point) → MatchOption e.now.tail (written ≡ []) (λ tail. tail.now ≡ written) → result.now ≡ written }
{
    match e.tail {
        Some(tail) => tail.points(),
        None => &[],
    }
}

/// A point that was looked for, and the place behind it.
#[derive(Clone, Copy, Drop)]
struct Scanned {
    at: usize,
    point: Option<Point>,
}

/// Whether a point is asked for.
pub fn is_asked(window: Window, filter: Filter, p: Point) -> bool
    ensures { result ≡ (is_within window p.ts && filter_has filter p.value) }
{
    window.has(p.ts) && filter.has(p.value)
}

/// The place of the first point from a place on that is asked for, or one past the last.
fn next_at(points: &[Point], at: usize, window: Window, filter: Filter) -> usize
    ensures none { length points.now ≤ result → chosen window filter (drop at points.now) ≡ [] }
    ensures found { result < length points.now → chosen window filter (drop at points.now)
        ≡ get_or points.now result blank_point ∷ chosen window filter (drop (suc result) points.now) }
{
    let mut i = at;
    while i < points.len() {
        if is_asked(window, filter, points[i]) {
            return i;
        }
        i += 1;
    }
    i
}

/// One above the place of the last point before a place that is asked for, or 0.
fn last_at(points: &[Point], at: usize, window: Window, filter: Filter) -> usize
    ensures most { result ≤ length points.now }
    ensures none { result ≡ 0 → chosen window filter (take at points.now) ≡ [] }
    ensures found { 0 < result → chosen window filter (take at points.now)
        ≡ chosen window filter (take (result - 1) points.now) ++ get_or points.now (result - 1) blank_point ∷ [] }
{
    let mut i = if at < points.len() { at } else { points.len() };
    while i > 0 {
        if is_asked(window, filter, points[i - 1]) {
            return i;
        }
        i -= 1;
    }
    0
}

/// The next point that is asked for, from a place on.
fn scan_on(points: &[Point], at: usize, window: Window, filter: Filter) -> Scanned
    ensures { MatchOption result.point ((chosen window filter (drop at points.now) ≡ []) × (chosen window filter (drop result.at points.now) ≡ []))
        (λ p. chosen window filter (drop at points.now) ≡ p ∷ chosen window filter (drop result.at points.now)) }
{
    let i = next_at(points, at, window, filter);
    if i >= points.len() {
        return Scanned { at: i, point: None };
    }
    Scanned {
        at: i + 1,
        point: Some(points[i]),
    }
}

/// The next point that is asked for, from a place back.
fn scan_back(points: &[Point], at: usize, window: Window, filter: Filter) -> Scanned
    ensures { MatchOption result.point ((chosen window filter (take at points.now) ≡ []) × (chosen window filter (take result.at points.now) ≡ []))
        (λ p. chosen window filter (take at points.now) ≡ chosen window filter (take result.at points.now) ++ p ∷ []) }
{
    let i = last_at(points, at, window, filter);
    if i == 0 {
        return Scanned { at: 0, point: None };
    }
    Scanned {
        at: i - 1,
        point: Some(points[i - 1]),
    }
}

/// The next point that is asked for, in one direction.
fn scan(points: &[Point], at: usize, back: bool, window: Window, filter: Filter) -> Scanned
    ensures on { back ≡ false → MatchOption result.point ((chosen window filter (drop at points.now) ≡ []) × (chosen window filter (drop result.at points.now) ≡ []))
        (λ p. chosen window filter (drop at points.now) ≡ p ∷ chosen window filter (drop result.at points.now)) }
    ensures back { back ≡ true → MatchOption result.point ((chosen window filter (take at points.now) ≡ []) × (chosen window filter (take result.at points.now) ≡ []))
        (λ p. chosen window filter (take at points.now) ≡ chosen window filter (take result.at points.now) ++ p ∷ []) }
{
    if back {
        scan_back(points, at, window, filter)
    } else {
        scan_on(points, at, window, filter)
    }
}

impl Walk {
    /// A walk over a range under a filter. It has come to no leaf yet.
    pub fn new(alloc: Global, range: Range, filter: Filter) -> Result<Walk, AllocError>
        ensures begun { IfOk result (λ w. w.begun ≡ false) }
        ensures window { IfOk result (λ w. (ts : ℕ) → ts < 2 ^ 64 → is_within w.window ts ≡ range_has range ts) }
        ensures filter { IfOk result (λ w. w.filter ≡ filter) }
        ensures back { IfOk result (λ w. w.back ≡ range.back) }
    {
        Ok(Walk {
            window: Window::of(&range),
            filter,
            back: range.back,
            begun: false,
            left: 0,
            at: 0,
            in_open: false,
            leaf: LeafBuf::new(alloc)?,
        })
    }

    /// The next of the points at hand that is asked for, and the place behind it.
    fn look(&self, e: &Entry) -> Scanned
        ensures on { self.now.back ≡ false → (written : List Point) → MatchOption e.now.tail (written ≡ []) (λ tail. tail.now ≡ written)
            → MatchOption result.point ((chosen self.now.window self.now.filter (drop self.now.at (at_hand self.now written)) ≡ []) × (chosen self.now.window self.now.filter (drop result.at (at_hand self.now written)) ≡ []))
            (λ p. chosen self.now.window self.now.filter (drop self.now.at (at_hand self.now written)) ≡ p ∷ chosen self.now.window self.now.filter (drop result.at (at_hand self.now written))) }
        ensures back { self.now.back ≡ true → (written : List Point) → MatchOption e.now.tail (written ≡ []) (λ tail. tail.now ≡ written)
            → MatchOption result.point ((chosen self.now.window self.now.filter (take self.now.at (at_hand self.now written)) ≡ []) × (chosen self.now.window self.now.filter (take result.at (at_hand self.now written)) ≡ []))
            (λ p. chosen self.now.window self.now.filter (take self.now.at (at_hand self.now written)) ≡ chosen self.now.window self.now.filter (take result.at (at_hand self.now written)) ++ p ∷ []) }
    {
        if self.in_open {
            scan(open_points(e), self.at, self.back, self.window, self.filter)
        } else {
            scan(
                self.leaf.points(),
                self.at,
                self.back,
                self.window,
                self.filter,
            )
        }
    }

    /// The next of the points at hand that is asked for.
    fn take(&mut self, e: &Entry) -> Option<Point>
        requires begun { self.old.begun ≡ true }
        ensures kept { (self.new.begun ≡ true) × (self.new.left ≡ self.old.left) × (self.new.back ≡ self.old.back) }
        ensures none { (written : List Point) → MatchOption e.now.tail (written ≡ []) (λ tail. tail.now ≡ written) → result ≡ None → IsPassed self.new written }
        ensures given { (low : ℕ) (leaves : List Leaf) (written rest : List Point) → MatchOption e.now.tail (written ≡ []) (λ tail. tail.now ≡ written)
            → IsAhead low e.now.leaves leaves written self.old rest
            → MatchOption result (IsAhead low e.now.leaves leaves written self.new rest)
            (λ p. (later : List Point) × Splits self.old.back rest p later × IsAhead low e.now.leaves leaves written self.new later) }
    {
        let scanned = self.look(e);
        self.at = scanned.at;
        scanned.point
    }

    /// Comes to the first leaf that may have points of the range.
    fn begin<D: Disk>(&mut self, reach: &mut Reach<D>, e: &Entry) -> Result<(), Stop>
        requires there { AreThere reach.old.volumes.now (D.state reach.old.disk.now) }
        requires lawful { AreLawful e.now.leaves e.now.levels.now }
        requires fresh { self.old.begun ≡ false }
        ensures keeps { KeepsReach reach.old reach.new }
        ensures cache { reach.new.cache.now ≡ reach.old.cache.now }
        ensures reads { OnlyReads D.tells (D.state reach.old.disk.now) (D.state reach.new.disk.now) }
        ensures stops { IfErr result (IsQueryStop
            (λ file block. D.tells → IsUnspelled reach.old.volumes.now (seen_in reach.old.volumes.now.volumes (D.state reach.old.disk.now).files) e.now.series e.now.leaves e.now.levels.now file block)
            (D.state reach.old.disk.now) (D.state reach.new.disk.now)) }
        ensures begun { OnOk result ((self.new.begun ≡ true) × (self.new.left ≤ e.now.leaves + 1)) }
        ensures same { (self.new.back ≡ self.old.back) × (self.new.window ≡ self.old.window) × (self.new.filter ≡ self.old.filter) }
        ensures ahead { D.tells → (leaves : List Leaf) (written rest : List Point)
            → (fit : IsFit reach.old.volumes.now (seen_in reach.old.volumes.now.volumes (D.state reach.old.disk.now).files) e.now.series e.now.leaves e.now.levels.now leaves written)
            → IsAhead (fit.scene.known.leaves - length leaves) e.now.leaves leaves written self.old rest
            → OnOk result (IsAhead (fit.scene.known.leaves - length leaves) e.now.leaves leaves written self.new rest) }
        ensures sound { D.tells → (leaves : List Leaf) (written : List Point)
            → IsFit reach.old.volumes.now (seen_in reach.old.volumes.now.volumes (D.state reach.old.disk.now).files) e.now.series e.now.leaves e.now.levels.now leaves written
            → IfErr result (λ stop. stop ≡ Stop.Disk) }
    {
        self.leaf.clear();
        self.in_open = false;
        self.at = 0;
        self.begun = true;
        if !self.back {
            let first = seek(reach, e, self.window.least)?;
            self.left = left_from(e.leaves, first);
            return Ok(());
        }
        if self.window.most == u64::MAX {
            self.left = e.leaves + 1;
            return Ok(());
        }
        let last = seek(reach, e, self.window.most + 1)?;
        self.left = left_to(e.leaves, last);
        Ok(())
    }
}

/// Reads the closed leaf of a number. False where it is live no more; then there are no points.
fn fetch<D: Disk>(
    leaf: &mut LeafBuf,
    reach: &mut Reach<D>,
    e: &Entry,
    number: u64,
) -> Result<bool, Stop>
    requires there { AreThere reach.old.volumes.now (D.state reach.old.disk.now) }
    requires lawful { AreLawful e.now.leaves e.now.levels.now }
    requires number { number < e.now.leaves }
    ensures keeps { KeepsReach reach.old reach.new }
    ensures cache { reach.new.cache.now ≡ reach.old.cache.now }
    ensures reads { OnlyReads D.tells (D.state reach.old.disk.now) (D.state reach.new.disk.now) }
    ensures stops { IfErr result (IsQueryStop
        (λ file block. D.tells → IsUnspelled reach.old.volumes.now (seen_in reach.old.volumes.now.volumes (D.state reach.old.disk.now).files) e.now.series e.now.leaves e.now.levels.now file block)
        (D.state reach.old.disk.now) (D.state reach.new.disk.now)) }
    ensures dead { D.tells → (leaves : List Leaf) (written : List Point)
        → (fit : IsFit reach.old.volumes.now (seen_in reach.old.volumes.now.volumes (D.state reach.old.disk.now).files) e.now.series e.now.leaves e.now.levels.now leaves written)
        → IfOk result (λ live. live ≡ false → suc number ≤ fit.scene.known.leaves - length leaves) }
    ensures read { D.tells → (leaves : List Leaf) (written : List Point)
        → (fit : IsFit reach.old.volumes.now (seen_in reach.old.volumes.now.volumes (D.state reach.old.disk.now).files) e.now.series e.now.leaves e.now.levels.now leaves written)
        → IfOk result (λ live. live ≡ true → leaf.new ≡ points_between leaves number (suc number)) }
    ensures none { IfOk result (λ live. live ≡ false → leaf.new ≡ []) }
    ensures sound { D.tells → (leaves : List Leaf) (written : List Point)
        → IsFit reach.old.volumes.now (seen_in reach.old.volumes.now.volumes (D.state reach.old.disk.now).files) e.now.series e.now.leaves e.now.levels.now leaves written
        → IfErr result (λ stop. stop ≡ Stop.Disk) }
{
    let found = find(reach, e, 0, number)?;
    let r = match found {
        Some(r) => r,
        None => {
            leaf.clear();
            return Ok(false);
        }
    };
    if !reach.volumes.live(r.addr) {
        leaf.clear();
        return Ok(false);
    }
    reach.leaf(r.addr, e.series, number)?;
    std::mem::swap(leaf, reach.scratch);
    Ok(true)
}

/// The time of the last of these points; 0 where there are none.
fn last_of(points: &[Point]) -> u64
    ensures { result ≡ last_ts_from 0 points.now }
{
    match points.last() {
        Some(point) => point.ts,
        None => 0,
    }
}

/// Whether there is a first point, and it is before a time.
fn is_first_before(points: &[Point], least: u64) -> bool
    ensures { IsTrue result → (0 < length points.now) × ((get_or points.now 0 blank_point).ts < least) }
{
    !points.is_empty() && points[0].ts < least
}

/// Whether no point on the far side of these is within a window.
fn is_past(points: &[Point], back: bool, window: Window) -> bool
    ensures on { IsTrue result → back ≡ false → window.most < last_ts_from 0 points.now }
    ensures back { IsTrue result → back ≡ true → (0 < length points.now) × ((get_or points.now 0 blank_point).ts < window.least) }
{
    if back {
        is_first_before(points, window.least)
    } else {
        window.most < last_of(points)
    }
}

impl Walk {
    /// Goes on to the next leaf. False where none is left that may have points of the range.
    fn load<D: Disk>(&mut self, reach: &mut Reach<D>, e: &Entry) -> Result<bool, Stop>
        requires there { AreThere reach.old.volumes.now (D.state reach.old.disk.now) }
        requires lawful { AreLawful e.now.leaves e.now.levels.now }
        requires begun { self.old.begun ≡ true }
        requires few { self.old.left ≤ e.now.leaves + 1 }
        ensures keeps { KeepsReach reach.old reach.new }
        ensures cache { reach.new.cache.now ≡ reach.old.cache.now }
        ensures reads { OnlyReads D.tells (D.state reach.old.disk.now) (D.state reach.new.disk.now) }
        ensures stops { IfErr result (IsQueryStop
            (λ file block. D.tells → IsUnspelled reach.old.volumes.now (seen_in reach.old.volumes.now.volumes (D.state reach.old.disk.now).files) e.now.series e.now.leaves e.now.levels.now file block)
            (D.state reach.old.disk.now) (D.state reach.new.disk.now)) }
        ensures begun { (self.new.begun ≡ true) × (self.new.left ≤ e.now.leaves + 1) }
        ensures same { (self.new.back ≡ self.old.back) × (self.new.window ≡ self.old.window) × (self.new.filter ≡ self.old.filter) }
        ensures less { IfOk result (λ more. more ≡ true → self.new.left < self.old.left) }
        ensures sound { D.tells → (leaves : List Leaf) (written : List Point)
            → IsFit reach.old.volumes.now (seen_in reach.old.volumes.now.volumes (D.state reach.old.disk.now).files) e.now.series e.now.leaves e.now.levels.now leaves written
            → IfErr result (λ stop. stop ≡ Stop.Disk) }
        ensures ahead { D.tells → (leaves : List Leaf) (written rest : List Point)
            → (fit : IsFit reach.old.volumes.now (seen_in reach.old.volumes.now.volumes (D.state reach.old.disk.now).files) e.now.series e.now.leaves e.now.levels.now leaves written)
            → MatchOption e.now.tail (written ≡ []) (λ tail. tail.now ≡ written) → IsPassed self.old written
            → IsAhead (fit.scene.known.leaves - length leaves) e.now.leaves leaves written self.old rest
            → OnOk result (IsAhead (fit.scene.known.leaves - length leaves) e.now.leaves leaves written self.new rest) }
        ensures ends { D.tells → (leaves : List Leaf) (written rest : List Point)
            → (fit : IsFit reach.old.volumes.now (seen_in reach.old.volumes.now.volumes (D.state reach.old.disk.now).files) e.now.series e.now.leaves e.now.levels.now leaves written)
            → MatchOption e.now.tail (written ≡ []) (λ tail. tail.now ≡ written) → IsPassed self.old written
            → IsAhead (fit.scene.known.leaves - length leaves) e.now.leaves leaves written self.old rest
            → IfOk result (λ more. more ≡ false → rest ≡ []) }
    {
        if self.left == 0 {
            return Ok(false);
        }
        if self.is_past_range(e) {
            self.left = 0;
            return Ok(false);
        }
        self.left -= 1;
        let number = number_at(self.back, self.left, e.leaves);
        if number == e.leaves {
            self.in_open = true;
            self.at = start_at(self.back, open_points(e).len());
            return Ok(true);
        }
        self.in_open = false;
        let live = fetch(&mut self.leaf, reach, e, number)?;
        if !live {
            self.left = 0;
            return Ok(false);
        }
        self.at = start_at(self.back, self.leaf.points().len());
        Ok(true)
    }

    /// Whether the points at hand have left the range.
    fn is_past_range(&self, e: &Entry) -> bool
        ensures on { IsTrue result → self.now.back ≡ false → (written : List Point) → MatchOption e.now.tail (written ≡ []) (λ tail. tail.now ≡ written)
            → self.now.window.most < last_ts_from 0 (at_hand self.now written) }
        ensures back { IsTrue result → self.now.back ≡ true → (written : List Point) → MatchOption e.now.tail (written ≡ []) (λ tail. tail.now ≡ written)
            → (0 < length (at_hand self.now written)) × ((get_or (at_hand self.now written) 0 blank_point).ts < self.now.window.least) }
    {
        if self.in_open {
            is_past(open_points(e), self.back, self.window)
        } else {
            is_past(self.leaf.points(), self.back, self.window)
        }
    }

    /// Begins, where it hasn't.
    fn ready<D: Disk>(&mut self, reach: &mut Reach<D>, e: &Entry) -> Result<(), Stop>
        requires there { AreThere reach.old.volumes.now (D.state reach.old.disk.now) }
        requires lawful { AreLawful e.now.leaves e.now.levels.now }
        requires few { self.old.begun ≡ true → self.old.left ≤ e.now.leaves + 1 }
        ensures keeps { KeepsReach reach.old reach.new }
        ensures cache { reach.new.cache.now ≡ reach.old.cache.now }
        ensures reads { OnlyReads D.tells (D.state reach.old.disk.now) (D.state reach.new.disk.now) }
        ensures stops { IfErr result (IsQueryStop
            (λ file block. D.tells → IsUnspelled reach.old.volumes.now (seen_in reach.old.volumes.now.volumes (D.state reach.old.disk.now).files) e.now.series e.now.leaves e.now.levels.now file block)
            (D.state reach.old.disk.now) (D.state reach.new.disk.now)) }
        ensures begun { OnOk result ((self.new.begun ≡ true) × (self.new.left ≤ e.now.leaves + 1)) }
        ensures same { (self.new.back ≡ self.old.back) × (self.new.window ≡ self.old.window) × (self.new.filter ≡ self.old.filter) }
        ensures ahead { D.tells → (leaves : List Leaf) (written rest : List Point)
            → (fit : IsFit reach.old.volumes.now (seen_in reach.old.volumes.now.volumes (D.state reach.old.disk.now).files) e.now.series e.now.leaves e.now.levels.now leaves written)
            → IsAhead (fit.scene.known.leaves - length leaves) e.now.leaves leaves written self.old rest
            → OnOk result (IsAhead (fit.scene.known.leaves - length leaves) e.now.leaves leaves written self.new rest) }
        ensures sound { D.tells → (leaves : List Leaf) (written : List Point)
            → IsFit reach.old.volumes.now (seen_in reach.old.volumes.now.volumes (D.state reach.old.disk.now).files) e.now.series e.now.leaves e.now.levels.now leaves written
            → IfErr result (λ stop. stop ≡ Stop.Disk) }
    {
        if self.begun {
            return Ok(());
        }
        self.begin(reach, e)
    }

    /// The next point of a walk that has begun.
    fn go_on<D: Disk>(&mut self, reach: &mut Reach<D>, e: &Entry) -> Result<Option<Point>, Stop>
        requires there { AreThere reach.old.volumes.now (D.state reach.old.disk.now) }
        requires lawful { AreLawful e.now.leaves e.now.levels.now }
        requires begun { self.old.begun ≡ true }
        requires few { self.old.left ≤ e.now.leaves + 1 }
        ensures keeps { KeepsReach reach.old reach.new }
        ensures cache { reach.new.cache.now ≡ reach.old.cache.now }
        ensures reads { OnlyReads D.tells (D.state reach.old.disk.now) (D.state reach.new.disk.now) }
        ensures stops { IfErr result (IsQueryStop
            (λ file block. D.tells → IsUnspelled reach.old.volumes.now (seen_in reach.old.volumes.now.volumes (D.state reach.old.disk.now).files) e.now.series e.now.leaves e.now.levels.now file block)
            (D.state reach.old.disk.now) (D.state reach.new.disk.now)) }
        ensures begun { (self.new.begun ≡ true) × (self.new.left ≤ e.now.leaves + 1) }
        ensures same { self.new.back ≡ self.old.back }
        ensures sound { D.tells → (leaves : List Leaf) (written : List Point)
            → IsFit reach.old.volumes.now (seen_in reach.old.volumes.now.volumes (D.state reach.old.disk.now).files) e.now.series e.now.leaves e.now.levels.now leaves written
            → IfErr result (λ stop. stop ≡ Stop.Disk) }
        ensures given { D.tells → (leaves : List Leaf) (written rest : List Point)
            → (fit : IsFit reach.old.volumes.now (seen_in reach.old.volumes.now.volumes (D.state reach.old.disk.now).files) e.now.series e.now.leaves e.now.levels.now leaves written)
            → MatchOption e.now.tail (written ≡ []) (λ tail. tail.now ≡ written)
            → IsAhead (fit.scene.known.leaves - length leaves) e.now.leaves leaves written self.old rest
            → IfOk result (λ point. MatchOption point ((rest ≡ []) × IsAhead (fit.scene.known.leaves - length leaves) e.now.leaves leaves written self.new rest)
            (λ p. (later : List Point) × Splits self.old.back rest p later × IsAhead (fit.scene.known.leaves - length leaves) e.now.leaves leaves written self.new later)) }
    {
        loop {
            let found = self.take(e);
            if found.is_some() {
                return Ok(found);
            }
            let more = self.load(reach, e)?;
            if !more {
                return Ok(None);
            }
        }
    }

    /// The next point of the walk: the first of those that are ahead, or the last where it goes back. None exactly where none is
    /// ahead. `Disk` where a read failed, and `Damaged` with the file and the block where a live block doesn't spell the node
    /// that is named to stand there; then the walk is given up.
    pub fn next<D: Disk>(&mut self, reach: &mut Reach<D>, e: &Entry) -> Result<Option<Point>, Stop>
        requires there { AreThere reach.old.volumes.now (D.state reach.old.disk.now) }
        requires lawful { AreLawful e.now.leaves e.now.levels.now }
        requires few { self.old.begun ≡ true → self.old.left ≤ e.now.leaves + 1 }
        ensures keeps { KeepsReach reach.old reach.new }
        ensures cache { reach.new.cache.now ≡ reach.old.cache.now }
        ensures reads { OnlyReads D.tells (D.state reach.old.disk.now) (D.state reach.new.disk.now) }
        ensures stops { IfErr result (IsQueryStop
            (λ file block. D.tells → IsUnspelled reach.old.volumes.now (seen_in reach.old.volumes.now.volumes (D.state reach.old.disk.now).files) e.now.series e.now.leaves e.now.levels.now file block)
            (D.state reach.old.disk.now) (D.state reach.new.disk.now)) }
        ensures few { OnOk result (self.new.left ≤ e.now.leaves + 1) }
        ensures sound { D.tells → (leaves : List Leaf) (written : List Point)
            → IsFit reach.old.volumes.now (seen_in reach.old.volumes.now.volumes (D.state reach.old.disk.now).files) e.now.series e.now.leaves e.now.levels.now leaves written
            → IfErr result (λ stop. stop ≡ Stop.Disk) }
        ensures given { D.tells → (leaves : List Leaf) (written rest : List Point)
            → (fit : IsFit reach.old.volumes.now (seen_in reach.old.volumes.now.volumes (D.state reach.old.disk.now).files) e.now.series e.now.leaves e.now.levels.now leaves written)
            → MatchOption e.now.tail (written ≡ []) (λ tail. tail.now ≡ written)
            → IsAhead (fit.scene.known.leaves - length leaves) e.now.leaves leaves written self.old rest
            → IfOk result (λ point. MatchOption point ((rest ≡ []) × IsAhead (fit.scene.known.leaves - length leaves) e.now.leaves leaves written self.new rest)
            (λ p. (later : List Point) × Splits self.old.back rest p later × IsAhead (fit.scene.known.leaves - length leaves) e.now.leaves leaves written self.new later)) }
    {
        self.ready(reach, e)?;
        self.go_on(reach, e)
    }
}

/// The number of the leaf behind which so many are left in one direction.
fn number_at(back: bool, left: u64, leaves: u64) -> u64
    requires { left ≤ leaves }
    ensures on { back ≡ false → result ≡ leaves - left }
    ensures back { back ≡ true → result ≡ left }
    ensures most { result ≤ leaves }
{
    if back { left } else { leaves - left }
}

/// Where a walk begins in so many points.
fn start_at(back: bool, count: usize) -> usize
    ensures on { back ≡ false → result ≡ 0 }
    ensures back { back ≡ true → result ≡ count }
{
    if back { count } else { 0 }
}

/// How many leaves there are from one on, with the open one.
fn left_from(leaves: u64, first: u64) -> u64
    requires { leaves ≤ 2 ^ 52 }
    ensures is { first ≤ leaves → result ≡ leaves + 1 - first }
    ensures most { result ≤ leaves + 1 }
{
    if first < leaves {
        leaves + 1 - first
    } else {
        1
    }
}

/// How many leaves there are up to one, with the open one.
fn left_to(leaves: u64, last: u64) -> u64
    requires { leaves ≤ 2 ^ 52 }
    ensures is { last ≤ leaves → result ≡ last + 1 }
    ensures most { result ≤ leaves + 1 }
{
    if last < leaves { last + 1 } else { leaves + 1 }
}
