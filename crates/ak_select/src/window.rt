//! Windows of time.
ghost use Rattle.std.specs.Prelude.{◌≡◌, ◌^◌, ◌<◌, ◌&&◌, nat_le, ℕ};
ghost use Rattle.ak_base.specs.Selections.{range_has, is_behind as behind_test, is_before as before_test};
ghost use Rattle.ak_select.specs.Windows.{is_within};

use ak_base::Range;

/// The times from one to another, with both. None are where the second is less.
#[derive(Clone, Copy, Debug, PartialEq, Eq, Drop)]
pub struct Window {
    /// The first time of it.
    pub least: u64,
    /// The last time of it.
    pub most: u64,
}

/// The window that has no time.
const NONE: Window = Window { least: 1, most: 0 };

impl Window {
    /// The times of a range, from the least to the greatest.
    pub fn of(range: &Range) -> Window
        ensures { (ts : ℕ) → ts < 2 ^ 64 → is_within result ts ≡ range_has range.now ts }
    {
        if range.back {
            behind(range.to, range.from)
        } else {
            before(range.to, range.from)
        }
    }

    /// Whether a time is in the window.
    pub fn has(&self, ts: u64) -> bool
        ensures { result ≡ is_within self.now ts }
    {
        self.least <= ts && ts <= self.most
    }
}

/// The times behind an end, up to another.
fn behind(to: Option<u64>, from: u64) -> Window
    ensures { (ts : ℕ) → is_within result ts ≡ (behind_test to ts && nat_le ts from) }
{
    match to {
        Some(u64::MAX) => NONE,
        Some(to) => Window {
            least: to + 1,
            most: from,
        },
        None => Window {
            least: 0,
            most: from,
        },
    }
}

/// The times from one on, before an end.
fn before(to: Option<u64>, from: u64) -> Window
    ensures { (ts : ℕ) → ts < 2 ^ 64 → is_within result ts ≡ (nat_le from ts && before_test to ts) }
{
    match to {
        Some(0) => NONE,
        Some(to) => Window {
            least: from,
            most: to - 1,
        },
        None => Window {
            least: from,
            most: u64::MAX,
        },
    }
}
