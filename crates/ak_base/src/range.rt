//! Ranges of time.
ghost use Rattle.std.specs.Prelude.{◌≡◌};
ghost use Rattle.ak_base.specs.Selections.{range_has, is_behind as behind_test, is_before as before_test};

/// The times that are asked for: forward those from `from` on and before `to`, backward those behind `to` and up to `from`, in
/// nanoseconds. Without `to` the range has no end.
#[derive(Clone, Copy, Debug, PartialEq, Eq, Drop)]
pub struct Range {
    /// Where it begins, which is in it.
    pub from: u64,
    /// Where it ends, which is not in it.
    pub to: Option<u64>,
    /// Whether it goes back in time.
    pub back: bool,
}

impl Range {
    /// Whether a time is in the range.
    pub fn has(&self, ts: u64) -> bool
        ensures { result ≡ range_has self.now ts }
    {
        if self.back {
            is_behind(self.to, ts) && ts <= self.from
        } else {
            self.from <= ts && is_before(self.to, ts)
        }
    }
}

/// Whether a time is behind the end of a backward range.
fn is_behind(to: Option<u64>, ts: u64) -> bool
    ensures { result ≡ behind_test to ts }
{
    match to {
        Some(to) => to < ts,
        None => true,
    }
}

/// Whether a time is before the end of a forward range.
fn is_before(to: Option<u64>, ts: u64) -> bool
    ensures { result ≡ before_test to ts }
{
    match to {
        Some(to) => ts < to,
        None => true,
    }
}
