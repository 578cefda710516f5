//! Bounds of values.
ghost use Rattle.std.specs.Prelude.{◌≡◌, ◌↔◌, IsTrue};
ghost use Rattle.ak_base.specs.Selections.{filter_has, IsOpen, is_over as over_test, is_from as from_test, is_under as under_test, is_to as to_test};

/// The bounds of the values that are asked for, in units. One that isn't there bounds nothing.
#[derive(Clone, Copy, Debug, PartialEq, Eq, Drop)]
pub struct Filter {
    /// Values are greater than it.
    pub gt: Option<i64>,
    /// Values are no less than it.
    pub ge: Option<i64>,
    /// Values are less than it.
    pub lt: Option<i64>,
    /// Values are no greater than it.
    pub le: Option<i64>,
}

impl Filter {
    /// Whether all bounds that are there hold.
    pub fn has(&self, v: i64) -> bool
        ensures { result ≡ filter_has self.now v }
    {
        is_over(self.gt, v) && is_from(self.ge, v) && is_under(self.lt, v) && is_to(self.le, v)
    }

    /// Whether no bound is there.
    pub fn is_open(&self) -> bool
        ensures { IsTrue result ↔ IsOpen self.now }
    {
        self.gt.is_none() && self.ge.is_none() && self.lt.is_none() && self.le.is_none()
    }
}

/// Whether a value is greater than a bound that is there.
fn is_over(bound: Option<i64>, v: i64) -> bool
    ensures { result ≡ over_test bound v }
{
    match bound {
        Some(bound) => bound < v,
        None => true,
    }
}

/// Whether a value is no less than a bound that is there.
fn is_from(bound: Option<i64>, v: i64) -> bool
    ensures { result ≡ from_test bound v }
{
    match bound {
        Some(bound) => bound <= v,
        None => true,
    }
}

/// Whether a value is less than a bound that is there.
fn is_under(bound: Option<i64>, v: i64) -> bool
    ensures { result ≡ under_test bound v }
{
    match bound {
        Some(bound) => v < bound,
        None => true,
    }
}

/// Whether a value is no greater than a bound that is there.
fn is_to(bound: Option<i64>, v: i64) -> bool
    ensures { result ≡ to_test bound v }
{
    match bound {
        Some(bound) => v <= bound,
        None => true,
    }
}
