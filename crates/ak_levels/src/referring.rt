//! The reference to a leaf.
ghost use Rattle.std.specs.Prelude.{◌≡◌, ◌≢◌, []};
ghost use Rattle.ak_base.specs.Points.{IsHistory};
ghost use Rattle.ak_levels.specs.Closes.{leaf_ref};

use ak_base::{Addr, Point};
use ak_inner::Ref;
use ak_summary::{Summary, value_of};

/// The reference to a leaf at an address, by its points.
pub fn refer(at: Addr, points: &[Point]) -> Ref
    requires some { points.now ≢ [] }
    requires history { IsHistory points.now }
    ensures { result ≡ leaf_ref at.0 points.now }
{
    let summary = value_of::<Summary>(points).unwrap();
    Ref {
        addr: at,
        first_leaf: at,
        summary,
    }
}
