//! Values of lists of points that can be put together.
ghost use Rattle.std.specs.Prelude.{◌≡◌, ◌+◌, ◌^◌, ◌<◌, ◌↔◌, List, [], ◌∷◌, ◌++◌, length, IsNone, IfSome};
ghost use Rattle.ak_base.specs.declared.point.Point.{Point};
ghost use Rattle.ak_base.specs.Points.{IsHistory};

use ak_base::Point;

/// A value of a list of points, which the values of its parts give.
pub trait Fold: Copy {
    ghost is_value: { List Point → Self → Type 0 };

    ghost can_join: { Self → Self → Type 0 };

    /// The value of one point.
    fn of(p: Point) -> Self
        ensures { is_value (p ∷ []) result };

    /// The value of the first points followed by the later ones.
    fn join(self, later: Self) -> Self
        requires { can_join self later }
        ensures { (ps qs : List Point) → IsHistory (ps ++ qs) → is_value ps self → is_value qs later → is_value (ps ++ qs) result };

    /// A list has one value, so `join` is associative.
    ghost one_value: { (ps : List Point) (a b : Self) → is_value ps a → is_value ps b → a ≡ b };

    /// The values of two lists that aren't too long can be joined.
    ghost short_lists_join: { (ps qs : List Point) (a b : Self) → is_value ps a → is_value qs b → length ps + length qs < 2 ^ 63 → can_join a b };
}

/// The value of a history, or none where there are no points.
pub fn value_of<F: Fold>(points: &[Point]) -> Option<F>
    requires { IsHistory points.now }
    ensures some { IfSome result (λ value. F.is_value points.now value) }
    ensures none { IsNone result ↔ (points.now ≡ []) }
{
    if points.is_empty() {
        return None;
    }
    let mut value = F::of(points[0]);
    for p in &points[1..] {
        value = value.join(F::of(*p));
    }
    Some(value)
}
