//! How worlds go on.
ghost use Rattle.std.specs.Prelude.{◌≡◌, ◌≢◌, ◌<◌, ◌≤◌, ◌+◌, [], ℕ, ℤ, List, length, false, IfSome};
ghost use Rattle.ak_base.specs.Points.{IsPoint};
ghost use Rattle.ak_base.specs.declared.point.Point.{Point};
ghost use Rattle.ak_volumes.specs.Ordinals.{newest_fill};
ghost use Rattle.ak_world.specs.Puts.{with_name, after_points};
ghost use Rattle.ak_world.specs.Steps.{accepted, added, closed, entered, flushed, group_of, last_at, switch, written_in};
ghost use Rattle.ak_world.specs.Valid.{IsWorld, Goes};
ghost use Rattle.ak_world.specs.Worlds.{World, after_view};

/// Each step keeps the opening view and those that were taken, and takes others with rising numbers alone.
pub fn views_go()
    ensures view { (w : World) → Goes w (after_view w) }
    ensures switch { (w : World) → Goes w (switch w) }
    ensures close { (w : World) (n : ℕ) → Goes w (closed w n) }
    ensures point { (w : World) (n : ℕ) (p : Point) → Goes w (accepted w n p) }
    ensures points { (w : World) (names : List (List ℕ)) (ts : ℕ) (vs : List ℤ) → Goes w (after_points w names ts vs) }
    ensures flush { (w : World) → Goes w (flushed w) }
    ensures join { (u v w : World) → Goes u v → Goes v w → Goes u w }
{}

/// Each step that doesn't wear the store keeps a world valid.
pub fn worlds_stay_valid()
    ensures view { (w : World) → IsWorld w → IsWorld (after_view w) }
    ensures switch { (w : World) → IsWorld w → (switch w).worn ≡ false → IsWorld (switch w) }
    ensures enter { (w : World) (n : ℕ) → IsWorld w → n < length w.series → written_in w.series n ≢ []
        → newest_fill w.ordinals + group_of w n ≤ w.ordinals.blocks → IsWorld (entered w n (group_of w n)) }
    ensures name { (w : World) (name : List ℕ) → IsWorld w → IsWorld (record w { series = with_name w.series name }) }
    ensures point { (w : World) (n : ℕ) (p : Point) → IsWorld w → n < length w.series → IsPoint p
        → IfSome (last_at w.series n) (λ last. last ≤ p.ts) → IsWorld (added n p w) }
    ensures close { (w : World) (n : ℕ) → IsWorld w → n < length w.series → written_in w.series n ≢ []
        → (closed w n).worn ≡ false → IsWorld (closed w n) }
    ensures accept { (w : World) (n : ℕ) (p : Point) → IsWorld w → n < length w.series → IsPoint p
        → IfSome (last_at w.series n) (λ last. last ≤ p.ts) → (accepted w n p).worn ≡ false → IsWorld (accepted w n p) }
    ensures flush { (w : World) → IsWorld w → (flushed w).worn ≡ false → IsWorld (flushed w) }
{}
