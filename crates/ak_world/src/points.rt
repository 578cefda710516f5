//! What steps make of the points that were accepted.
ghost use Rattle.std.specs.Prelude.{◌≡◌, ◌++◌, ◌∷◌, [], ℕ, ℤ, List, false, true, bytes_eq};
ghost use Rattle.std.specs.List.{list_any};
ghost use Rattle.ak_base.specs.declared.point.Point.{Point};
ghost use Rattle.ak_meta.specs.Contents.{names_of};
ghost use Rattle.ak_meta.specs.declared.meta.SeriesMeta.{SeriesMeta};
ghost use Rattle.ak_world.specs.Accepted.{accepted_now, accepted_of, accepted_with, given_to, series_points, Gains};
ghost use Rattle.ak_world.specs.Leaves.{Leaf, accepted_points, new_series, points_of};
ghost use Rattle.ak_world.specs.Puts.{after_points, with_name};
ghost use Rattle.ak_world.specs.Steps.{accepted, closed, flushed, made_fit, made_room, switch, unless_worn};
ghost use Rattle.ak_world.specs.Worlds.{World, after_view, content_now, series_of};

/// Views, switches, closed leaves and flushes leave the points that were accepted of each series, and a new name is a series
/// more, of which none was.
pub fn points_stay()
    ensures view { (w : World) → accepted_now (after_view w) ≡ accepted_now w }
    ensures switch { (w : World) → accepted_now (switch w) ≡ accepted_now w }
    ensures close { (w : World) (n : ℕ) → accepted_now (closed w n) ≡ accepted_now w }
    ensures flush { (w : World) → accepted_now (flushed w) ≡ accepted_now w }
    ensures name { (w : World) (name : List ℕ) → list_any (λ n. bytes_eq name n) (names_of (content_now w).series) ≡ false
        → accepted_now (record w { series = with_name w.series name }) ≡ accepted_now w ++ series_points (new_series name) ∷ [] }
    ensures none { (name : List ℕ) → accepted_points (new_series name) ≡ [] }
    ensures opened { (known : SeriesMeta) (kept : List Leaf) → accepted_points (series_of known kept) ≡ points_of kept }
{}

/// A point that is accepted comes behind those of its series, and leaves those of the others. Where the store gets worn before
/// there is room for it, none comes.
pub fn points_come()
    ensures accept { (w : World) (n : ℕ) (p : Point) → (accepted w n p).worn ≡ false → accepted_now (accepted w n p) ≡ accepted_with (accepted_now w) n p }
    ensures room { (w : World) (n : ℕ) (p : Point) → (unless_worn (unless_worn w (made_fit n p)) (made_room n)).worn ≡ false
        → accepted_now (accepted w n p) ≡ accepted_with (accepted_now w) n p }
    ensures worn { (w : World) (n : ℕ) (p : Point) → (unless_worn (unless_worn w (made_fit n p)) (made_room n)).worn ≡ true
        → accepted_now (accepted w n p) ≡ accepted_now w }
    ensures put { (w : World) (names : List (List ℕ)) (ts : ℕ) (vs : List ℤ) (name : List ℕ)
        → Gains (after_points w names ts vs).worn (given_to w name names ts vs) (accepted_of w name) (accepted_of (after_points w names ts vs) name) }
{}
