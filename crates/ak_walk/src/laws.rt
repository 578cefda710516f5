//! What a walk has ahead when it is made.
ghost use Rattle.std.specs.Prelude.{◌≡◌, ◌++◌, ◌<◌, ◌^◌, ℕ, List, false};
ghost use Rattle.std.specs.List.{AllByRecursion};
ghost use Rattle.ak_base.specs.declared.point.Point.{Point};
ghost use Rattle.ak_scene.specs.Scenes.{IsFit};
ghost use Rattle.ak_image.specs.Blocks.{Seen};
ghost use Rattle.ak_levels.specs.Pending.{Lists};
ghost use Rattle.ak_base.specs.Selections.{selected, range_has};
ghost use Rattle.ak_select.specs.Windows.{is_within};
ghost use Rattle.ak_base.specs.declared.range.Range.{Range};
ghost use Rattle.ak_volumes.specs.Ordinals.{Ordinals};
ghost use Rattle.ak_walk.specs.Walking.{IsAhead};
ghost use Rattle.ak_walk.specs.declared.walking.Walk.{Walk};
ghost use Rattle.ak_world.specs.Leaves.{Leaf, points_of};

/// A walk that is made has all that is selected ahead, whatever entry fits.
pub fn new_walks_have_all()
    ensures { (o : Ordinals) (seen : Seen) (series n : ℕ) (v : Lists) (leaves : List Leaf) (written : List Point) (fit : IsFit o seen series n v leaves written) (low : ℕ) (r : Range) (w : Walk)
        → w.begun ≡ false → ((ts : ℕ) → ts < 2 ^ 64 → is_within w.window ts ≡ range_has r ts) → AllByRecursion (λ p. p.ts < 2 ^ 64) written
        → IsAhead low n leaves written w (selected r w.filter (points_of leaves ++ written)) }
{}
