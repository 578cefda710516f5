//! What the definitions of the list of frames say of themselves.
ghost use Rattle.std.specs.Prelude.{◌≡◌, ◌≢◌, ℕ, ◌↔◌, List};
ghost use Rattle.ak_base.specs.declared.point.Point.{Point};
ghost use Rattle.ak_pool.specs.Frames.{Used, IsUsed, series_of, leaf_of, without, with_leaf, moved_first};

/// A frame that is freed leaves the others their series and leaves.
pub fn given_leaves_others()
    ensures used { (us : List Used) (f g : ℕ) → (IsUsed (without us f) g ↔ (IsUsed us g × (g ≢ f))) }
    ensures series { (us : List Used) (f g : ℕ) → g ≢ f → series_of (without us f) g ≡ series_of us g }
    ensures leaf { (us : List Used) (f g : ℕ) → g ≢ f → leaf_of (without us f) g ≡ leaf_of us g }
{}

/// A frame that is moved first leaves each its series and leaf.
pub fn moved_leaves_all()
    ensures used { (us : List Used) (f g : ℕ) → IsUsed us f → (IsUsed (moved_first us f) g ↔ IsUsed us g) }
    ensures series { (us : List Used) (f g : ℕ) → series_of (moved_first us f) g ≡ series_of us g }
    ensures leaf { (us : List Used) (f g : ℕ) → leaf_of (moved_first us f) g ≡ leaf_of us g }
{}

/// A leaf that is written is that of its frame, and leaves the others theirs.
pub fn written_leaves_others()
    ensures used { (us : List Used) (f g : ℕ) (points : List Point) → (IsUsed (with_leaf us f points) g ↔ IsUsed us g) }
    ensures series { (us : List Used) (f g : ℕ) (points : List Point) → series_of (with_leaf us f points) g ≡ series_of us g }
    ensures others { (us : List Used) (f g : ℕ) (points : List Point) → g ≢ f → leaf_of (with_leaf us f points) g ≡ leaf_of us g }
    ensures own { (us : List Used) (f : ℕ) (points : List Point) → IsUsed us f → leaf_of (with_leaf us f points) f ≡ points }
{}
