//! What a record says of a world, after each step.
ghost use Rattle.std.specs.Prelude.{◌≡◌, ◌≢◌, ◌<◌, ◌++◌, ◌∷◌, [], ℕ, List, length, false, true, bytes_eq};
ghost use Rattle.std.specs.List.{list_any};
ghost use Rattle.ak_base.specs.Points.{IsHistoryFrom, last_ts_from};
ghost use Rattle.ak_base.specs.declared.point.Point.{Point};
ghost use Rattle.ak_meta.specs.Contents.{Content, IsMeta, names_of};
ghost use Rattle.ak_meta.specs.Leaves.{with_series, closed_in, leaves_at};
ghost use Rattle.ak_volumes.specs.Ordinals.{newest, newest_fill, address, filled, switched};
ghost use Rattle.ak_world.specs.Leaves.{Leaf, Series, kept_from};
ghost use Rattle.ak_world.specs.Puts.{with_name};
ghost use Rattle.ak_world.specs.Steps.{added, entered, group_of, leaves_in, written_in};
ghost use Rattle.ak_world.specs.Valid.{IsWorld, AreOpenable, kept_with};
ghost use Rattle.ak_world.specs.Views.{View};
ghost use Rattle.ak_world.specs.Worlds.{World, world_of, content_now, kept_now};

/// A world that is opened with a view holds what the view does.
pub fn content_opened()
    ensures content { (v : View) → IsMeta v.content → AreOpenable v.content.ordinals.lo v.content.series v.kept → content_now (world_of v) ≡ v.content }
    ensures kept { (v : View) → IsMeta v.content → AreOpenable v.content.ordinals.lo v.content.series v.kept → kept_now (world_of v) ≡ v.kept }
    ensures valid { (v : View) → IsMeta v.content → AreOpenable v.content.ordinals.lo v.content.series v.kept → IsWorld (world_of v) }
{}

/// A point of an open leaf changes nothing of it.
pub fn content_with_point()
    ensures content { (w : World) (n : ℕ) (p : Point) → content_now (added n p w) ≡ content_now w }
    ensures kept { (w : World) (n : ℕ) (p : Point) → kept_now (added n p w) ≡ kept_now w }
{}

/// A new name is one series more, without leaves, and a known one changes nothing.
pub fn content_with_name()
    ensures content { (w : World) (name : List ℕ) → IsWorld w → list_any (λ n. bytes_eq name n) (names_of (content_now w).series) ≡ false
        → content_now (record w { series = with_name w.series name }) ≡ with_series (content_now w) name }
    ensures kept { (w : World) (name : List ℕ) → list_any (λ n. bytes_eq name n) (names_of (content_now w).series) ≡ false
        → kept_now (record w { series = with_name w.series name }) ≡ kept_now w ++ [] ∷ [] }
    ensures known { (w : World) (name : List ℕ) → list_any (λ n. bytes_eq name n) (names_of (content_now w).series) ≡ true
        → with_name w.series name ≡ w.series }
{}

/// An ordinal that begins changes the ordinals alone, and the leaves of an oldest one whose place it takes are live no more.
pub fn content_with_ordinal()
    ensures content { (w : World) → content_now (record w { ordinals = switched w.ordinals }) ≡ record (content_now w) { ordinals = switched w.ordinals } }
    ensures kept { (w : World) → kept_now (record w { ordinals = switched w.ordinals }) ≡ kept_from (switched w.ordinals).lo (kept_now w) }
{}

/// A leaf that is closed is one leaf more of its series, whose group stands at the fill of the newest ordinal.
pub fn content_with_leaf()
    ensures content { (w : World) (n : ℕ) → IsWorld w → w.worn ≡ false → n < length w.series → written_in w.series n ≢ []
        → content_now (entered w n (group_of w n)) ≡ closed_in (record (content_now w) { ordinals = filled w.ordinals (group_of w n) }) n
        (last_ts_from 0 (written_in w.series n)) (address (newest w.ordinals) (newest_fill w.ordinals)) }
    ensures kept { (w : World) (n : ℕ) → IsWorld w → w.worn ≡ false → n < length w.series
        → kept_now (entered w n (group_of w n)) ≡ kept_with (kept_now w) n
        (record { number = leaves_in w.series n; address = address (newest w.ordinals) (newest_fill w.ordinals); points = written_in w.series n }) }
    ensures leaves { (w : World) (n : ℕ) → n < length w.series → leaves_at (content_now w).series n ≡ leaves_in w.series n }
{}
