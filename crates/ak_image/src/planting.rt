//! How the blocks of a series and what waits of it in memory stay together.
ghost use Rattle.std.specs.Prelude.{◌≡◌, ◌+◌, ◌++◌, ◌∷◌, ◌<◌, ◌≤◌, ◌^◌, [], ℕ, suc, List, length};
ghost use Rattle.ak_base.specs.Points.{IsHistoryFrom};
ghost use Rattle.ak_base.specs.declared.point.Point.{Point};
ghost use Rattle.ak_image.specs.Blocks.{Seen};
ghost use Rattle.ak_image.specs.Chains.{IsChain};
ghost use Rattle.ak_image.specs.Laid.{IsLaid, IsWritten, spot, last_in, kept_in, series_in, next_leaf, next_known};
ghost use Rattle.ak_image.specs.Planted.{IsPlanted, ArePlanted, AreNodes};
ghost use Rattle.ak_image.specs.Trees.{IsTreeOf};
ghost use Rattle.ak_levels.specs.Carries.{carry_of};
ghost use Rattle.ak_levels.specs.Closes.{leaf_ref, closed_lists};
ghost use Rattle.ak_levels.specs.Pending.{Lists, no_lists, pending_at};
ghost use Rattle.ak_meta.specs.Contents.{Content, IsMeta};
ghost use Rattle.ak_meta.specs.Leaves.{new_series, leaves_at};
ghost use Rattle.ak_meta.specs.declared.meta.SeriesMeta.{SeriesMeta};
ghost use Rattle.ak_volumes.specs.Ordinals.{Ordinals, IsLive, newest_fill, filled, switched};
ghost use Rattle.ak_world.specs.Leaves.{Leaf, kept_from};
ghost use Rattle.ak_world.specs.Views.{last_time};

/// A series that begins has no tree, and nothing waits of it.
pub fn planted_first()
    ensures { (o : Ordinals) (seen : Seen) (n : ℕ) (name : List ℕ) → IsPlanted o seen n (new_series name) [] 0 no_lists }
{}

/// Where the live addresses stay live and their blocks the same, what is planted stays so.
pub fn planted_agrees()
    ensures { (o other : Ordinals) (seen later : Seen) (n base : ℕ) (known : SeriesMeta) (leaves : List Leaf) (v : Lists)
        → other.lo ≡ o.lo → ((a : ℕ) → IsLive o a → IsLive other a × (later a ≡ seen a))
        → IsPlanted o seen n known leaves base v → IsPlanted other later n known leaves base v }
{}

/// An ordinal that begins, maybe in the place of the oldest, keeps what waits of each series planted.
pub fn planted_with_ordinal()
    ensures { (seen : Seen) (c : Content) (kept : List (List Leaf)) (bases : List ℕ) (levels : List Lists) → IsMeta c → IsLaid seen c kept
        → ArePlanted c.ordinals seen 0 c.series kept bases levels
        → ArePlanted (switched c.ordinals) seen 0 c.series (kept_from (switched c.ordinals).lo kept) bases levels }
{}

/// A group that is written behind the live blocks and entered: its leaf is the next of its series, and its nodes take what waited.
pub fn planted_with_leaf()
    ensures { (old new : Seen) (c : Content) (kept : List (List Leaf)) (n base : ℕ) (ps : List Point) (v : Lists)
        → IsMeta c → IsLaid old c kept → n < length c.series
        → newest_fill c.ordinals + (1 + carry_of (leaves_at c.series n)) ≤ c.ordinals.blocks
        → IsHistoryFrom (last_in c.series n) ps → IsWritten old new c n ps → AreNodes new c n ps v → length v.pending ≡ 11
        → IsPlanted c.ordinals old n (series_in c.series n) (kept_in kept n) base v
        → IsPlanted (filled c.ordinals (1 + carry_of (leaves_at c.series n))) new n (next_known c n ps)
        (kept_in kept n ++ next_leaf c n ps ∷ []) base (closed_lists v (leaves_at c.series n) (leaf_ref (spot c.ordinals) ps)) }
{}
