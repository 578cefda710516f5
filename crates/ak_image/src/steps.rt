//! How the live blocks stay laid out as a record says.
ghost use Rattle.std.specs.Prelude.{◌≡◌, ◌+◌, ◌++◌, ◌∷◌, ◌<◌, ◌≤◌, ◌^◌, ◌-◌, [], ℕ, List, length};
ghost use Rattle.ak_base.specs.Points.{IsHistoryFrom, last_ts_from};
ghost use Rattle.ak_base.specs.declared.limits.Limits.{Limits};
ghost use Rattle.ak_base.specs.declared.point.Point.{Point};
ghost use Rattle.ak_image.specs.Blocks.{Seen};
ghost use Rattle.ak_image.specs.Laid.{IsLaid, IsWritten, IsNextTree, spot, last_in, next_leaf};
ghost use Rattle.ak_levels.specs.Carries.{carry_of};
ghost use Rattle.ak_meta.specs.Contents.{Content, IsMeta};
ghost use Rattle.ak_meta.specs.Leaves.{first_content, with_series, closed_in, leaves_at};
ghost use Rattle.ak_volumes.specs.Ordinals.{Ordinals, newest_fill, filled, switched};
ghost use Rattle.ak_world.specs.Leaves.{Leaf, kept_from};
ghost use Rattle.ak_world.specs.Valid.{kept_with};

/// The first view has no leaf, whatever the blocks hold.
pub fn laid_first()
    ensures { (seen : Seen) (limits : Limits) → IsLaid seen (first_content limits) [] }
{}

/// A series that begins has no leaf.
pub fn laid_with_series()
    ensures { (seen : Seen) (c : Content) (kept : List (List Leaf)) (name : List ℕ) → IsMeta c → IsLaid seen c kept
        → IsLaid seen (with_series c name) (kept ++ [] ∷ []) }
{}

/// An ordinal that begins is empty. Where it takes the place of the oldest, the leaves of that one are live no more.
pub fn laid_with_ordinal()
    ensures { (seen : Seen) (c : Content) (kept : List (List Leaf)) → IsMeta c → IsLaid seen c kept
        → IsLaid seen (record c { ordinals = switched c.ordinals }) (kept_from (switched c.ordinals).lo kept) }
{}

/// A group that is written behind the live blocks and entered is the next leaf of its series.
pub fn laid_with_leaf()
    ensures { (old new : Seen) (c : Content) (kept : List (List Leaf)) (n : ℕ) (ps : List Point) → IsMeta c → IsLaid old c kept
        → n < length c.series → newest_fill c.ordinals + (1 + carry_of (leaves_at c.series n)) ≤ c.ordinals.blocks
        → IsHistoryFrom (last_in c.series n) ps → IsWritten old new c n ps → IsNextTree new c kept n ps
        → IsLaid new (closed_in (record c { ordinals = filled c.ordinals (1 + carry_of (leaves_at c.series n)) }) n (last_ts_from 0 ps) (spot c.ordinals))
        (kept_with kept n (next_leaf c n ps)) }
{}
