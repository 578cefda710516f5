//! Laws of the metadata.
ghost use Rattle.std.specs.Prelude.{◌≡◌, ◌+◌, ◌-◌, ◌*◌, ◌<◌, ◌^◌, ◌≤◌, List, ℕ, length, bytes_eq, false};
ghost use Rattle.std.specs.List.{list_any};
ghost use Rattle.ak_base.specs.declared.limits.Limits.{Limits};
ghost use Rattle.ak_base.specs.Ranges.{AreLimits};
ghost use Rattle.ak_levels.specs.Carries.{carry_of};
ghost use Rattle.ak_volumes.specs.Ordinals.{newest, newest_fill, filled, switched};
ghost use Rattle.ak_meta.specs.Contents.{Content, meta_bytes, size_of, IsMeta, IsCanonical, Spells, names_of, leaves_of, room_of};
ghost use Rattle.ak_meta.specs.Leaves.{first_content, with_series, closed_in, leaves_at, IsEntered};

/// Bytes spell one content at most.
pub fn one_content()
    ensures { (bytes : List ℕ) (c d : Content) → Spells bytes c → Spells bytes d → c ≡ d }
{}

/// A content's spelling has the length that its size says.
pub fn spelling_is_as_long()
    ensures { (c : Content) → IsMeta c → length (meta_bytes c) ≡ size_of c }
{}

/// The first content, a new series, a new leaf, a group that is entered and a new ordinal keep the rules, and a group of at
/// least one block makes room for a leaf.
pub fn meta_stays_lawful()
    ensures first { (limits : Limits) → AreLimits limits → IsMeta (first_content limits) }
    ensures series { (c : Content) (name : List ℕ) → IsMeta c → IsCanonical name → list_any (λ n. bytes_eq name n) (names_of c.series) ≡ false → length c.series + 1 < 2 ^ 32 → IsMeta (with_series c name) }
    ensures leaf { (c : Content) (n last a : ℕ) → IsMeta c → n < length c.series → last < 2 ^ 64 → a < 2 ^ 64 → IsEntered c.ordinals a (carry_of (leaves_at c.series n)) → leaves_of c.series < room_of c.ordinals → IsMeta (closed_in c n last a) }
    ensures filled { (c : Content) (group : ℕ) → IsMeta c → newest_fill c.ordinals + group ≤ c.ordinals.blocks → IsMeta (record c { ordinals = filled c.ordinals group }) }
    ensures switched { (c : Content) → IsMeta c → newest c.ordinals < 2 ^ 32 - 1 → IsMeta (record c { ordinals = switched c.ordinals }) }
    ensures room { (c : Content) (group : ℕ) → IsMeta c → 1 ≤ group → newest_fill c.ordinals + group ≤ c.ordinals.blocks → leaves_of c.series < room_of (filled c.ordinals group) }
{}
