//! What the definitions of placing say of themselves.
ghost use Rattle.std.specs.Prelude.{◌≡◌, ℕ, ◌+◌, ◌-◌, ◌^◌, ◌<◌, ◌≤◌, ◌↔◌, ◌⊎◌};
ghost use Rattle.ak_volumes.specs.Ordinals.{Ordinals, newest, newest_fill, AreOrdinals, ordinal_of, index_of, IsLiveOrdinal, IsLive, file_of, filled, switched};

/// No two live ordinals stand in one file.
pub fn files_are_apart()
    ensures { (o : Ordinals) (i j : ℕ) → AreOrdinals o → IsLiveOrdinal o i → IsLiveOrdinal o j → file_of o i ≡ file_of o j → i ≡ j }
{}

/// Entering a group that fits and beginning a new ordinal keep what ordinals are.
pub fn ordinals_stay_lawful()
    ensures filled { (o : Ordinals) (group : ℕ) → AreOrdinals o → newest_fill o + group ≤ o.blocks → AreOrdinals (filled o group) }
    ensures switched { (o : Ordinals) → AreOrdinals o → newest o < 2 ^ 32 - 1 → AreOrdinals (switched o) }
{}

/// A group that is entered makes its own blocks live, and no others.
pub fn live_after_fill()
    ensures old { (o : Ordinals) (group a : ℕ) → AreOrdinals o → IsLive o a → IsLive (filled o group) a }
    ensures own { (o : Ordinals) (group a : ℕ) → AreOrdinals o → ordinal_of a ≡ newest o → newest_fill o ≤ index_of a → index_of a < newest_fill o + group → IsLive (filled o group) a }
    ensures only { (o : Ordinals) (group a : ℕ) → AreOrdinals o → IsLive (filled o group) a → IsLive o a ⊎ ((ordinal_of a ≡ newest o) × (newest_fill o ≤ index_of a) × (index_of a < newest_fill o + group)) }
{}

/// A new ordinal makes no address live, and those below the new `lo` dead.
pub fn live_after_switch()
    ensures { (o : Ordinals) (a : ℕ) → AreOrdinals o → (IsLive (switched o) a ↔ (IsLive o a × ((switched o).lo ≤ ordinal_of a))) }
{}
