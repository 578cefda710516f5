//! When an entry fits.
ghost use Rattle.std.specs.Prelude.{◌≡◌, ◌+◌, ◌-◌, ◌/◌, ◌^◌, ◌≤◌, ◌++◌, ◌∷◌, ◌<◌, ℕ, suc, List, length, get_or};
ghost use Rattle.ak_base.specs.Points.{IsHistory};
ghost use Rattle.ak_base.specs.declared.point.Point.{Point};
ghost use Rattle.ak_scene.specs.Scenes.{IsFit, IsUnspelled};
ghost use Rattle.ak_forest.specs.Tree.{Reference};
ghost use Rattle.ak_image.specs.Blocks.{Seen};
ghost use Rattle.ak_image.specs.Laid.{AreLaid, kept_in};
ghost use Rattle.ak_image.specs.Named.{IsNamed, IsDamagedNode};
ghost use Rattle.ak_image.specs.Planted.{ArePlanted, waiting_of};
ghost use Rattle.ak_levels.specs.Pending.{Lists, no_lists};
ghost use Rattle.ak_meta.specs.Contents.{Content};
ghost use Rattle.ak_meta.specs.Leaves.{leaves_at};
ghost use Rattle.ak_meta.specs.declared.meta.SeriesMeta.{SeriesMeta};
ghost use Rattle.ak_volumes.specs.Ordinals.{Ordinals};
ghost use Rattle.ak_world.specs.Leaves.{Leaf, points_of};

/// Where blocks are laid out and what waits is planted, the entry of each series fits.
pub fn planted_entries_fit()
    ensures { (o : Ordinals) (seen : Seen) (s n : ℕ) (all : List SeriesMeta) (kept : List (List Leaf)) (bases : List ℕ) (levels : List Lists) (written : List Point) → n < length all
        → AreLaid seen o.lo o.fills s all kept → ArePlanted o seen s all kept bases levels → IsHistory (points_of (kept_in kept n) ++ written)
        → IsFit o seen (s + n) (leaves_at all n) (get_or levels n no_lists) (kept_in kept n) written }
{}

/// Where a record names what waits, it names all to which that leads. So a block that a query finds damaged is that of a node
/// that the record names.
pub fn unspelled_nodes_are_damaged()
    ensures { (o : Ordinals) (seen : Seen) (c : Content) (series count : ℕ) (v : Lists)
        → ((level : ℕ) (front : List Reference) (r : Reference) (behind : List Reference) → level ≤ 10 → waiting_of v level ≡ front ++ r ∷ behind
        → IsNamed seen o c series level (count / 32 ^ level - suc (length behind)) r.child)
        → (file block : ℕ) → IsUnspelled o seen series count v file block → IsDamagedNode seen o c file block }
{}
