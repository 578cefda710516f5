//! Laws of images.
ghost use Rattle.std.specs.Prelude.{◌≡◌, ◌↔◌, ℕ, List, Some};
ghost use Rattle.ak_forest.specs.Tree.{Node};
ghost use Rattle.ak_host.specs.Files.{Files};
ghost use Rattle.ak_image.specs.Blocks.{Seen, seen_in, HasVolumes};
ghost use Rattle.ak_image.specs.Images.{AreAlike, IsSound, StandsFor};
ghost use Rattle.ak_image.specs.Laid.{IsLaid};
ghost use Rattle.ak_image.specs.Named.{IsDamagedNode};
ghost use Rattle.ak_image.specs.Nodes.{IsInnerOf, IsNodeAt};
ghost use Rattle.ak_meta.specs.Contents.{Content, IsMeta};
ghost use Rattle.ak_record.specs.Records.{frame_for, HasNewest};
ghost use Rattle.ak_volumes.specs.Ordinals.{IsLive};
ghost use Rattle.ak_world.specs.Leaves.{Leaf};
ghost use Rattle.ak_world.specs.Views.{View};

/// Images with the same file 0, the same sizes of files and the same live blocks are both sound or both not, and stand for
/// the same views.
pub fn images_agree()
    ensures sound { (disk other : Files) → AreAlike disk other → IsSound disk ↔ IsSound other }
    ensures stands { (disk other : Files) (view : View) → AreAlike disk other → StandsFor view disk ↔ StandsFor view other }
{}

/// The same of the live blocks alone.
pub fn laid_agrees()
    ensures { (seen other : Seen) (c : Content) (kept : List (List Leaf)) → IsMeta c → IsLaid seen c kept
        → ((a : ℕ) → IsLive c.ordinals a → other a ≡ seen a) → IsLaid other c kept }
{}

/// A block spells one node at most. Blocks that spell one inner node are the same.
pub fn one_node()
    ensures node { (seen : Seen) (a : ℕ) (x y : Node) → IsNodeAt seen a x → IsNodeAt seen a y
        → (x.level ≡ y.level) × (x.series ≡ y.series) × (x.number ≡ y.number) × (x.elder ≡ y.elder) × (x.references ≡ y.references)
        × (x.level ≡ 0 → x.value ≡ y.value) }
    ensures block { (seen other : Seen) (a : ℕ) (node : Node) → IsInnerOf seen a node → IsInnerOf other a node → seen a ≡ other a }
{}

/// Where the live blocks are laid out as a record says, no node that it names is damaged.
pub fn none_damaged()
    ensures { (seen : Seen) (c : Content) (kept : List (List Leaf)) → IsLaid seen c kept
        → (file block : ℕ) → IsDamagedNode seen c.ordinals c file block → ⊥ }
{}

/// An image stands for one view at most.
pub fn one_view()
    ensures { (disk : Files) (v w : View) → StandsFor v disk → StandsFor w disk → v ≡ w }
{}

/// An image whose newest record is that of a view and whose live blocks are laid out as it says is sound and stands for it.
pub fn laid_images()
    ensures { (disk : Files) (view : View) → IsMeta view.content
        → HasNewest view.content.limits.slot (Some (frame_for view.number view.content)) disk
        → HasVolumes view.content.limits.volumes view.content.limits.blocks disk
        → IsLaid (seen_in view.content.limits.volumes disk) view.content view.kept
        → IsSound disk × StandsFor view disk }
{}

/// A sound image stands for a view, as which its live blocks are laid out.
pub fn sound_images()
    ensures view { (disk : Files) → IsSound disk → (view : View) × StandsFor view disk }
    ensures laid { (disk : Files) (view : View) → IsSound disk → StandsFor view disk
        → HasVolumes view.content.limits.volumes view.content.limits.blocks disk
        × IsLaid (seen_in view.content.limits.volumes disk) view.content view.kept }
{}
