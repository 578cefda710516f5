//! Laws of records.
ghost use Rattle.std.specs.Prelude.{◌≡◌, ◌+◌, ◌*◌, ◌^◌, ◌<◌, ◌≤◌, ◌++◌, ℕ, List, Option, Some, length};
ghost use Rattle.ak_gate.specs.Slots.{Frame, frame_of, joined};
ghost use Rattle.ak_host.specs.Files.{Files};
ghost use Rattle.ak_meta.specs.Contents.{Content, IsMeta, Spells, size_of};
ghost use Rattle.ak_record.specs.Records.{frame_for, frame_bytes, HasNewest, IsRecord};
ghost use Rattle.ak_record.specs.Stops.{IsNoStore};

/// Two contents with numbers whose frames are equal are the same, and so are the numbers.
pub fn one_record()
    ensures { (m n : ℕ) (c d : Content) → IsMeta c → IsMeta d → frame_for m c ≡ frame_for n d → (m ≡ n) × (c ≡ d) }
{}

/// A body that begins with the bytes of a frame has that frame. Where it is that of a content, which fits its slot, the body is
/// a record.
pub fn frame_reads_back()
    ensures frame { (frame : Frame) (body : List (List ℕ)) (rest : List ℕ) → frame.number < 2 ^ 64 → length frame.payload < 2 ^ 64 → joined body ≡ frame_bytes frame ++ rest → frame_of body ≡ frame }
    ensures is_record { (slot number : ℕ) (content : Content) (body : List (List ℕ)) (rest : List ℕ) → number < 2 ^ 64 → IsMeta content → content.limits.slot ≡ slot
        → 16 + size_of content ≤ 4096 * slot → joined body ≡ frame_bytes (frame_for number content) ++ rest → IsRecord slot body }
{}

/// A disk has one size of a slot and one newest record, and that record spells a content with this size.
pub fn one_newest()
    ensures one { (slot other : ℕ) (frame more : Option Frame) (disk : Files) → HasNewest slot frame disk → HasNewest other more disk → (slot ≡ other) × (frame ≡ more) }
    ensures spells { (slot : ℕ) (frame : Frame) (disk : Files) → HasNewest slot (Some frame) disk → (content : Content) × Spells frame.payload content × (content.limits.slot ≡ slot) }
{}

/// Where there is a newest record, there is a store.
pub fn sound_is_store()
    ensures { (slot : ℕ) (frame : Frame) (disk : Files) → 1 ≤ slot → HasNewest slot (Some frame) disk → ¬ IsNoStore disk }
{}
