//! Accepts points.
ghost use Rattle.std.specs.Prelude.{◌≡◌, ◌≢◌, ◌<◌, ◌≤◌, ◌++◌, ◌∷◌, ◌↔◌, [], ℕ, List, suc, length, get_or, None, Some, slice_set, true, OnOk, IfSome, IsTrue, IsFalse};
ghost use Rattle.ak_host.specs.Moments.{DiskPasses};
ghost use Rattle.ak_leaf.specs.Spelling.{leaf_size};
ghost use Rattle.ak_meta.specs.Contents.{names_of};
ghost use Rattle.ak_pool.specs.Frames.{Used, frames_of, used_frame, leaf_of, moved_first, with_leaf};
ghost use Rattle.ak_pool.specs.declared.pool.Frame.{Frame};
ghost use Rattle.ak_tree.specs.Later.{KeepsOrigins};
ghost use Rattle.ak_meta.specs.Leaves.{leaves_at};
ghost use Rattle.ak_tree.specs.Standing.{Holds, KeepsWorn, IsReady, IsClosedFor, OpensLevel, last_known};
ghost use Rattle.ak_tree.specs.Stops.{HasTreeStops, OnMemory, OnWorn, IsWornBy};
ghost use Rattle.ak_tree.specs.Storing.{LeavesView};
ghost use Rattle.ak_world.specs.Steps.{accepted, added, closed, in_time, made_room, oldest, unless_worn};
ghost use Rattle.ak_world.specs.Worlds.{World};

use crate::forest::Forest;
use ak_base::{Point, Stop};
use ak_host::Disk;
use ak_pool::Frame;
use std::alloc::Global;

impl Forest {
    /// Puts a point behind those of the open leaf of a series in this frame, which becomes the one written last. False where
    /// the leaf has no room for it; then nothing changes.
    fn extend(&mut self, series: u32, frame: Frame, p: Point) -> bool
        requires framed { get_or self.old.frames series None ≡ Some frame }
        requires not_late { IfSome (last_known self.old series) (λ last. last ≤ p.ts) }
        ensures fits { IsTrue result ↔ (leaf_size (leaf_of self.old.pool.used frame.0 ++ p ∷ []) ≤ 4032) }
        ensures put { IsTrue result → self.new ≡ record self.old {
          pool = frames_of self.old.pool.count
              (moved_first (with_leaf self.old.pool.used frame.0 (leaf_of self.old.pool.used frame.0 ++ p ∷ [])) frame.0);
        } }
        ensures full { IsFalse result → self.new ≡ self.old }
    {
        if !self.pool.leaf_mut(frame).push(p) {
            return false;
        }
        self.pool.touch(frame);
        true
    }

    /// Begins the open leaf of a series with a point, as the one written last. False where all frames are used; then nothing
    /// changes.
    fn start(&mut self, series: u32, p: Point) -> bool
        requires known { series < length self.old.meta.series }
        requires none { get_or self.old.frames series None ≡ None }
        ensures room { IsTrue result ↔ (length self.old.pool.used < self.old.pool.count) }
        ensures started { IsTrue result → (frame : Frame) × (self.new ≡ record self.old {
          pool = frames_of self.old.pool.count (used_frame frame.0 series (p ∷ []) ∷ self.old.pool.used);
          frames = slice_set self.old.frames series (Some frame);
        }) }
        ensures full { IsFalse result → self.new ≡ self.old }
    {
        let Some(frame) = self.pool.take(series) else {
            return false;
        };
        let _ = self.pool.leaf_mut(frame).push(p);
        self.frames[series as usize] = Some(frame);
        true
    }

    /// Closes the open leaf that was written least recently.
    fn close_oldest<D: Disk>(&mut self, alloc: Global, disk: &mut D) -> Result<(), Stop>
        requires ready { IsReady D.tells self.old (D.state disk.old) }
        requires some { self.old.pool.used ≢ [] }
        ensures stops { HasTreeStops (D.state disk.old) (D.state disk.new) result }
        ensures memory { OnMemory result ((front : List Used) × (last : Used) × (self.old.pool.used ≡ front ++ last ∷ []) × OpensLevel (leaves_at self.old.meta.series last.series)) }
        ensures kept { OnMemory result ((self.new ≡ self.old) × (disk.new ≡ disk.old)) }
        ensures ready { OnOk result (IsReady D.tells self.new (D.state disk.new)) }
        ensures names { names_of self.new.meta.series ≡ names_of self.old.meta.series }
        ensures limits { self.new.meta.limits ≡ self.old.meta.limits }
        ensures becomes { D.tells → OnOk result (KeepsOrigins (D.state disk.old) (D.state disk.new) self.old.meta self.new.meta) }
        ensures others { (n : ℕ) → get_or self.old.frames n None ≡ None → OnOk result (get_or self.new.frames n None ≡ None) }
        ensures fewer { OnOk result (suc (length self.new.pool.used) ≡ length self.old.pool.used) }
        ensures last { (n : ℕ) → OnOk result (last_known self.new n ≡ last_known self.old n) }
        ensures reads { D.tells → (D.state disk.new).reads ≡ (D.state disk.old).reads }
        ensures worn { D.tells → (w : World) → Holds w self.old (D.state disk.old) → OnWorn result (IsWornBy (closed w (oldest w.recent))) }
        // The steps that came before it stand.
        ensures left { D.tells → (w : World) → Holds w self.old (D.state disk.old) → OnWorn result (λ stop. KeepsWorn (closed w (oldest w.recent)) self.new) }
        ensures after { D.tells → (w : World) → Holds w self.old (D.state disk.old) → OnOk result (Holds (closed w (oldest w.recent)) self.new (D.state disk.new)) }
        ensures passes { D.tells → DiskPasses (λ left. Unit {0}) (D.state disk.old) (D.state disk.new) }
        ensures moments { D.tells → (w : World) → Holds w self.old (D.state disk.old)
            → DiskPasses (LeavesView w (closed w (oldest w.recent))) (D.state disk.old) (D.state disk.new) }
    {
        let Some(frame) = self.pool.oldest() else {
            return Ok(());
        };
        let series = self.pool.series(frame);
        self.close_leaf(alloc, disk, series)
    }

    /// Takes a view where as many leaves were closed since the last as the limits say.
    fn view_in_time<D: Disk>(&mut self, disk: &mut D) -> Result<(), Stop>
        requires ready { IsReady D.tells self.old (D.state disk.old) }
        ensures stops { HasTreeStops (D.state disk.old) (D.state disk.new) result }
        ensures no_memory { OnMemory result ⊥ }
        ensures ready { OnOk result (IsReady D.tells self.new (D.state disk.new)) }
        ensures names { names_of self.new.meta.series ≡ names_of self.old.meta.series }
        ensures limits { self.new.meta.limits ≡ self.old.meta.limits }
        ensures becomes { D.tells → OnOk result (KeepsOrigins (D.state disk.old) (D.state disk.new) self.old.meta self.new.meta) }
        ensures last { (n : ℕ) → OnOk result (last_known self.new n ≡ last_known self.old n) }
        ensures reads { D.tells → (D.state disk.new).reads ≡ (D.state disk.old).reads }
        ensures worn { D.tells → (w : World) → Holds w self.old (D.state disk.old) → OnWorn result (IsWornBy (in_time w)) }
        // The steps that came before it stand.
        ensures left { D.tells → (w : World) → Holds w self.old (D.state disk.old) → OnWorn result (λ stop. KeepsWorn (in_time w) self.new) }
        ensures after { D.tells → (w : World) → Holds w self.old (D.state disk.old) → OnOk result (Holds (in_time w) self.new (D.state disk.new)) }
        ensures passes { D.tells → DiskPasses (λ left. Unit {0}) (D.state disk.old) (D.state disk.new) }
        ensures moments { D.tells → (w : World) → Holds w self.old (D.state disk.old)
            → DiskPasses (LeavesView w (in_time w)) (D.state disk.old) (D.state disk.new) }
    {
        if self.since < u64::from(self.meta.limits().every) {
            return Ok(());
        }
        self.view(disk)
    }

    /// Begins the open leaf of a series with a point. Where all frames are used, the open leaf that was written least recently is
    /// closed first.
    fn begin<D: Disk>(
        &mut self,
        alloc: Global,
        disk: &mut D,
        series: u32,
        p: Point,
    ) -> Result<(), Stop>
        requires ready { IsReady D.tells self.old (D.state disk.old) }
        requires known { series < length self.old.meta.series }
        requires none { get_or self.old.frames series None ≡ None }
        requires not_late { IfSome (last_known self.old series) (λ last. last ≤ p.ts) }
        ensures stops { HasTreeStops (D.state disk.old) (D.state disk.new) result }
        ensures memory { OnMemory result ((n : ℕ) × IsClosedFor self.old series p n × OpensLevel (leaves_at self.old.meta.series n)) }
        ensures kept { OnMemory result ((self.new ≡ self.old) × (disk.new ≡ disk.old)) }
        ensures ready { OnOk result (IsReady D.tells self.new (D.state disk.new)) }
        ensures names { names_of self.new.meta.series ≡ names_of self.old.meta.series }
        ensures limits { self.new.meta.limits ≡ self.old.meta.limits }
        ensures becomes { D.tells → OnOk result (KeepsOrigins (D.state disk.old) (D.state disk.new) self.old.meta self.new.meta) }
        ensures last { (n most : ℕ) → p.ts ≤ most → IfSome (last_known self.old n) (λ last. last ≤ most) → OnOk result (IfSome (last_known self.new n) (λ last. last ≤ most)) }
        ensures reads { D.tells → (D.state disk.new).reads ≡ (D.state disk.old).reads }
        ensures worn { D.tells → (w : World) → Holds w self.old (D.state disk.old) → OnWorn result (IsWornBy (unless_worn (unless_worn w (made_room series)) (added series p))) }
        // The steps that came before it stand.
        ensures left { D.tells → (w : World) → Holds w self.old (D.state disk.old) → OnWorn result (λ stop. KeepsWorn (unless_worn (unless_worn w (made_room series)) (added series p)) self.new) }
        ensures after { D.tells → (w : World) → Holds w self.old (D.state disk.old)
            → OnOk result (Holds (unless_worn (unless_worn w (made_room series)) (added series p)) self.new (D.state disk.new)) }
        ensures passes { D.tells → DiskPasses (λ left. Unit {0}) (D.state disk.old) (D.state disk.new) }
        ensures moments { D.tells → (w : World) → Holds w self.old (D.state disk.old)
            → DiskPasses (LeavesView w (unless_worn (unless_worn w (made_room series)) (added series p))) (D.state disk.old) (D.state disk.new) }
    {
        // There are as many frames as the limits say, and so one at least.
        let _ = &self.pool;
        if self.start(series, p) {
            return Ok(());
        }
        self.close_oldest(alloc, disk)?;
        // As many frames are there as before, of which one is free now.
        let _ = &self.pool;
        let _ = self.start(series, p);
        Ok(())
    }

    /// Accepts a point of a series. A leaf without room for it is closed first, and where a frame is wanted and all are used, the
    /// open leaf that was written least recently. A view is taken where it is due.
    pub fn append<D: Disk>(
        &mut self,
        alloc: Global,
        disk: &mut D,
        series: u32,
        p: Point,
    ) -> Result<(), Stop>
        requires ready { IsReady D.tells self.old (D.state disk.old) }
        requires known { series < length self.old.meta.series }
        requires not_late { IfSome (last_known self.old series) (λ last. last ≤ p.ts) }
        ensures stops { HasTreeStops (D.state disk.old) (D.state disk.new) result }
        // Memory is asked for only where a leaf is closed that opens a level, and before anything is done.
        ensures memory { OnMemory result ((n : ℕ) × IsClosedFor self.old series p n × OpensLevel (leaves_at self.old.meta.series n)) }
        ensures kept { OnMemory result ((self.new ≡ self.old) × (disk.new ≡ disk.old)) }
        ensures ready { OnOk result (IsReady D.tells self.new (D.state disk.new)) }
        ensures names { names_of self.new.meta.series ≡ names_of self.old.meta.series }
        ensures limits { self.new.meta.limits ≡ self.old.meta.limits }
        ensures becomes { D.tells → OnOk result (KeepsOrigins (D.state disk.old) (D.state disk.new) self.old.meta self.new.meta) }
        // No last timestamp comes to be above one that the point isn't above.
        ensures last { (n most : ℕ) → p.ts ≤ most → IfSome (last_known self.old n) (λ last. last ≤ most) → OnOk result (IfSome (last_known self.new n) (λ last. last ≤ most)) }
        ensures reads { D.tells → (D.state disk.new).reads ≡ (D.state disk.old).reads }
        ensures worn { D.tells → (w : World) → Holds w self.old (D.state disk.old) → OnWorn result (IsWornBy (accepted w series p)) }
        // The steps that came before it stand.
        ensures left { D.tells → (w : World) → Holds w self.old (D.state disk.old) → OnWorn result (λ stop. KeepsWorn (accepted w series p) self.new) }
        ensures after { D.tells → (w : World) → Holds w self.old (D.state disk.old) → OnOk result (Holds (accepted w series p) self.new (D.state disk.new)) }
        ensures passes { D.tells → DiskPasses (λ left. Unit {0}) (D.state disk.old) (D.state disk.new) }
        ensures moments { D.tells → (w : World) → Holds w self.old (D.state disk.old)
            → DiskPasses (LeavesView w (accepted w series p)) (D.state disk.old) (D.state disk.new) }
    {
        if let Some(frame) = self.frames[series as usize] {
            if self.extend(series, frame, p) {
                return self.view_in_time(disk);
            }
            self.close_leaf(alloc, disk, series)?;
        }
        // Where a leaf was closed one of the frames is free, and no other leaf is closed.
        let _ = &self.pool;
        self.begin(alloc, disk, series, p)?;
        self.view_in_time(disk)
    }
}
