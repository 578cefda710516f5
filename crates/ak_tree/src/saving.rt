//! Takes views, and begins ordinals.
ghost use Rattle.std.specs.Prelude.{◌≡◌, ◌+◌, ◌-◌, ◌<◌, ◌≤◌, ◌^◌, ℕ, List, true, OnOk};
ghost use Rattle.ak_gate.specs.Fits.{SameElsewhere};
ghost use Rattle.ak_host.specs.Moments.{DiskPasses};
ghost use Rattle.ak_levels.specs.Pending.{Lists};
ghost use Rattle.ak_meta.specs.Contents.{names_of};
ghost use Rattle.ak_tree.specs.Later.{KeepsOrigins};
ghost use Rattle.ak_tree.specs.Standing.{Holds, KeepsWorn, IsReady};
ghost use Rattle.ak_tree.specs.Stops.{HasTreeStops, OnMemory, OnWorn, IsWornBy};
ghost use Rattle.ak_tree.specs.Storing.{IsStored, LeavesView, LeavesSaved};
ghost use Rattle.ak_volumes.specs.Ordinals.{newest, newest_fill, file_of, switched};
ghost use Rattle.ak_world.specs.Leaves.{Leaf};
ghost use Rattle.ak_world.specs.Steps.{switch};
ghost use Rattle.ak_world.specs.Views.{View};
ghost use Rattle.ak_world.specs.Worlds.{World, after_view};

use crate::forest::Forest;
use ak_base::Stop;
use ak_host::Disk;

impl Forest {
    /// The store is worn.
    pub(crate) fn worn(&self) -> Stop
        ensures { result ≡ Stop.Worn (newest self.now.meta.ordinals) (newest_fill self.now.meta.ordinals) self.now.check.number }
    {
        let volumes = self.meta.volumes();
        Stop::Worn {
            ordinal: volumes.q(),
            fill: volumes.n(),
            number: self.check.number(),
        }
    }

    /// The file in which the newest ordinal stands.
    pub(crate) fn newest_file(&self) -> u32
        ensures { result ≡ file_of self.now.meta.ordinals (newest self.now.meta.ordinals) }
    {
        1 + self.meta.volumes().q() % self.meta.limits().volumes
    }

    /// Saves a view, where this is the file of a volume that was written since the last one.
    fn save<D: Disk>(&mut self, disk: &mut D, file: u32) -> Result<(), Stop>
        requires ready { IsReady D.tells self.old (D.state disk.old) }
        requires volume { 1 ≤ file }
        requires among { file ≤ self.old.meta.limits.volumes }
        ensures stops { HasTreeStops (D.state disk.old) (D.state disk.new) result }
        ensures no_memory { OnMemory result ⊥ }
        ensures ready { OnOk result (IsReady D.tells self.new (D.state disk.new)) }
        ensures names { names_of self.new.meta.series ≡ names_of self.old.meta.series }
        ensures limits { self.new.meta.limits ≡ self.old.meta.limits }
        ensures same { OnOk result (self.new ≡ record self.old { check = self.new.check; since = 0 }) }
        ensures number { OnOk result (self.new.check.number ≡ self.old.check.number + 1) }
        ensures below { OnOk result (self.old.check.number < 2 ^ 64 - 1) }
        // Behind the greatest number nothing is done.
        ensures last { 2 ^ 64 - 1 ≤ self.old.check.number → disk.new ≡ disk.old }
        ensures still { OnWorn result (λ stop. self.new ≡ self.old) }
        ensures elsewhere { D.tells → SameElsewhere (D.state disk.old).files (D.state disk.new).files }
        ensures worn { OnWorn result (λ stop. (self.old.check.number ≡ 2 ^ 64 - 1)
            × (stop ≡ Stop.Worn (newest self.old.meta.ordinals) (newest_fill self.old.meta.ordinals) self.old.check.number)) }
        ensures reads { D.tells → (D.state disk.new).reads ≡ (D.state disk.old).reads }
        // Whatever volume is written next, the view is stored.
        ensures stored { D.tells → (last : View) (kept : List (List Leaf)) (bases : List ℕ) (levels : List Lists) (next : ℕ) → IsStored last self.old.meta kept bases levels file (D.state disk.old) → last.number ≡ self.old.check.number
            → OnOk result (IsStored (record { number = last.number + 1; content = self.old.meta; kept = kept }) self.old.meta kept bases levels next (D.state disk.new)) }
        ensures passes { D.tells → DiskPasses (λ left. Unit {0}) (D.state disk.old) (D.state disk.new) }
        ensures moments { D.tells → (last : View) (kept : List (List Leaf)) (bases : List ℕ) (levels : List Lists) → IsStored last self.old.meta kept bases levels file (D.state disk.old) → last.number ≡ self.old.check.number
            → DiskPasses (LeavesSaved last (record { number = last.number + 1; content = self.old.meta; kept = kept })) (D.state disk.old) (D.state disk.new) }
    {
        if self.check.number() == u64::MAX {
            return Err(self.worn());
        }
        self.check.begin(&self.meta, file);
        match self.check.finish(disk) {
            Ok(()) => {
                self.since = 0;
                Ok(())
            }
            Err(_) => Err(Stop::Disk),
        }
    }

    /// Takes a view.
    pub fn view<D: Disk>(&mut self, disk: &mut D) -> Result<(), Stop>
        requires ready { IsReady D.tells self.old (D.state disk.old) }
        ensures stops { HasTreeStops (D.state disk.old) (D.state disk.new) result }
        ensures no_memory { OnMemory result ⊥ }
        ensures ready { OnOk result (IsReady D.tells self.new (D.state disk.new)) }
        ensures names { names_of self.new.meta.series ≡ names_of self.old.meta.series }
        ensures limits { self.new.meta.limits ≡ self.old.meta.limits }
        ensures becomes { D.tells → OnOk result (KeepsOrigins (D.state disk.old) (D.state disk.new) self.old.meta self.new.meta) }
        ensures same { OnOk result (self.new ≡ record self.old { check = self.new.check; since = 0 }) }
        ensures reads { D.tells → (D.state disk.new).reads ≡ (D.state disk.old).reads }
        ensures worn { D.tells → (w : World) → Holds w self.old (D.state disk.old) → OnWorn result (IsWornBy (after_view w)) }
        // The steps that came before it stand.
        ensures left { D.tells → (w : World) → Holds w self.old (D.state disk.old) → OnWorn result (λ stop. KeepsWorn (after_view w) self.new) }
        ensures after { D.tells → (w : World) → Holds w self.old (D.state disk.old) → OnOk result (Holds (after_view w) self.new (D.state disk.new)) }
        ensures passes { D.tells → DiskPasses (λ left. Unit {0}) (D.state disk.old) (D.state disk.new) }
        ensures moments { D.tells → (w : World) → Holds w self.old (D.state disk.old)
            → DiskPasses (LeavesView w (after_view w)) (D.state disk.old) (D.state disk.new) }
    {
        let _ = &self.meta;
        let file = self.newest_file();
        self.save(disk, file)
    }

    /// Begins an ordinal, in the place of the oldest where each volume holds a live one, and takes a view before anything stands
    /// in it.
    pub(crate) fn switch<D: Disk>(&mut self, disk: &mut D) -> Result<(), Stop>
        requires ready { IsReady D.tells self.old (D.state disk.old) }
        requires below { newest self.old.meta.ordinals < 2 ^ 32 - 1 }
        ensures stops { HasTreeStops (D.state disk.old) (D.state disk.new) result }
        ensures no_memory { OnMemory result ⊥ }
        ensures ready { OnOk result (IsReady D.tells self.new (D.state disk.new)) }
        ensures names { names_of self.new.meta.series ≡ names_of self.old.meta.series }
        ensures limits { self.new.meta.limits ≡ self.old.meta.limits }
        ensures becomes { D.tells → OnOk result (KeepsOrigins (D.state disk.old) (D.state disk.new) self.old.meta self.new.meta) }
        ensures same { OnOk result (self.new ≡ record self.old { meta = record self.old.meta { ordinals = switched self.old.meta.ordinals }; check = self.new.check; since = 0 }) }
        ensures reads { D.tells → (D.state disk.new).reads ≡ (D.state disk.old).reads }
        ensures worn { D.tells → (w : World) → Holds w self.old (D.state disk.old) → OnWorn result (IsWornBy (switch w)) }
        // The steps that came before it stand.
        ensures left { D.tells → (w : World) → Holds w self.old (D.state disk.old) → OnWorn result (λ stop. KeepsWorn (switch w) self.new) }
        ensures after { D.tells → (w : World) → Holds w self.old (D.state disk.old) → OnOk result (Holds (switch w) self.new (D.state disk.new)) }
        ensures passes { D.tells → DiskPasses (λ left. Unit {0}) (D.state disk.old) (D.state disk.new) }
        ensures moments { D.tells → (w : World) → Holds w self.old (D.state disk.old)
            → DiskPasses (LeavesView w (switch w)) (D.state disk.old) (D.state disk.new) }
    {
        let before = self.newest_file();
        self.meta.volumes_mut().switch();
        self.save(disk, before)
    }
}
