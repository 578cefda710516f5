//! Makes a store.
ghost use Rattle.std.specs.Prelude.{◌≡◌, ◌⊎◌, ◌+◌, ◌-◌, ◌*◌, ◌^◌, ◌<◌, ◌≤◌, ◌↔◌, ◌++◌, ℕ, true, false, length, take, drop, replicate, slice_index, Some, OnOk, IfOk, IfErr, IsTrue};
ghost use Rattle.ak_base.specs.Ranges.{AreLimits};
ghost use Rattle.ak_host.specs.Files.{Files, file_at, block_at, zero_blocks};
ghost use Rattle.ak_host.specs.Moments.{DiskPasses, IsStable, LeavesNow};
ghost use Rattle.ak_gate.specs.Slots.{is_open};
ghost use Rattle.ak_gate.specs.Fits.{Fits};
ghost use Rattle.ak_gate.specs.Opening.{IsWhole};
ghost use Rattle.ak_meta.specs.Leaves.{first_content};
ghost use Rattle.ak_record.specs.Records.{HasNewest, Rests, frame_for, frame_bytes};
ghost use Rattle.ak_record.specs.Stops.{IsNoStore, IsTaken, IsDiskStop, IsMakeStop, AreMade};
ghost use Rattle.ak_checkpoint.specs.Making.{AreEmpty, IsMade, KeepsDisk, made_sizes};

use crate::checkpoint::Checkpoint;
use ak_base::{Limits, Stop};
use ak_gate::Gate;
use ak_host::Disk;
use ak_meta::Meta;
use std::alloc::{AllocError, Global};

// Whether a block of file 0 begins with 1.
fn is_open_at<D: Disk>(disk: &mut D, index: u32) -> Result<bool, Stop>
    requires there { 0 < length (D.state disk.old).sizes }
    requires inside { index < slice_index (D.state disk.old).sizes 0 }
    ensures err { IfErr result (IsDiskStop (D.state disk.old) (D.state disk.new)) }
    ensures opened { D.tells → IfOk result (λ opened. opened ≡ is_open (block_at (D.state disk.old).files 0 index)) }
    ensures sizes { (D.state disk.new).sizes ≡ (D.state disk.old).sizes }
    ensures later { (D.state disk.old).disk_faults ≤ (D.state disk.new).disk_faults }
    ensures port_faults { (D.state disk.new).port_faults ≡ (D.state disk.old).port_faults }
    ensures files { D.tells → (D.state disk.new).files ≡ (D.state disk.old).files }
    ensures moments { D.tells → DiskPasses (LeavesNow (D.state disk.old)) (D.state disk.old) (D.state disk.new) }
{
    let mut block = [0; 4096];
    match disk.read(0, index, &mut block) {
        Ok(()) => Ok(block[0] == 1),
        Err(_) => Err(Stop::Disk),
    }
}

// Whether there is a store already.
fn is_taken<D: Disk>(disk: &mut D) -> Result<bool, Stop>
    ensures err { IfErr result (IsDiskStop (D.state disk.old) (D.state disk.new)) }
    ensures taken { D.tells → IfOk result (λ taken. IsTrue taken ↔ IsTaken (D.state disk.old).files) }
    ensures sizes { (D.state disk.new).sizes ≡ (D.state disk.old).sizes }
    ensures later { (D.state disk.old).disk_faults ≤ (D.state disk.new).disk_faults }
    ensures port_faults { (D.state disk.new).port_faults ≡ (D.state disk.old).port_faults }
    ensures files { D.tells → (D.state disk.new).files ≡ (D.state disk.old).files }
    ensures moments { D.tells → DiskPasses (LeavesNow (D.state disk.old)) (D.state disk.old) (D.state disk.new) }
{
    if disk.files() == 0 || disk.blocks(0) < 2 {
        return Ok(false);
    }
    let first = is_open_at(disk, 0)?;
    let second = is_open_at(disk, 1)?;
    Ok(first || second)
}

// Makes each volume. File 0 stays as it is.
fn make_volumes<D: Disk>(disk: &mut D, limits: &Limits) -> Result<(), Stop>
    requires limits { AreLimits limits.now }
    requires there { 0 < length (D.state disk.old).sizes }
    requires some { D.tells → 0 < length (file_at (D.state disk.old).files 0) }
    requires stable { D.tells → IsStable 0 (D.state disk.old) }
    ensures err { IfErr result (IsDiskStop (D.state disk.old) (D.state disk.new)) }
    ensures number { OnOk result (limits.now.volumes < length (D.state disk.new).sizes) }
    ensures first { OnOk result (slice_index (D.state disk.new).sizes 0 ≡ slice_index (D.state disk.old).sizes 0) }
    ensures volumes { OnOk result ((file : ℕ) → 1 ≤ file → file ≤ limits.now.volumes → slice_index (D.state disk.new).sizes file ≡ limits.now.blocks) }
    ensures sizes { OnOk result ((D.state disk.new).sizes ≡ take 1 (D.state disk.old).sizes
        ++ (replicate limits.now.volumes limits.now.blocks ++ drop (1 + limits.now.volumes) (D.state disk.old).sizes)) }
    ensures later { (D.state disk.old).disk_faults ≤ (D.state disk.new).disk_faults }
    ensures port_faults { (D.state disk.new).port_faults ≡ (D.state disk.old).port_faults }
    ensures same { D.tells → OnOk result (file_at (D.state disk.new).files 0 ≡ file_at (D.state disk.old).files 0) }
    ensures empty { D.tells → OnOk result (AreEmpty limits.now (D.state disk.new)) }
    ensures moments { D.tells → DiskPasses (λ left. file_at left 0 ≡ file_at (D.state disk.old).files 0) (D.state disk.old) (D.state disk.new) }
{
    for file in 1..limits.volumes + 1 {
        if let Err(_) = disk.make(file, limits.blocks) {
            return Err(Stop::Disk);
        }
    }
    Ok(())
}

// Makes file 0 and each volume. No gate is open then.
fn make_files<D: Disk>(disk: &mut D, limits: &Limits) -> Result<(), Stop>
    requires { AreLimits limits.now }
    ensures err { IfErr result (IsDiskStop (D.state disk.old) (D.state disk.new)) }
    ensures made { OnOk result (AreMade limits.now (D.state disk.new).sizes) }
    ensures sizes { OnOk result ((D.state disk.new).sizes ≡ made_sizes limits.now (D.state disk.old).sizes) }
    ensures later { (D.state disk.old).disk_faults ≤ (D.state disk.new).disk_faults }
    ensures port_faults { (D.state disk.new).port_faults ≡ (D.state disk.old).port_faults }
    ensures zeros { D.tells → OnOk result (file_at (D.state disk.new).files 0 ≡ zero_blocks (2 + 2 * limits.now.slot)) }
    ensures stable { D.tells → OnOk result (IsStable 0 (D.state disk.new)) }
    ensures empty { D.tells → OnOk result (AreEmpty limits.now (D.state disk.new)) }
    ensures moments { D.tells → ((left : Files) → LeavesNow (D.state disk.old) left → IsNoStore left)
        → DiskPasses IsNoStore (D.state disk.old) (D.state disk.new) }
    ensures passes { D.tells → DiskPasses (λ left. Unit {0}) (D.state disk.old) (D.state disk.new) }
{
    if let Err(_) = disk.make(0, 2 + 2 * limits.slot) {
        return Err(Stop::Disk);
    }
    make_volumes(disk, limits)?;
    Ok(())
}

// The first view behind a gate, begun.
fn begin_first(alloc: Global, gate: Gate, limits: &Limits) -> Result<(Meta, Checkpoint), AllocError>
    requires limits { AreLimits limits.now }
    requires slot { gate.slot ≡ limits.now.slot }
    requires last { gate.number < 2 ^ 64 - 1 }
    ensures meta { IfOk result (λ begun. begun.0 ≡ first_content limits.now) }
    ensures checkpoint { IfOk result (λ begun. begun.1 ≡ record { gate = gate; pending = true; number = gate.number + 1; bytes = frame_bytes (frame_for (gate.number + 1) (first_content limits.now)); file = 1 }) }
{
    let meta = Meta::new(alloc, *limits)?;
    let mut checkpoint = Checkpoint::new(alloc, gate)?;
    checkpoint.begin(&meta, 1);
    Ok((meta, checkpoint))
}

/// Makes a store with these limits: file 0, each volume, and the first view, which has number 1 and no series. Exists
/// comes exactly where file 0 has at least 2 blocks, of which one of the first two is an open gate.
pub fn make_store<D: Disk>(
    alloc: Global,
    disk: &mut D,
    limits: &Limits,
) -> Result<(Meta, Checkpoint), Stop>
    requires { AreLimits limits.now }
    ensures err { IfErr result (IsMakeStop D.tells (D.state disk.old) (D.state disk.new)) }
    ensures exists { D.tells → IsTaken (D.state disk.old).files → IfOk result (λ store. ⊥) }
    ensures meta { IfOk result (λ store. store.0 ≡ first_content limits.now) }
    ensures gate { IfOk result (λ store. IsWhole store.1.gate (D.state disk.new) × (store.1.gate.slot ≡ limits.now.slot) × (store.1.gate.number ≡ 1)) }
    ensures saved { IfOk result (λ store. (store.1.pending ≡ false) × (store.1.number ≡ 1)) }
    ensures made { IfOk result (λ store. AreMade limits.now (D.state disk.new).sizes) }
    ensures sizes { OnOk result ((D.state disk.new).sizes ≡ made_sizes limits.now (D.state disk.old).sizes) }
    // A store that is there already is left alone.
    ensures kept { D.tells → IsTaken (D.state disk.old).files → KeepsDisk (D.state disk.old) (D.state disk.new) }
    ensures fits { D.tells → IfOk result (λ store. Fits store.1.gate (D.state disk.new)) }
    ensures rests { D.tells → IfOk result (λ store. Rests limits.now.slot (Some (frame_for 1 (first_content limits.now))) (D.state disk.new)) }
    ensures empty { D.tells → IfOk result (λ store. AreEmpty limits.now (D.state disk.new)) }
    // Until it is done, a stop leaves no store, or the first view.
    ensures moments { D.tells → ((left : Files) → LeavesNow (D.state disk.old) left → IsNoStore left)
        → DiskPasses (λ left. IsNoStore left ⊎ IsMade limits.now left) (D.state disk.old) (D.state disk.new) }
    // Whatever the disk held before, only the disk changes.
    ensures passes { D.tells → DiskPasses (λ left. Unit {0}) (D.state disk.old) (D.state disk.new) }
    ensures later { (D.state disk.old).disk_faults ≤ (D.state disk.new).disk_faults }
    ensures port_faults { (D.state disk.new).port_faults ≡ (D.state disk.old).port_faults }
{
    if is_taken(disk)? {
        return Err(Stop::Exists);
    }
    make_files(disk, limits)?;
    let gate = Gate::first(disk, limits.slot);
    let (meta, mut checkpoint) = match begin_first(alloc, gate, limits) {
        Ok(begun) => begun,
        Err(_) => return Err(Stop::Memory),
    };
    match checkpoint.finish(disk) {
        Ok(()) => Ok((meta, checkpoint)),
        Err(_) => Err(Stop::Disk),
    }
}
