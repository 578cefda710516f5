//! Opens the newest record.
ghost use Rattle.std.specs.Prelude.{ℕ, ◌≡◌, ◌⊎◌, ◌+◌, ◌*◌, ◌^◌, ◌<◌, ◌≤◌, Some, slice_index, IfOk, IfErr};
ghost use Rattle.ak_host.specs.Moments.{DiskPasses, IsStable, LeavesNow};
ghost use Rattle.ak_gate.specs.Fits.{Fits};
ghost use Rattle.ak_gate.specs.Opening.{IsWhole};
ghost use Rattle.ak_gate.specs.Slots.{body_index, newest};
ghost use Rattle.ak_meta.specs.Contents.{Content, size_of, IsMeta, Spells};
ghost use Rattle.ak_record.specs.Records.{frame_for};
ghost use Rattle.ak_record.specs.Stops.{IsNoStore, IsOpenStop, IsShortAt};
ghost use Rattle.ak_record.specs.Volumes.{AreThere};

use crate::volumes::first_short;
use ak_base::Stop;
use ak_gate::Gate;
use ak_host::Disk;
use ak_meta::{Meta, MetaError};
use std::alloc::Global;

/// The newest record as it was found: its gate, and the content that it spells.
#[derive(Drop)]
pub struct Opened {
    pub gate: Gate,
    pub meta: Meta,
}

// The blocks of a slot.
fn slot_of(gate: &Gate) -> u32
    requires { gate.now.slot < 2 ^ 32 }
    ensures { result ≡ gate.now.slot }
{
    (gate.room() / 4096) as u32
}

// The block of file 0 where the body of the newest record begins.
fn newest_body(gate: &Gate) -> u32
    requires { 2 + 2 * gate.now.slot < 2 ^ 32 }
    ensures { result ≡ body_index gate.now.slot gate.now.newest }
{
    if gate.newest() == 0 {
        return 2;
    }
    2 + slot_of(gate)
}

// What the payload of the newest record spells. Damaged comes exactly where it spells no content with this size of a slot.
fn read_content(alloc: Global, gate: &Gate, payload: &[u8]) -> Result<Meta, Stop>
    requires { 2 + 2 * gate.now.slot < 2 ^ 32 }
    ensures spells { IfOk result (λ meta. Spells payload.now meta) }
    ensures slot { IfOk result (λ meta. meta.limits.slot ≡ gate.now.slot) }
    ensures err { IfErr result (λ stop. (stop ≡ Stop.Memory) ⊎ ((stop ≡ Stop.Damaged 0 (body_index gate.now.slot gate.now.newest))
        × ((content : Content) → Spells payload.now content → content.limits.slot ≡ gate.now.slot → ⊥))) }
{
    match Meta::decode(alloc, payload) {
        Ok(meta) => {
            if meta.limits().slot == slot_of(gate) {
                return Ok(meta);
            }
        }
        Err(MetaError::Bad) => {}
        Err(MetaError::Memory) => return Err(Stop::Memory),
    }
    Err(Stop::Damaged {
        file: 0,
        block: newest_body(gate),
    })
}

/// Opens file 0 and reads its newest record. NoStore comes exactly where file 0 is not there, has an odd number of blocks or
/// fewer than 4, or no gate is open. Damaged comes only where the body of an open gate is no record, with file 0 and the block
/// where that body begins, and where the file of a volume is missing or short, with that file and the number of its blocks.
/// Disk comes only where a read failed. Nothing is to be unsynced in file 0.
pub fn open_newest<D: Disk>(alloc: Global, disk: &mut D) -> Result<Opened, Stop>
    ensures err { IfErr result (IsOpenStop D.tells (D.state disk.old) (D.state disk.new)) }
    ensures no_store { D.tells → IsNoStore (D.state disk.old).files → IfOk result (λ opened. ⊥) }
    ensures gate { IfOk result (λ opened. IsWhole opened.gate (D.state disk.new) × (opened.meta.limits.slot ≡ opened.gate.slot)) }
    ensures rules { IfOk result (λ opened. IsMeta opened.meta) }
    ensures fits_slot { IfOk result (λ opened. 16 + size_of opened.meta ≤ 4096 * opened.gate.slot) }
    ensures there { IfOk result (λ opened. AreThere opened.meta.limits (D.state disk.new).sizes) }
    ensures newest { D.tells → IfOk result (λ opened. newest opened.gate.slot (D.state disk.old).files
        ≡ Some (frame_for opened.gate.number opened.meta)) }
    ensures none_short { D.tells → IfOk result (λ opened. (file block : ℕ) → ¬ IsShortAt file block (D.state disk.old).files) }
    ensures fits { D.tells → IsStable 0 (D.state disk.old) → IfOk result (λ opened. Fits opened.gate (D.state disk.new)) }
    ensures sizes { (D.state disk.new).sizes ≡ (D.state disk.old).sizes }
    ensures later { (D.state disk.old).disk_faults ≤ (D.state disk.new).disk_faults }
    ensures port_faults { (D.state disk.new).port_faults ≡ (D.state disk.old).port_faults }
    ensures files { D.tells → (D.state disk.new).files ≡ (D.state disk.old).files }
    ensures moments { D.tells → DiskPasses (LeavesNow (D.state disk.old)) (D.state disk.old) (D.state disk.new) }
    // It makes no more reads than file 0 has blocks, and writes nothing.
    ensures reads { D.tells → (D.state disk.new).reads ≤ (D.state disk.old).reads + slice_index (D.state disk.old).sizes 0 }
    ensures writes { D.tells → (D.state disk.new).writes ≡ (D.state disk.old).writes }
{
    let (gate, payload) = Gate::open(alloc, disk)?;
    let meta = read_content(alloc, &gate, payload.as_slice())?;
    if let Some(short) = first_short(disk, &meta.limits()) {
        return Err(Stop::Damaged {
            file: short.file,
            block: short.blocks,
        });
    }
    Ok(Opened { gate, meta })
}
