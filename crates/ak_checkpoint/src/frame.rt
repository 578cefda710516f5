//! A frame: it is spelled, and written into the slot that isn't the newest.
ghost use Rattle.std.specs.Prelude.{◌≡◌, ◌⊎◌, ◌+◌, ◌*◌, ◌/◌, ◌<◌, ◌≤◌, ◌++◌, false, length, take, drop, Option, Some, OnOk, OnErr};
ghost use Rattle.ak_host.specs.Files.{file_at};
ghost use Rattle.ak_host.specs.Moments.{DiskPasses};
ghost use Rattle.ak_host.specs.Causes.{HasCause};
ghost use Rattle.ak_host.specs.Calls.{Follows};
ghost use Rattle.ak_gate.specs.Fits.{IsSized, Fits, Stands, SameElsewhere};
ghost use Rattle.ak_gate.specs.Slots.{Frame, body_at, other};
ghost use Rattle.ak_meta.specs.Contents.{Content, size_of, IsMeta};
ghost use Rattle.ak_record.specs.Records.{frame_for, frame_bytes, HasNewest, Rests};
ghost use Rattle.ak_checkpoint.specs.Bodies.{BeginsWith, Carries, block_from};
ghost use Rattle.ak_checkpoint.specs.Saving.{revealed};

use ak_gate::Gate;
use ak_host::{Block, Disk, Failed};
use ak_meta::Meta;
use byteorder::{ByteOrder, LittleEndian};

/// Spells the frame of a view at the front of the bytes, and gives its end.
pub(crate) fn spell_front(into: &mut [u8], number: u64, meta: &Meta) -> usize
    requires rules { IsMeta meta.now }
    requires fits { 16 + size_of meta.now ≤ length into.old }
    ensures used { result ≡ 16 + size_of meta.now }
    ensures front { take result into.new ≡ frame_bytes (frame_for number meta.now) }
{
    let used = 16 + meta.size() as usize;
    spell_frame(&mut into[..used], number, meta);
    used
}

// Spells the frame of a view over the bytes.
fn spell_frame(into: &mut [u8], number: u64, meta: &Meta)
    requires rules { IsMeta meta.now }
    requires size { length into.old ≡ 16 + size_of meta.now }
    ensures { into.new ≡ frame_bytes (frame_for number meta.now) }
{
    let size = into.len() - 16;
    LittleEndian::write_u64(&mut into[..8], size as u64);
    LittleEndian::write_u64(&mut into[8..16], number);
    meta.encode(&mut into[16..]);
}

// Copies bytes to the front of a block.
fn copy_to_front(bytes: &[u8], into: &mut Block)
    requires { length bytes.now ≤ 4096 }
    ensures { into.new ≡ bytes.now ++ drop (length bytes.now) into.old }
{
    into[..bytes.len()].copy_from_slice(bytes);
}

// The block of the frame's bytes from here on, with zeros behind their end.
fn block_of(frame: &[u8], start: usize) -> Block
    requires { start ≤ length frame.now }
    ensures { result ≡ block_from start frame.now }
{
    let count = (frame.len() - start).min(4096);
    let mut block = [0; 4096];
    copy_to_front(&frame[start..start + count], &mut block);
    block
}

// Writes the frame into the slot that isn't the newest. At each moment a stop leaves both gates and the newest body as
// they were.
fn write_body<D: Disk>(gate: &mut Gate, disk: &mut D, frame: &[u8]) -> Result<(), Failed>
    requires whole { gate.old.broken ≡ false }
    requires shut { gate.old.other_open ≡ false }
    requires sized { IsSized gate.old.slot (D.state disk.old) }
    requires room { length frame.now ≤ 4096 * gate.old.slot }
    requires fits { D.tells → Fits gate.old (D.state disk.old) }
    ensures ok { OnOk result (gate.new ≡ gate.old) }
    ensures slot { gate.new.slot ≡ gate.old.slot }
    ensures number { gate.new.number ≡ gate.old.number }
    ensures sizes { (D.state disk.new).sizes ≡ (D.state disk.old).sizes }
    ensures cause { HasCause (D.state disk.old).disk_faults (D.state disk.new).disk_faults result }
    ensures port_faults { (D.state disk.new).port_faults ≡ (D.state disk.old).port_faults }
    ensures fits { D.tells → OnOk result (Fits gate.new (D.state disk.new)) }
    ensures written { D.tells → OnOk result (BeginsWith frame.now (body_at gate.old.slot (other gate.old.newest) (file_at (D.state disk.new).files 0))) }
    ensures moments { D.tells → DiskPasses (λ left. Stands gate.old (file_at (D.state disk.old).files 0) (file_at left 0)) (D.state disk.old) (D.state disk.new) }
    ensures elsewhere { D.tells → SameElsewhere (D.state disk.old).files (D.state disk.new).files }
    ensures elsewhere_left { D.tells → DiskPasses (Follows SameElsewhere (D.state disk.old)) (D.state disk.old) (D.state disk.new) }
    ensures reads { D.tells → (D.state disk.new).reads ≡ (D.state disk.old).reads }
    ensures writes { D.tells → (D.state disk.new).writes ≤ (D.state disk.old).writes + (length frame.now + 4095) / 4096 }
{
    let blocks = frame.len().div_ceil(4096);
    for i in 0..blocks as u32 {
        let block = block_of(frame, 4096 * i as usize);
        gate.body(disk, i, &block)?;
    }
    Ok(())
}

/// Writes a frame of this number into the slot that isn't the newest: its gate is closed, the body is written, and the
/// gate is opened. At each moment a stop leaves the newest record from before the call or that of the frame, and after it
/// succeeds that of the frame.
pub(crate) fn write_frame<D: Disk>(
    gate: &mut Gate,
    disk: &mut D,
    number: u64,
    frame: &[u8],
) -> Result<(), Failed>
    requires whole { gate.old.broken ≡ false }
    requires sized { IsSized gate.old.slot (D.state disk.old) }
    requires room { length frame.now ≤ 4096 * gate.old.slot }
    requires above { gate.old.number < number }
    requires carries { Carries number frame.now }
    requires fits { D.tells → Fits gate.old (D.state disk.old) }
    ensures ok { OnOk result (gate.new ≡ revealed gate.old number) }
    ensures slot { gate.new.slot ≡ gate.old.slot }
    ensures number { OnErr result (gate.new.number ≡ gate.old.number) }
    ensures sizes { (D.state disk.new).sizes ≡ (D.state disk.old).sizes }
    ensures cause { HasCause (D.state disk.old).disk_faults (D.state disk.new).disk_faults result }
    ensures port_faults { (D.state disk.new).port_faults ≡ (D.state disk.old).port_faults }
    ensures fits { D.tells → OnOk result (Fits gate.new (D.state disk.new)) }
    ensures rests { D.tells → (before : Option Frame) (c : Content) → Rests gate.old.slot before (D.state disk.old)
        → IsMeta c → c.limits.slot ≡ gate.old.slot → frame.now ≡ frame_bytes (frame_for number c)
        → OnOk result (Rests gate.old.slot (Some (frame_for number c)) (D.state disk.new)) }
    ensures moments { D.tells → (before : Option Frame) (c : Content) → Rests gate.old.slot before (D.state disk.old)
        → IsMeta c → c.limits.slot ≡ gate.old.slot → frame.now ≡ frame_bytes (frame_for number c)
        → DiskPasses (λ left. HasNewest gate.old.slot before left ⊎ HasNewest gate.old.slot (Some (frame_for number c)) left)
        (D.state disk.old) (D.state disk.new) }
    // The other files are as they were, and a stop leaves of them what it might have left before.
    ensures elsewhere { D.tells → SameElsewhere (D.state disk.old).files (D.state disk.new).files }
    ensures elsewhere_left { D.tells → DiskPasses (Follows SameElsewhere (D.state disk.old)) (D.state disk.old) (D.state disk.new) }
    ensures reads { D.tells → (D.state disk.new).reads ≡ (D.state disk.old).reads }
    ensures writes { D.tells → (D.state disk.new).writes ≤ (D.state disk.old).writes + (2 + (length frame.now + 4095) / 4096) }
{
    gate.shut(disk)?;
    write_body(gate, disk, frame)?;
    gate.reveal(disk, number)
}
