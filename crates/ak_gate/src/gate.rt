//! The gates of file 0.
ghost use Rattle.std.specs.Prelude.{◌≡◌, ◌⊎◌, ◌<◌, ◌+◌, ◌*◌, ◌^◌, true, false, length, slice_index, OnOk, OnErr, IfOk, IfErr, ◌≤◌};
ghost use Rattle.ak_host.specs.Files.{Files, MayBeTorn, file_at, with_block, zero_blocks};
ghost use Rattle.ak_host.specs.Moments.{DiskPasses, LeavesNow, IsStable};
ghost use Rattle.ak_host.specs.Causes.{HasCause};
ghost use Rattle.ak_host.specs.Calls.{Follows, CountsOne};
ghost use Rattle.ak_gate.specs.Fits.{IsSized, Knows, Fits, SameElsewhere, other_frame};
ghost use Rattle.ak_gate.specs.Opening.{HasSlots, IsBadSlot, IsCause, IsWhole, OnlyRead, slot_size};
ghost use Rattle.ak_gate.specs.declared.half.Half.{Half};
ghost use Rattle.ak_gate.specs.Slots.{other, gate_index, body_index, slot_number, newest};
ghost use Rattle.ak_gate.specs.Written.{Wrote, IsTornAt};

use crate::half::Half;
use crate::opening::{read_found, read_payload};
use ak_base::{Bytes, Stop};
use ak_host::{Block, Disk, Failed};
use std::alloc::Global;
use std::marker::Model;

/// The two slots of file 0, and which of them holds the newest record.
#[derive(Drop)]
pub struct Gate {
    slot: u32,
    newest: Half,
    number: u64,
    is_open: bool,
    other_open: bool,
    broken: bool,
}

impl Model for Gate {
    ghost use Rattle.ak_gate.specs.View.{View};

    ghost Value = { View };

    ghost view = { λ g. record { slot = g.slot; newest = g.newest; is_open = g.is_open; other_open = g.other_open; number = g.number; broken = g.broken } };
}

// Writes a block of file 0 with this first byte, and syncs.
fn write_gate<D: Disk>(disk: &mut D, index: u32, first: u8) -> Result<(), Failed>
    requires there { 0 < length (D.state disk.old).sizes }
    requires inside { index < slice_index (D.state disk.old).sizes 0 }
    ensures sizes { (D.state disk.new).sizes ≡ (D.state disk.old).sizes }
    ensures cause { HasCause (D.state disk.old).disk_faults (D.state disk.new).disk_faults result }
    ensures port_faults { (D.state disk.new).port_faults ≡ (D.state disk.old).port_faults }
    ensures wrote { D.tells → OnOk result (Wrote index first (D.state disk.old).files (D.state disk.new).files) }
    ensures stable { D.tells → OnOk result (IsStable 0 (D.state disk.new)) }
    ensures elsewhere { D.tells → SameElsewhere (D.state disk.old).files (D.state disk.new).files }
    ensures reads { D.tells → (D.state disk.new).reads ≡ (D.state disk.old).reads }
    ensures writes { D.tells → CountsOne (D.state disk.old).writes (D.state disk.new).writes result }
    ensures moments { D.tells →
        DiskPasses (Follows (MayBeTorn 0 index) (D.state disk.old)) (D.state disk.old) (D.state disk.new) }
{
    let mut block = [0; 4096];
    block[0] = first;
    disk.write(0, index, &block)?;
    disk.sync(0)?;
    Ok(())
}

// How many blocks file 0 has, and 0 where it is not there.
fn blocks_of<D: Disk>(disk: &D) -> u32
    ensures blocks { result ≡ slice_index (D.state disk.now).sizes 0 }
    ensures there { 0 < result → 0 < length (D.state disk.now).sizes }
{
    if disk.files() == 0 {
        return 0;
    }
    disk.blocks(0)
}

impl Gate {
    /// The gate of a file 0 that was just made: both gates are closed, and the first slot is to be written.
    pub fn first<D: Disk>(disk: &mut D, slot: u32) -> Gate
        requires sized { IsSized slot (D.state disk.old) }
        requires made { D.tells → file_at (D.state disk.old).files 0 ≡ zero_blocks (2 + 2 * slot) }
        requires stable { D.tells → IsStable 0 (D.state disk.old) }
        ensures gate { result ≡ record { slot = slot; newest = Half.Second; number = 0; is_open = false; other_open = false; broken = false } }
        ensures same { disk.new ≡ disk.old }
        ensures fits { D.tells → Fits result (D.state disk.new) }
    {
        let _files = disk.files();
        Gate {
            slot,
            newest: Half::Second,
            number: 0,
            is_open: false,
            other_open: false,
            broken: false,
        }
    }

    /// Opens the gates of file 0, and gives the payload of the newest record. NoStore comes exactly where file 0 is not
    /// there, has an odd number of blocks or fewer than 4, or neither gate as read is open. Damaged comes where the frame
    /// behind an open gate is longer than its body. Nothing is to be unsynced in file 0.
    pub fn open<D: Disk>(alloc: Global, disk: &mut D) -> Result<(Gate, Bytes), Stop>
        ensures no_slots { ¬ HasSlots (D.state disk.old) → result ≡ Err Stop.NoStore }
        ensures err { HasSlots (D.state disk.old) → IfErr result (IsCause (slot_size (D.state disk.old)) D.tells (D.state disk.old) (D.state disk.new)) }
        ensures gate { IfOk result (λ opened. IsWhole opened.0 (D.state disk.new)) }
        ensures newest { D.tells → IfOk result (λ opened. newest opened.0.slot (D.state disk.old).files
            ≡ Some (record { number = opened.0.number; payload = opened.1 })) }
        ensures knows { D.tells → IfOk result (λ opened. Knows opened.0 (file_at (D.state disk.old).files 0)) }
        ensures short { IfOk result (λ opened. 16 + length opened.1 ≤ 4096 * opened.0.slot) }
        ensures none_bad { D.tells → IfOk result (λ opened. (half : Half) → ¬ IsBadSlot opened.0.slot half (file_at (D.state disk.old).files 0)) }
        ensures fits { D.tells → IsStable 0 (D.state disk.old) → IfOk result (λ opened. Fits opened.0 (D.state disk.new)) }
        ensures sizes { (D.state disk.new).sizes ≡ (D.state disk.old).sizes }
        ensures later { (D.state disk.old).disk_faults ≤ (D.state disk.new).disk_faults }
        ensures port_faults { (D.state disk.new).port_faults ≡ (D.state disk.old).port_faults }
        ensures only { D.tells → OnlyRead (slice_index (D.state disk.old).sizes 0) (D.state disk.old) (D.state disk.new) }
    {
        let blocks = blocks_of(disk);
        if blocks < 4 || blocks % 2 == 1 {
            return Err(Stop::NoStore);
        }
        let slot = (blocks - 2) / 2;
        let found = read_found(disk, slot)?;
        let payload = read_payload(alloc, disk, slot, found.half, &found.head)?;
        let gate = Gate {
            slot,
            newest: found.half,
            number: found.head.number,
            is_open: true,
            other_open: found.other_open,
            broken: false,
        };
        Ok((gate, payload))
    }

    /// Closes the other slot's gate. At each moment the newest record is the one before the call.
    pub fn shut<D: Disk>(&mut self, disk: &mut D) -> Result<(), Failed>
        requires whole { self.old.broken ≡ false }
        requires sized { IsSized self.old.slot (D.state disk.old) }
        requires fits { D.tells → Fits self.old (D.state disk.old) }
        ensures ok { OnOk result (self.new ≡ record self.old { other_open = false }) }
        ensures err { OnErr result (self.new ≡ record self.old { broken = true }) }
        ensures sizes { (D.state disk.new).sizes ≡ (D.state disk.old).sizes }
        ensures cause { HasCause (D.state disk.old).disk_faults (D.state disk.new).disk_faults result }
        ensures port_faults { (D.state disk.new).port_faults ≡ (D.state disk.old).port_faults }
        ensures fits { D.tells → OnOk result (Fits self.new (D.state disk.new)) }
        ensures moments { D.tells →
            DiskPasses (λ left. newest self.old.slot left ≡ newest self.old.slot (D.state disk.old).files) (D.state disk.old) (D.state disk.new) }
        ensures files { D.tells → self.old.other_open ≡ true → OnOk result
            (Wrote (gate_index (other self.old.newest)) 0 (D.state disk.old).files (D.state disk.new).files) }
        // Meanwhile only that gate may be torn.
        ensures torn { D.tells → DiskPasses (Follows (MayBeTorn 0 (gate_index (other self.old.newest))) (D.state disk.old)) (D.state disk.old) (D.state disk.new) }
        // The other files are as they were, and a stop leaves of them what it might have left before.
        ensures elsewhere { D.tells → SameElsewhere (D.state disk.old).files (D.state disk.new).files }
        ensures elsewhere_left { D.tells → DiskPasses (Follows SameElsewhere (D.state disk.old)) (D.state disk.old) (D.state disk.new) }
        ensures reads { D.tells → (D.state disk.new).reads ≡ (D.state disk.old).reads }
        ensures writes { D.tells → self.old.other_open ≡ true → CountsOne (D.state disk.old).writes (D.state disk.new).writes result }
        // Where that gate is closed, nothing is done.
        ensures closed { self.old.other_open ≡ false → disk.new ≡ disk.old }
    {
        if self.other_open {
            let index = self.newest.other().gate_index();
            if let Err(failed) = write_gate(disk, index, 0) {
                self.broken = true;
                return Err(failed);
            }
            self.other_open = false;
            return Ok(());
        }
        Ok(())
    }

    /// Writes a block of the other slot's body. At each moment the newest record is the one before the call.
    pub fn body<D: Disk>(&mut self, disk: &mut D, i: u32, from: &Block) -> Result<(), Failed>
        requires whole { self.old.broken ≡ false }
        requires shut { self.old.other_open ≡ false }
        requires inside { i < self.old.slot }
        requires sized { IsSized self.old.slot (D.state disk.old) }
        requires fits { D.tells → Fits self.old (D.state disk.old) }
        ensures ok { OnOk result (self.new ≡ self.old) }
        ensures err { OnErr result (self.new ≡ record self.old { broken = true }) }
        ensures sizes { (D.state disk.new).sizes ≡ (D.state disk.old).sizes }
        ensures cause { HasCause (D.state disk.old).disk_faults (D.state disk.new).disk_faults result }
        ensures port_faults { (D.state disk.new).port_faults ≡ (D.state disk.old).port_faults }
        ensures files { D.tells → OnOk result ((D.state disk.new).files
            ≡ with_block (D.state disk.old).files 0 (body_index self.old.slot (other self.old.newest) + i) from.now) }
        ensures fits { D.tells → OnOk result (Fits self.new (D.state disk.new)) }
        ensures moments { D.tells →
            DiskPasses (λ left. newest self.old.slot left ≡ newest self.old.slot (D.state disk.old).files) (D.state disk.old) (D.state disk.new) }
        // Meanwhile only that block may be torn.
        ensures torn { D.tells → DiskPasses (Follows (MayBeTorn 0 (body_index self.old.slot (other self.old.newest) + i)) (D.state disk.old)) (D.state disk.old) (D.state disk.new) }
        // The other files are as they were, and a stop leaves of them what it might have left before.
        ensures elsewhere { D.tells → SameElsewhere (D.state disk.old).files (D.state disk.new).files }
        ensures elsewhere_left { D.tells → DiskPasses (Follows SameElsewhere (D.state disk.old)) (D.state disk.old) (D.state disk.new) }
        ensures reads { D.tells → (D.state disk.new).reads ≡ (D.state disk.old).reads }
        ensures writes { D.tells → CountsOne (D.state disk.old).writes (D.state disk.new).writes result }
    {
        let index = self.newest.other().body_index(self.slot) + i;
        match disk.write(0, index, from) {
            Ok(()) => Ok(()),
            Err(failed) => {
                self.broken = true;
                Err(failed)
            }
        }
    }

    /// Opens the other slot's gate, whose body carries this number. At each moment the newest record is the one before
    /// the call or the one in the body; after it succeeds, the one in the body.
    pub fn reveal<D: Disk>(&mut self, disk: &mut D, number: u64) -> Result<(), Failed>
        requires whole { self.old.broken ≡ false }
        requires shut { self.old.other_open ≡ false }
        requires above { self.old.number < number }
        requires sized { IsSized self.old.slot (D.state disk.old) }
        requires fits { D.tells → Fits self.old (D.state disk.old) }
        requires carries { D.tells → (other_frame self.old (D.state disk.old).files).number ≡ number }
        ensures ok { OnOk result (self.new ≡ record self.old { newest = other self.old.newest; number = number; is_open = true; other_open = self.old.is_open }) }
        ensures err { OnErr result (self.new ≡ record self.old { broken = true }) }
        ensures sizes { (D.state disk.new).sizes ≡ (D.state disk.old).sizes }
        ensures cause { HasCause (D.state disk.old).disk_faults (D.state disk.new).disk_faults result }
        ensures port_faults { (D.state disk.new).port_faults ≡ (D.state disk.old).port_faults }
        ensures fits { D.tells → OnOk result (Fits self.new (D.state disk.new)) }
        ensures moments { D.tells →
            DiskPasses (λ left. (newest self.old.slot left ≡ newest self.old.slot (D.state disk.old).files)
            ⊎ (newest self.old.slot left ≡ Some (other_frame self.old (D.state disk.old).files))) (D.state disk.old) (D.state disk.new) }
        ensures revealed { D.tells → OnOk result
            ((left : Files) → LeavesNow (D.state disk.new) left → newest self.old.slot left ≡ Some (other_frame self.old (D.state disk.old).files)) }
        ensures files { D.tells → OnOk result (Wrote (gate_index (other self.old.newest)) 1 (D.state disk.old).files (D.state disk.new).files) }
        // Meanwhile a stop leaves what it might have left before, or file 0 as it read but for that gate, which may be torn.
        ensures torn { D.tells → DiskPasses (λ left. LeavesNow (D.state disk.old) left
            ⊎ IsTornAt (gate_index (other self.old.newest)) (file_at (D.state disk.old).files 0) left) (D.state disk.old) (D.state disk.new) }
        // The other files are as they were, and a stop leaves of them what it might have left before.
        ensures elsewhere { D.tells → SameElsewhere (D.state disk.old).files (D.state disk.new).files }
        ensures elsewhere_left { D.tells → DiskPasses (Follows SameElsewhere (D.state disk.old)) (D.state disk.old) (D.state disk.new) }
        ensures reads { D.tells → (D.state disk.new).reads ≡ (D.state disk.old).reads }
        ensures writes { D.tells → CountsOne (D.state disk.old).writes (D.state disk.new).writes result }
    {
        if let Err(failed) = disk.sync(0) {
            self.broken = true;
            return Err(failed);
        }
        let next = self.newest.other();
        match write_gate(disk, next.gate_index(), 1) {
            Ok(()) => {
                self.other_open = self.is_open;
                self.newest = next;
                self.number = number;
                self.is_open = true;
                Ok(())
            }
            Err(failed) => {
                self.broken = true;
                Err(failed)
            }
        }
    }

    /// The number of the newest record, and 0 where there is none.
    pub fn number(&self) -> u64
        ensures { result ≡ self.now.number }
    {
        self.number
    }

    /// How many bytes a slot has.
    pub fn room(&self) -> u64
        ensures { result ≡ 4096 * self.now.slot }
    {
        4096 * self.slot as u64
    }

    /// The slot of the newest record: 0 or 1, and 1 after `first`.
    pub fn newest(&self) -> u32
        ensures { result ≡ slot_number self.now.newest }
    {
        self.newest.number()
    }

    /// Whether a call of the device failed. Then nothing is known of the other slot.
    pub fn broken(&self) -> bool
        ensures { result ≡ self.now.broken }
    {
        self.broken
    }
}
