//! Views, one at a time.
ghost use Rattle.std.specs.Prelude.{◌≡◌, ◌+◌, ◌-◌, ◌*◌, ◌/◌, ◌^◌, ◌<◌, ◌≤◌, true, false, [], length, Option, Some, OnOk, OnErr, IfOk};
ghost use Rattle.ak_host.specs.Files.{Files};
ghost use Rattle.ak_host.specs.Moments.{DiskPasses, IsStable, LeavesNow};
ghost use Rattle.ak_host.specs.Causes.{HasCause};
ghost use Rattle.ak_gate.specs.Fits.{IsSized, Fits, SameElsewhere};
ghost use Rattle.ak_gate.specs.Slots.{Frame};
ghost use Rattle.ak_meta.specs.Contents.{Content, size_of, IsMeta};
ghost use Rattle.ak_record.specs.Records.{frame_for, frame_bytes, HasNewest, Rests};
ghost use Rattle.ak_checkpoint.specs.Bodies.{Carries};
ghost use Rattle.ak_checkpoint.specs.Saving.{IsSaving, IsSavedOver, revealed};

use crate::frame::{spell_front, write_frame};
use ak_gate::Gate;
use ak_host::{Disk, Failed};
use ak_meta::Meta;
use std::alloc::{AllocError, Global};
use std::marker::Model;

/// Takes views: the frame of the next one is spelled into a buffer of one slot, and then written.
#[derive(Drop)]
pub struct Checkpoint {
    gate: Gate,
    buffer: Vec<u8>,
    used: usize,
    number: u64,
    file: u32,
    pending: bool,
    broken: bool,
}

impl Model for Checkpoint {
    ghost use Rattle.std.specs.Prelude.{take};
    ghost use Rattle.ak_checkpoint.specs.Bodies.{Keeps};
    ghost use Rattle.ak_checkpoint.specs.Saving.{Saving};

    ghost Value = { Saving };

    ghost view = { λ c. record { gate = record c.gate { broken = c.broken }; pending = c.pending; number = c.number; bytes = take c.used c.buffer.items; file = c.file } };

    ghost invariant = { λ c. Keeps c.gate c.buffer.items c.used c.number c.pending c.broken };
}

impl Checkpoint {
    /// Takes views behind this gate, and the room of one slot in memory. No other call takes memory.
    pub fn new(alloc: Global, gate: Gate) -> Result<Checkpoint, AllocError>
        ensures { IfOk result (λ c. c ≡ record { gate = gate; pending = false; number = gate.number; bytes = []; file = 0 }) }
    {
        let room = gate.room() as usize;
        let number = gate.number();
        let broken = gate.broken();
        let buffer = vec![in alloc; 0; room]?;
        Ok(Checkpoint {
            gate,
            buffer,
            used: 0,
            number,
            file: 0,
            pending: false,
            broken,
        })
    }

    /// Spells the frame of the next view, whose number is one more than that of the last. Once it is finished, this file is as
    /// it reads, whatever a stop leaves.
    pub fn begin(&mut self, meta: &Meta, file: u32)
        requires none { self.old.pending ≡ false }
        requires fits { 16 + size_of meta.now ≤ 4096 * self.old.gate.slot }
        requires rules { IsMeta meta.now }
        requires last { self.old.number < 2 ^ 64 - 1 }
        ensures { self.new ≡ record self.old { pending = true; number = self.old.number + 1; bytes = frame_bytes (frame_for (self.old.number + 1) meta.now); file = file } }
    {
        self.number += 1;
        self.used = spell_front(self.buffer.as_mut_slice(), self.number, meta);
        self.file = file;
        self.pending = true;
    }

    /// Writes the pending view: the file is synced, and the frame is written into the slot that isn't the newest. At each moment
    /// a stop leaves what it might have left before; or, once the file is synced, the newest record from before or this view. After
    /// it succeeds, a stop leaves this view.
    pub fn finish<D: Disk>(&mut self, disk: &mut D) -> Result<(), Failed>
        requires pending { self.old.pending ≡ true }
        requires whole { self.old.gate.broken ≡ false }
        requires sized { IsSized self.old.gate.slot (D.state disk.old) }
        requires there { self.old.file < length (D.state disk.old).sizes }
        requires volume { 1 ≤ self.old.file }
        requires fits { D.tells → Fits self.old.gate (D.state disk.old) }
        ensures ok { OnOk result (self.new ≡ record self.old { gate = revealed self.old.gate self.old.number; pending = false }) }
        ensures err { OnErr result ((self.new.gate.broken ≡ true) × (self.new.pending ≡ true)) }
        ensures kept { self.new ≡ record self.old { gate = self.new.gate; pending = self.new.pending } }
        ensures slot { self.new.gate.slot ≡ self.old.gate.slot }
        ensures sizes { (D.state disk.new).sizes ≡ (D.state disk.old).sizes }
        ensures cause { HasCause (D.state disk.old).disk_faults (D.state disk.new).disk_faults result }
        ensures port_faults { (D.state disk.new).port_faults ≡ (D.state disk.old).port_faults }
        ensures fits { D.tells → OnOk result (Fits self.new.gate (D.state disk.new)) }
        ensures elsewhere { D.tells → SameElsewhere (D.state disk.old).files (D.state disk.new).files }
        ensures stable { D.tells → OnOk result (IsStable self.old.file (D.state disk.new)) }
        ensures moments { D.tells → (before : Option Frame) (c : Content) → Rests self.old.gate.slot before (D.state disk.old)
            → IsMeta c → c.limits.slot ≡ self.old.gate.slot → self.old.bytes ≡ frame_bytes (frame_for self.old.number c)
            → DiskPasses (IsSaving self.old.gate.slot self.old.file before (frame_for self.old.number c) (D.state disk.old)) (D.state disk.old) (D.state disk.new) }
        ensures saved { D.tells → (before : Option Frame) (c : Content) → Rests self.old.gate.slot before (D.state disk.old)
            → IsMeta c → c.limits.slot ≡ self.old.gate.slot → self.old.bytes ≡ frame_bytes (frame_for self.old.number c)
            → OnOk result ((left : Files) → LeavesNow (D.state disk.new) left
            → IsSavedOver self.old.file (D.state disk.old) left × HasNewest self.old.gate.slot (Some (frame_for self.old.number c)) left) }
        // Whatever the disk held before, only the disk changes.
        ensures passes { D.tells → DiskPasses (λ left. Unit {0}) (D.state disk.old) (D.state disk.new) }
        ensures reads { D.tells → (D.state disk.new).reads ≡ (D.state disk.old).reads }
        // At most two gates are written beside the blocks that the frame reaches.
        ensures writes { D.tells → (D.state disk.new).writes ≤ (D.state disk.old).writes + (2 + (length self.old.bytes + 4095) / 4096) }
    {
        let frame = &self.buffer[..self.used];
        match save(&mut self.gate, disk, self.number, self.file, frame) {
            Ok(()) => {
                self.pending = false;
                Ok(())
            }
            Err(failed) => {
                self.broken = true;
                Err(failed)
            }
        }
    }

    /// Whether a view was begun that isn't finished.
    pub fn pending(&self) -> bool
        ensures { result ≡ self.now.pending }
    {
        self.pending
    }

    /// The number of the view that was begun last; before any, that of the newest record.
    pub fn number(&self) -> u64
        ensures { result ≡ self.now.number }
    {
        self.number
    }

    /// Whether a call of the device failed. Then no view can be taken any more.
    pub fn broken(&self) -> bool
        ensures { result ≡ self.now.gate.broken }
    {
        self.broken
    }

    /// How many bytes a slot has.
    pub fn room(&self) -> u64
        ensures { result ≡ 4096 * self.now.gate.slot }
    {
        self.gate.room()
    }
}

// Syncs the file and then writes the frame.
fn save<D: Disk>(
    gate: &mut Gate,
    disk: &mut D,
    number: u64,
    file: u32,
    frame: &[u8],
) -> Result<(), Failed>
    requires whole { gate.old.broken ≡ false }
    requires sized { IsSized gate.old.slot (D.state disk.old) }
    requires there { file < length (D.state disk.old).sizes }
    requires volume { 1 ≤ file }
    requires room { length frame.now ≤ 4096 * gate.old.slot }
    requires above { gate.old.number < number }
    requires carries { Carries number frame.now }
    requires fits { D.tells → Fits gate.old (D.state disk.old) }
    ensures ok { OnOk result (gate.new ≡ revealed gate.old number) }
    ensures slot { gate.new.slot ≡ gate.old.slot }
    ensures number { OnErr result (gate.new.number ≡ gate.old.number) }
    ensures sizes { (D.state disk.new).sizes ≡ (D.state disk.old).sizes }
    ensures cause { HasCause (D.state disk.old).disk_faults (D.state disk.new).disk_faults result }
    ensures port_faults { (D.state disk.new).port_faults ≡ (D.state disk.old).port_faults }
    ensures fits { D.tells → OnOk result (Fits gate.new (D.state disk.new)) }
    ensures elsewhere { D.tells → SameElsewhere (D.state disk.old).files (D.state disk.new).files }
    ensures stable { D.tells → OnOk result (IsStable file (D.state disk.new)) }
    ensures moments { D.tells → (before : Option Frame) (c : Content) → Rests gate.old.slot before (D.state disk.old)
        → IsMeta c → c.limits.slot ≡ gate.old.slot → frame.now ≡ frame_bytes (frame_for number c)
        → DiskPasses (IsSaving gate.old.slot file before (frame_for number c) (D.state disk.old)) (D.state disk.old) (D.state disk.new) }
    ensures saved { D.tells → (before : Option Frame) (c : Content) → Rests gate.old.slot before (D.state disk.old)
        → IsMeta c → c.limits.slot ≡ gate.old.slot → frame.now ≡ frame_bytes (frame_for number c)
        → OnOk result ((left : Files) → LeavesNow (D.state disk.new) left
        → IsSavedOver file (D.state disk.old) left × HasNewest gate.old.slot (Some (frame_for number c)) left) }
    ensures passes { D.tells → DiskPasses (λ left. Unit {0}) (D.state disk.old) (D.state disk.new) }
    ensures reads { D.tells → (D.state disk.new).reads ≡ (D.state disk.old).reads }
    ensures writes { D.tells → (D.state disk.new).writes ≤ (D.state disk.old).writes + (2 + (length frame.now + 4095) / 4096) }
{
    disk.sync(file)?;
    write_frame(gate, disk, number, frame)
}
