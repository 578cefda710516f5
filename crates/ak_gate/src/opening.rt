//! Reading the slots of file 0.
ghost use Rattle.std.specs.Prelude.{◌≡◌, ◌⊎◌, ◌<◌, ◌≤◌, ◌+◌, ◌-◌, ◌*◌, ◌^◌, ◌++◌, [], true, false, length, slice_index, take, drop, min, IfOk, OnOk, OnErr, MatchOption, IfSome, IfErr};
ghost use Rattle.ak_host.specs.Causes.{Rose};
ghost use Rattle.ak_host.specs.Files.{block_at, file_at};
ghost use Rattle.ak_host.specs.Moments.{DiskPasses, LeavesNow};
ghost use Rattle.ak_gate.specs.Fits.{IsSized};
ghost use Rattle.ak_gate.specs.Opening.{IsHeadOf, IsBadSlot, IsCause, IsFound, OnlyRead, GoesOn, newer_of};
ghost use Rattle.ak_gate.specs.Slots.{gate_index, body_index, gate_at, body_at, is_open, number_of, joined, frame_of};

use crate::half::Half;
use ak_base::{Bytes, Stop};
use ak_host::{Block, Disk};
use std::alloc::Global;

/// The head of an open slot's frame, and the first block of its body.
#[derive(Drop)]
pub(crate) struct Opened {
    pub length: u64,
    pub number: u64,
    pub block: Block,
}

// The number that eight bytes of a block spell.
fn number_at(block: &Block, from: usize) -> u64
    requires { from + 8 ≤ 4096 }
    ensures { result ≡ number_of (take 8 (drop from block.now)) }
{
    block[from] as u64
        + 0x100 * block[from + 1] as u64
        + 0x1_0000 * block[from + 2] as u64
        + 0x100_0000 * block[from + 3] as u64
        + 0x1_0000_0000 * block[from + 4] as u64
        + 0x100_0000_0000 * block[from + 5] as u64
        + 0x1_0000_0000_0000 * block[from + 6] as u64
        + 0x100_0000_0000_0000 * block[from + 7] as u64
}

// A block of file 0.
fn read_block<D: Disk>(disk: &mut D, index: u32) -> Result<Block, Stop>
    requires there { 0 < length (D.state disk.old).sizes }
    requires inside { index < slice_index (D.state disk.old).sizes 0 }
    ensures sizes { (D.state disk.new).sizes ≡ (D.state disk.old).sizes }
    ensures later { (D.state disk.old).disk_faults ≤ (D.state disk.new).disk_faults }
    ensures port_faults { (D.state disk.new).port_faults ≡ (D.state disk.old).port_faults }
    ensures err { OnErr result ((result ≡ Err Stop.Disk) × Rose (D.state disk.old).disk_faults (D.state disk.new).disk_faults) }
    ensures block { D.tells → IfOk result (λ block. block ≡ block_at (D.state disk.old).files 0 index) }
    ensures long { IfOk result (λ block. length block ≡ 4096) }
    ensures only { D.tells → OnlyRead 1 (D.state disk.old) (D.state disk.new) }
{
    let mut block = [0; 4096];
    match disk.read(0, index, &mut block) {
        Ok(()) => Ok(block),
        Err(_) => Err(Stop::Disk),
    }
}

// The head of a slot, and none where its gate is closed.
pub(crate) fn read_slot<D: Disk>(
    disk: &mut D,
    slot: u32,
    half: Half,
) -> Result<Option<Opened>, Stop>
    requires some { 1 ≤ slot }
    requires sized { IsSized slot (D.state disk.old) }
    ensures sizes { (D.state disk.new).sizes ≡ (D.state disk.old).sizes }
    ensures later { (D.state disk.old).disk_faults ≤ (D.state disk.new).disk_faults }
    ensures port_faults { (D.state disk.new).port_faults ≡ (D.state disk.old).port_faults }
    ensures err { OnErr result (((result ≡ Err Stop.Disk) × Rose (D.state disk.old).disk_faults (D.state disk.new).disk_faults)
        ⊎ ((result ≡ Err (Stop.Damaged 0 (body_index slot half))) × (D.tells → IsBadSlot slot half (file_at (D.state disk.old).files 0)))) }
    ensures head { D.tells → IfOk result (λ head. MatchOption head
        (is_open (gate_at half (file_at (D.state disk.old).files 0)) ≡ false)
        (IsHeadOf slot half (file_at (D.state disk.old).files 0))) }
    ensures short { IfOk result (λ head. IfSome head (λ head. 16 + head.length ≤ 4096 * slot)) }
    ensures only { D.tells → OnlyRead 2 (D.state disk.old) (D.state disk.new) }
{
    let gate = read_block(disk, half.gate_index())?;
    if gate[0] != 1 {
        return Ok(None);
    }
    let index = half.body_index(slot);
    let block = read_block(disk, index)?;
    let length = number_at(&block, 0);
    let number = number_at(&block, 8);
    if length > 4096 * slot as u64 - 16 {
        return Err(Stop::Damaged {
            file: 0,
            block: index,
        });
    }
    Ok(Some(Opened {
        length,
        number,
        block,
    }))
}

// The rest of a payload, of which so many bytes stand at the front of this block and of those behind it.
fn extend_by(
    payload: &mut Bytes,
    alloc: Global,
    block: &Block,
    from: usize,
    left: usize,
) -> Result<usize, Stop>
    requires { from ≤ 4096 }
    ensures ok { IfOk result (λ rest. (payload.new ≡ payload.old ++ take (min left (4096 - from)) (drop from block.now)) × (rest ≡ left - min left (4096 - from))) }
    ensures short { IfOk result (λ rest. length payload.new + rest ≤ length payload.old + left) }
    ensures err { OnErr result (result ≡ Err Stop.Memory) }
{
    let count = left.min(4096 - from);
    match payload.extend(alloc, &block[from..from + count]) {
        Ok(()) => Ok(left - count),
        Err(_) => Err(Stop::Memory),
    }
}

// What stands of a payload in a block, where bytes of it are left. Gives how many are left then.
fn read_more<D: Disk>(
    payload: &mut Bytes,
    alloc: Global,
    disk: &mut D,
    index: u32,
    left: usize,
) -> Result<usize, Stop>
    requires there { 0 < length (D.state disk.old).sizes }
    requires inside { index < slice_index (D.state disk.old).sizes 0 }
    ensures sizes { (D.state disk.new).sizes ≡ (D.state disk.old).sizes }
    ensures later { (D.state disk.old).disk_faults ≤ (D.state disk.new).disk_faults }
    ensures port_faults { (D.state disk.new).port_faults ≡ (D.state disk.old).port_faults }
    ensures err { OnErr result ((result ≡ Err Stop.Memory)
        ⊎ ((result ≡ Err Stop.Disk) × Rose (D.state disk.old).disk_faults (D.state disk.new).disk_faults)) }
    ensures goes_on { D.tells → IfOk result (GoesOn payload.old left (block_at (D.state disk.old).files 0 index) payload.new) }
    ensures short { IfOk result (λ rest. length payload.new + rest ≤ length payload.old + left) }
    ensures only { D.tells → OnlyRead 1 (D.state disk.old) (D.state disk.new) }
{
    if left == 0 {
        return Ok(0);
    }
    let block = read_block(disk, index)?;
    extend_by(payload, alloc, &block, 0, left)
}

/// The payload of an open slot.
pub(crate) fn read_payload<D: Disk>(
    alloc: Global,
    disk: &mut D,
    slot: u32,
    half: Half,
    head: &Opened,
) -> Result<Bytes, Stop>
    requires some { 1 ≤ slot }
    requires sized { IsSized slot (D.state disk.old) }
    requires head { D.tells → IsHeadOf slot half (file_at (D.state disk.old).files 0) head.now }
    ensures sizes { (D.state disk.new).sizes ≡ (D.state disk.old).sizes }
    ensures later { (D.state disk.old).disk_faults ≤ (D.state disk.new).disk_faults }
    ensures port_faults { (D.state disk.new).port_faults ≡ (D.state disk.old).port_faults }
    ensures err { OnErr result ((result ≡ Err Stop.Memory)
        ⊎ ((result ≡ Err Stop.Disk) × Rose (D.state disk.old).disk_faults (D.state disk.new).disk_faults)) }
    ensures payload { D.tells → IfOk result (λ payload. payload ≡ (frame_of (body_at slot half (file_at (D.state disk.old).files 0))).payload) }
    ensures short { IfOk result (λ payload. length payload ≤ head.now.length) }
    ensures only { D.tells → OnlyRead (slot - 1) (D.state disk.old) (D.state disk.new) }
{
    let mut payload = Bytes::new(alloc);
    let mut left = extend_by(&mut payload, alloc, &head.block, 16, head.length as usize)?;
    let start = half.body_index(slot);
    for i in 1..slot {
        left = read_more(&mut payload, alloc, disk, start + i, left)?;
    }
    Ok(payload)
}

/// The slot of the newest record, its head, and whether the other slot's gate is open.
#[derive(Drop)]
pub(crate) struct Found {
    pub half: Half,
    pub head: Opened,
    pub other_open: bool,
}

// The slot with the greater number, and the first on equal numbers.
fn newer(first: Option<Opened>, second: Option<Opened>) -> Option<Found>
    ensures { result ≡ newer_of first second }
{
    match (first, second) {
        (Some(first), Some(second)) => {
            if second.number <= first.number {
                Some(Found {
                    half: Half::First,
                    head: first,
                    other_open: true,
                })
            } else {
                Some(Found {
                    half: Half::Second,
                    head: second,
                    other_open: true,
                })
            }
        }
        (Some(first), None) => Some(Found {
            half: Half::First,
            head: first,
            other_open: false,
        }),
        (None, Some(second)) => Some(Found {
            half: Half::Second,
            head: second,
            other_open: false,
        }),
        (None, None) => None,
    }
}

/// The slot of the newest record. The frames of both open gates are tested, the first slot's first.
pub(crate) fn read_found<D: Disk>(disk: &mut D, slot: u32) -> Result<Found, Stop>
    requires some { 1 ≤ slot }
    requires sized { IsSized slot (D.state disk.old) }
    ensures sizes { (D.state disk.new).sizes ≡ (D.state disk.old).sizes }
    ensures later { (D.state disk.old).disk_faults ≤ (D.state disk.new).disk_faults }
    ensures port_faults { (D.state disk.new).port_faults ≡ (D.state disk.old).port_faults }
    ensures err { IfErr result (IsCause slot D.tells (D.state disk.old) (D.state disk.new)) }
    ensures found { D.tells → IfOk result (IsFound slot (file_at (D.state disk.old).files 0)) }
    ensures short { IfOk result (λ found. 16 + found.head.length ≤ 4096 * slot) }
    ensures only { D.tells → OnlyRead 4 (D.state disk.old) (D.state disk.new) }
{
    let first = read_slot(disk, slot, Half::First)?;
    let second = read_slot(disk, slot, Half::Second)?;
    match newer(first, second) {
        Some(found) => Ok(found),
        None => Err(Stop::NoStore),
    }
}
