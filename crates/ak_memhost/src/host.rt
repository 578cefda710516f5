//! A host in memory.
ghost use Rattle.std.specs.Prelude.{◌↔◌, IsTrue, IsErr, Contains, ◌≡◌, ◌⊎◌, ℕ, ◌<◌, ◌≤◌, ◌+◌, ◌-◌, ◌^◌, ◌++◌, ◌∷◌, [], min, length, replicate, slice_set, slice_index_or, All, IfOk, OnOk, OnErr};
ghost use Rattle.ak_host.specs.Causes.{HasCause, Rose};
ghost use Rattle.ak_host.specs.Files.{AreBlocks, IsBlock, with_item};
ghost use Rattle.ak_memhost.specs.Turns.{IsMemTurn};
ghost use Rattle.ak_memhost.specs.Drive.{Drive, AllFit, zero_cell, contents, sizes, cells_at, with_cell, with_settled};
ghost use Rattle.ak_memhost.specs.Record.{start, after, Current, drive_after, drive_after_all};
ghost use Rattle.ak_memhost.specs.State.{state_of, FailsAt, WriteBlocks, block_of, reads_in, writes_in};

mod image;
mod start;
mod telling;

use crate::call::copy_bytes;
use crate::drive::copy_files;
use crate::{Call, Cell, Heard, MemFile, MemTurn, SavedBlock};
use ak_base::Bytes;
use ak_host::{Block, Disk, Failed, Host, Outside, Ports, Turn};
use std::alloc::{AllocError, Global};
use thiserror::Error;

/// Why there is no image.
#[derive(Clone, Copy, Debug, PartialEq, Eq, Drop, Error)]
pub enum ImageError {
    /// There is no memory.
    #[error("no memory for the image")]
    Memory,
    /// The moment is past the last.
    #[error("no such moment")]
    NoMoment,
}

// How many calls are recorded at most. A call past them is refused.
const MAX_CALLS: usize = 1 << 40;

/// A host in memory. It keeps the files as they were at first and each call since, from which its moments follow.
#[derive(Drop)]
pub struct MemHost {
    alloc: Global,
    base: Vec<MemFile>,
    files: Vec<MemFile>,
    calls: Vec<Call>,
    turns: Vec<MemTurn>,
    next: usize,
    fails: Vec<u64>,
    heard: Heard,
    disk_faults: u64,
    port_faults: u64,
    refused: u64,
    ghost current: { Current turns.items files.items next heard (after turns.items (start base.items) calls.items) },
    ghost base_blocks: { AreBlocks (contents base.items) },
    ghost written: { WriteBlocks calls.items },
    ghost few_calls: { length calls.items ≤ 2 ^ 40 },
    ghost valid: { All IsMemTurn turns.items },
    ghost few_files: { length (sizes files.items) < 2 ^ 32 },
    ghost few_blocks: { AllFit (sizes files.items) },
}

// Changes a block that is there.
fn put_cell(files: &mut Vec<MemFile>, file: u32, index: u32, cell: Cell)
    ensures { files.new.items ≡ with_cell files.old.items file index cell }
{
    if (file as usize) < files.len() {
        let cells = &mut files[file as usize];
        cells.put(index as usize, cell);
    }
}

// Settles a file that is there.
fn settle_file(files: &mut Vec<MemFile>, file: u32)
    ensures { files.new.items ≡ with_settled files.old.items file }
{
    if (file as usize) < files.len() {
        let cells = &mut files[file as usize];
        cells.settle();
    }
}

// Puts a file in its place, or at the end.
fn put_file(files: &mut Vec<MemFile>, file: u32, new: MemFile) -> Result<(), AllocError>
    ensures ok { OnOk result (files.new.items ≡ with_item files.old.items file new) }
    ensures err { OnErr result (files.new.items ≡ files.old.items) }
{
    if (file as usize) < files.len() {
        files[file as usize] = new;
    } else {
        files.push(new)?;
    }
    Ok(())
}

// Makes a recorded call again.
fn replay(alloc: Global, files: &mut Vec<MemFile>, call: &Call) -> Result<(), AllocError>
    ensures { OnOk result (files.new.items ≡ drive_after files.old.items call.now) }
{
    match call {
        Call::Make { file, blocks } => {
            let new = MemFile::zeros(alloc, *blocks)?;
            put_file(files, *file, new)?;
        }
        Call::Write { file, index, block } => {
            let cell = Cell {
                block: block.get(),
                synced: false,
            };
            put_cell(files, *file, *index, cell);
        }
        Call::Sync { file } => settle_file(files, *file),
        Call::Read => {}
        Call::Turn => {}
        Call::Reply { port: _, bytes: _ } => {}
        Call::Failure => {}
    }
    Ok(())
}

// The files after recorded calls.
fn replay_all(alloc: Global, base: &[MemFile], calls: &[Call]) -> Result<Vec<MemFile>, AllocError>
    ensures { IfOk result (λ files. files.items ≡ drive_after_all base.now calls.now) }
{
    let mut files = copy_files(alloc, base)?;
    for call in calls {
        replay(alloc, &mut files, call)?;
    }
    Ok(files)
}

impl Outside for MemHost {
    ghost tells = { Unit {0} };

    ghost state = { λ host. state_of host.turns.items (start host.base.items) host.calls.items host.disk_faults host.port_faults };
}

// Whether the next call is one that is to fail.
fn is_to_fail(fails: &[u64], next: usize) -> bool
    ensures { IsTrue result ↔ Contains fails.now next }
{
    let number = next as u64;
    fails.iter().any(|n| *n == number)
}

// The number of the next turn, which stands still past the last.
fn next_after(next: usize, turns: usize) -> usize
    requires { next ≤ turns }
    ensures { result ≡ min (next + 1) turns }
{
    if next < turns { next + 1 } else { next }
}

// Counts a fault.
fn fault(faults: &mut u64) -> Failed
    ensures later { faults.old ≤ faults.new }
    ensures rose { Rose faults.old faults.new }
{
    *faults = faults.saturating_add(1);
    Failed
}

// Counts a fault where a call is to fail.
fn fault_if(fails: bool, faults: &mut u64) -> Result<(), Failed>
    ensures cause { HasCause faults.old faults.new result }
    ensures same { OnOk result (faults.new ≡ faults.old) }
    ensures fails { IsTrue fails ↔ IsErr result }
{
    if fails { Err(fault(faults)) } else { Ok(()) }
}

// Counts a fault for want of memory.
fn refuse(faults: &mut u64, refused: &mut u64) -> Failed
    ensures later { faults.old ≤ faults.new }
    ensures rose { Rose faults.old faults.new }
    ensures refused { Rose refused.old refused.new }
{
    *refused = refused.saturating_add(1);
    fault(faults)
}

// Records a call, or refuses it for want of memory.
fn record(
    calls: &mut Vec<Call>,
    call: Call,
    faults: &mut u64,
    refused: &mut u64,
) -> Result<(), Failed>
    ensures ok { OnOk result (calls.new.items ≡ calls.old.items ++ call ∷ []) }
    ensures err { OnErr result (calls.new.items ≡ calls.old.items) }
    ensures cause { HasCause faults.old faults.new result }
    ensures same { OnOk result ((faults.new ≡ faults.old) × (refused.new ≡ refused.old)) }
    ensures refused { OnErr result (Rose refused.old refused.new) }
    ensures written { IsBlock (block_of call) → WriteBlocks calls.old.items → WriteBlocks calls.new.items }
    ensures few { length calls.old.items ≤ 2 ^ 40 → length calls.new.items ≤ 2 ^ 40 }
{
    if calls.len() >= MAX_CALLS {
        return Err(refuse(faults, refused));
    }
    match calls.push(call) {
        Ok(()) => Ok(()),
        Err(_) => Err(refuse(faults, refused)),
    }
}

// Records a call that is to fail and changes nothing, or refuses it for want of memory.
fn record_failure(calls: &mut Vec<Call>, faults: &mut u64, refused: &mut u64) -> Failed
    ensures calls { FailsAt calls.old.items calls.new.items refused.old refused.new }
    ensures later { faults.old ≤ faults.new }
    ensures rose { Rose faults.old faults.new }
    ensures few { length calls.old.items ≤ 2 ^ 40 → length calls.new.items ≤ 2 ^ 40 }
{
    if calls.len() >= MAX_CALLS {
        return refuse(faults, refused);
    }
    match calls.push(Call::Failure) {
        Ok(()) => fault(faults),
        Err(_) => refuse(faults, refused),
    }
}

// A file of zero blocks.
fn new_file(
    alloc: Global,
    blocks: u32,
    faults: &mut u64,
    refused: &mut u64,
) -> Result<MemFile, Failed>
    ensures ok { IfOk result (λ file. file ≡ replicate blocks zero_cell) }
    ensures cause { HasCause faults.old faults.new result }
    ensures same { OnOk result ((faults.new ≡ faults.old) × (refused.new ≡ refused.old)) }
    ensures refused { OnErr result (Rose refused.old refused.new) }
{
    match MemFile::zeros(alloc, blocks) {
        Ok(file) => Ok(file),
        Err(_) => Err(refuse(faults, refused)),
    }
}

// A copy of a block.
fn saved_block(
    alloc: Global,
    from: &Block,
    faults: &mut u64,
    refused: &mut u64,
) -> Result<SavedBlock, Failed>
    ensures ok { IfOk result (λ saved. saved ≡ from.now) }
    ensures block { IsBlock from.now }
    ensures cause { HasCause faults.old faults.new result }
    ensures same { OnOk result ((faults.new ≡ faults.old) × (refused.new ≡ refused.old)) }
    ensures refused { OnErr result (Rose refused.old refused.new) }
{
    match SavedBlock::of(alloc, from) {
        Ok(saved) => Ok(saved),
        Err(_) => Err(refuse(faults, refused)),
    }
}

// A copy of bytes.
fn saved_bytes(
    alloc: Global,
    bytes: &[u8],
    faults: &mut u64,
    refused: &mut u64,
) -> Result<Bytes, Failed>
    ensures ok { IfOk result (λ saved. saved ≡ bytes.now) }
    ensures cause { HasCause faults.old faults.new result }
    ensures same { OnOk result ((faults.new ≡ faults.old) × (refused.new ≡ refused.old)) }
    ensures refused { OnErr result (Rose refused.old refused.new) }
{
    match copy_bytes(alloc, bytes) {
        Ok(saved) => Ok(saved),
        Err(_) => Err(refuse(faults, refused)),
    }
}

impl Disk for MemHost {
    ghost use Rattle.ak_host.specs.Calls.{Follows, CountsOne, SameDisk};
    ghost use Rattle.ak_host.specs.Files.{block_at, with_block, zero_blocks, MayBeTorn, Made};
    ghost use Rattle.ak_host.specs.Moments.{LeavesNow, IsStable, DiskPasses};
    ghost use Rattle.ak_memhost.specs.Numbers.{IsNumbered};
    ghost use Rattle.std.specs.Prelude.{slice_index};
    ghost use Rattle.ak_memhost.specs.Host.{host_state, turns_of, numbers_of};
    ghost use Rattle.ak_memhost.specs.Laws.{leaves_contents, leaves_blocks, sizes-contents};

    ghost leaves_files = { λ told host. leaves_contents host.turns.items (start host.base.items) host.calls.items host.disk_faults host.port_faults };

    ghost leaves_blocks = { λ told host. leaves_blocks host.turns.items host.base.items host.calls.items host.disk_faults host.port_faults host.base_blocks host.written };

    ghost sized = { λ told host. sizes-contents (after host.turns.items (start host.base.items) host.calls.items).drive };

    fn files(&self) -> u32 {
        self.files.len() as u32
    }

    fn blocks(&self, file: u32) -> u32 {
        self.files[file as usize].len() as u32
    }

    fn make(&mut self, file: u32, blocks: u32) -> Result<(), Failed>
        requires next { file ≤ length (host_state self.old).sizes }
        requires room { file < 2 ^ 32 - 1 }
        requires some { 1 ≤ blocks }
        ensures sizes { OnOk result ((host_state self.new).sizes ≡ with_item (host_state self.old).sizes file blocks) }
        ensures sizes_err { OnErr result (((host_state self.new).sizes ≡ (host_state self.old).sizes)
            ⊎ ((host_state self.new).sizes ≡ with_item (host_state self.old).sizes file blocks)) }
        ensures cause { HasCause (host_state self.old).disk_faults (host_state self.new).disk_faults result }
        ensures port_faults { (host_state self.new).port_faults ≡ (host_state self.old).port_faults }
        ensures files { OnOk result
            ((host_state self.new).files ≡ with_item (host_state self.old).files file (zero_blocks blocks)) }
        ensures files_err { OnErr result
            (Made file blocks (host_state self.old).files (host_state self.new).files) }
        ensures reads { (host_state self.new).reads ≡ (host_state self.old).reads }
        ensures writes { (host_state self.new).writes ≡ (host_state self.old).writes }
        ensures stable { OnOk result (IsStable file (host_state self.new)) }
        // Until it is done, a stop leaves the file as it was or the whole new one.
        ensures moments { DiskPasses (Follows (Made file blocks) (host_state self.old)) (host_state self.old) (host_state self.new) }

        // Where it fails, the file is as it was before.
        ensures failed { OnErr result ((host_state self.new).files ≡ (host_state self.old).files) }
        ensures turns { turns_of self.new ≡ turns_of self.old }
        ensures numbered { IsNumbered (numbers_of self.old) (numbers_of self.new) (host_state self.old).disk_faults (host_state self.new).disk_faults result }
    {
        if is_to_fail(&self.fails, self.calls.len()) {
            return Err(record_failure(&mut self.calls, &mut self.disk_faults, &mut self.refused));
        }
        let new = new_file(self.alloc, blocks, &mut self.disk_faults, &mut self.refused)?;
        let call = Call::Make { file, blocks };
        record(
            &mut self.calls,
            call,
            &mut self.disk_faults,
            &mut self.refused,
        )?;
        match put_file(&mut self.files, file, new) {
            Ok(()) => Ok(()),
            Err(_) => {
                let _ = self.calls.pop();
                Err(refuse(&mut self.disk_faults, &mut self.refused))
            }
        }
    }

    fn read(&mut self, file: u32, index: u32, into: &mut Block) -> Result<(), Failed>
        requires file { file < length (host_state self.old).sizes }
        requires index { index < slice_index (host_state self.old).sizes file }
        ensures sizes { (host_state self.new).sizes ≡ (host_state self.old).sizes }
        ensures cause { HasCause (host_state self.old).disk_faults (host_state self.new).disk_faults result }
        ensures port_faults { (host_state self.new).port_faults ≡ (host_state self.old).port_faults }
        ensures block { OnOk result (into.new ≡ block_at (host_state self.old).files file index) }
        ensures files { (host_state self.new).files ≡ (host_state self.old).files }
        ensures reads { CountsOne (host_state self.old).reads (host_state self.new).reads result }
        ensures writes { (host_state self.new).writes ≡ (host_state self.old).writes }
        ensures moments { DiskPasses (LeavesNow (host_state self.old)) (host_state self.old) (host_state self.new) }

        ensures turns { turns_of self.new ≡ turns_of self.old }
        ensures numbered { IsNumbered (numbers_of self.old) (numbers_of self.new) (host_state self.old).disk_faults (host_state self.new).disk_faults result }
    {
        if is_to_fail(&self.fails, self.calls.len()) {
            return Err(record_failure(&mut self.calls, &mut self.disk_faults, &mut self.refused));
        }
        record(
            &mut self.calls,
            Call::Read,
            &mut self.disk_faults,
            &mut self.refused,
        )?;
        let block = self.files[file as usize].get(index as usize).block;
        *into = block;
        Ok(())
    }

    fn write(&mut self, file: u32, index: u32, from: &Block) -> Result<(), Failed>
        requires file { file < length (host_state self.old).sizes }
        requires index { index < slice_index (host_state self.old).sizes file }
        ensures sizes { (host_state self.new).sizes ≡ (host_state self.old).sizes }
        ensures cause { HasCause (host_state self.old).disk_faults (host_state self.new).disk_faults result }
        ensures port_faults { (host_state self.new).port_faults ≡ (host_state self.old).port_faults }
        ensures files { OnOk result
            ((host_state self.new).files ≡ with_block (host_state self.old).files file index from.now) }
        ensures files_err { OnErr result
            (MayBeTorn file index (host_state self.old).files (host_state self.new).files) }
        ensures reads { (host_state self.new).reads ≡ (host_state self.old).reads }
        ensures writes { CountsOne (host_state self.old).writes (host_state self.new).writes result }
        ensures moments { DiskPasses (Follows (MayBeTorn file index) (host_state self.old)) (host_state self.old) (host_state self.new) }

        // Where it fails by its number, it has still written.
        ensures written { (numbers_of self.new).next ≡ (numbers_of self.old).next + 1 →
            (host_state self.new).files ≡ with_block (host_state self.old).files file index from.now }
        // Where it is refused, it has not.
        ensures refused { (numbers_of self.new).next ≡ (numbers_of self.old).next → (host_state self.new).files ≡ (host_state self.old).files }
        ensures turns { turns_of self.new ≡ turns_of self.old }
        ensures numbered { IsNumbered (numbers_of self.old) (numbers_of self.new) (host_state self.old).disk_faults (host_state self.new).disk_faults result }
    {
        let fails = is_to_fail(&self.fails, self.calls.len());
        let block = saved_block(self.alloc, from, &mut self.disk_faults, &mut self.refused)?;
        let call = Call::Write { file, index, block };
        record(
            &mut self.calls,
            call,
            &mut self.disk_faults,
            &mut self.refused,
        )?;
        let cell = Cell {
            block: *from,
            synced: false,
        };
        put_cell(&mut self.files, file, index, cell);
        fault_if(fails, &mut self.disk_faults)
    }

    fn sync(&mut self, file: u32) -> Result<(), Failed>
        requires { file < length (host_state self.old).sizes }
        ensures sizes { (host_state self.new).sizes ≡ (host_state self.old).sizes }
        ensures cause { HasCause (host_state self.old).disk_faults (host_state self.new).disk_faults result }
        ensures port_faults { (host_state self.new).port_faults ≡ (host_state self.old).port_faults }
        ensures disk { SameDisk (host_state self.old) (host_state self.new) }
        ensures stable { OnOk result (IsStable file (host_state self.new)) }
        ensures moments { DiskPasses (LeavesNow (host_state self.old)) (host_state self.old) (host_state self.new) }

        ensures turns { turns_of self.new ≡ turns_of self.old }
        ensures numbered { IsNumbered (numbers_of self.old) (numbers_of self.new) (host_state self.old).disk_faults (host_state self.new).disk_faults result }
    {
        if is_to_fail(&self.fails, self.calls.len()) {
            return Err(record_failure(&mut self.calls, &mut self.disk_faults, &mut self.refused));
        }
        let call = Call::Sync { file };
        record(
            &mut self.calls,
            call,
            &mut self.disk_faults,
            &mut self.refused,
        )?;
        settle_file(&mut self.files, file);
        Ok(())
    }
}

impl Ports for MemHost {
    ghost use Rattle.ak_host.specs.Calls.{SameDisk};
    ghost use Rattle.ak_host.specs.Marks.{taken, IsTurn, after_turn, after_reply};
    ghost use Rattle.ak_host.specs.Moments.{PortPasses, mark_now};
    ghost use Rattle.ak_memhost.specs.Numbers.{IsNumbered};
    ghost use Rattle.ak_memhost.specs.Host.{host_state, next_turn, turns_of, numbers_of};

    fn turn(&mut self, into: &mut Block) -> Result<Turn, Failed>
        ensures sizes { (host_state self.new).sizes ≡ (host_state self.old).sizes }
        ensures cause { HasCause (host_state self.old).port_faults (host_state self.new).port_faults result }
        ensures disk_faults { (host_state self.new).disk_faults ≡ (host_state self.old).disk_faults }
        ensures turn { IfOk result IsTurn }
        ensures given { IfOk result (λ turn. mark_now (host_state self.new)
            ≡ after_turn (mark_now (host_state self.old)) (taken turn into.new)) }
        ensures given_err { OnErr result (mark_now (host_state self.new) ≡ mark_now (host_state self.old)) }
        ensures disk { SameDisk (host_state self.old) (host_state self.new) }
        ensures moments { PortPasses (λ mark. (mark ≡ mark_now (host_state self.old)) ⊎ (mark ≡ mark_now (host_state self.new)))
            (host_state self.old) (host_state self.new) }

        // What is given is the next turn of the list.
        ensures next { IfOk result (λ turn. taken turn into.new ≡ next_turn self.old) }
        ensures turns { turns_of self.new ≡ turns_of self.old }
        ensures numbered { IsNumbered (numbers_of self.old) (numbers_of self.new) (host_state self.old).port_faults (host_state self.new).port_faults result }
    {
        if is_to_fail(&self.fails, self.calls.len()) {
            return Err(record_failure(&mut self.calls, &mut self.port_faults, &mut self.refused));
        }
        record(
            &mut self.calls,
            Call::Turn,
            &mut self.port_faults,
            &mut self.refused,
        )?;
        let turn = MemTurn::give(&self.turns, self.next, into);
        self.next = next_after(self.next, self.turns.len());
        Ok(turn)
    }

    fn reply(&mut self, port: u32, bytes: &[u8]) -> Result<(), Failed>
        ensures sizes { (host_state self.new).sizes ≡ (host_state self.old).sizes }
        ensures cause { HasCause (host_state self.old).port_faults (host_state self.new).port_faults result }
        ensures disk_faults { (host_state self.new).disk_faults ≡ (host_state self.old).disk_faults }
        ensures told { OnOk result (mark_now (host_state self.new)
            ≡ after_reply (mark_now (host_state self.old)) port bytes.now) }
        ensures told_err { OnErr result (mark_now (host_state self.new) ≡ mark_now (host_state self.old)) }
        ensures disk { SameDisk (host_state self.old) (host_state self.new) }
        ensures moments { PortPasses (λ mark. (mark ≡ mark_now (host_state self.old)) ⊎ (mark ≡ mark_now (host_state self.new)))
            (host_state self.old) (host_state self.new) }

        ensures turns { turns_of self.new ≡ turns_of self.old }
        ensures numbered { IsNumbered (numbers_of self.old) (numbers_of self.new) (host_state self.old).port_faults (host_state self.new).port_faults result }
    {
        if is_to_fail(&self.fails, self.calls.len()) {
            return Err(record_failure(&mut self.calls, &mut self.port_faults, &mut self.refused));
        }
        let copy = saved_bytes(self.alloc, bytes, &mut self.port_faults, &mut self.refused)?;
        let call = Call::Reply { port, bytes: copy };
        record(
            &mut self.calls,
            call,
            &mut self.port_faults,
            &mut self.refused,
        )?;
        match self.heard.tell(self.alloc, port, bytes) {
            Ok(()) => Ok(()),
            Err(_) => {
                let _ = self.calls.pop();
                Err(refuse(&mut self.port_faults, &mut self.refused))
            }
        }
    }
}

impl Host for MemHost {}
