//! How a host in memory starts.
ghost use Rattle.std.specs.Prelude.{◌≡◌, ◌↔◌, ◌<◌, [], All, IfOk, OnOk, OnErr, length, slice_index};
ghost use Rattle.ak_host.specs.Files.{Files, with_block};
ghost use Rattle.ak_host.specs.Moments.{LeavesNow};
ghost use Rattle.ak_memhost.specs.Turns.{IsMemTurn};
ghost use Rattle.ak_memhost.specs.Fresh.{IsFresh, IsPlanted, IsSameBut};
ghost use Rattle.ak_memhost.specs.Host.{host_state, turns_of, numbers_of};

use super::{MemHost, put_cell};
use crate::drive::{block_of, copy_files};
use crate::{Cell, Heard, MemTurn};
use ak_host::Block;
use std::alloc::{AllocError, Global};

impl MemHost {
    /// A host without files, which gives these turns, and whose calls of these numbers fail.
    pub fn new(alloc: Global, turns: &[MemTurn], fails: &[u64]) -> Result<MemHost, AllocError>
        requires { All IsMemTurn turns.now }
        ensures fresh { IfOk result (λ host. IsFresh (host_state host)) }
        ensures files { IfOk result (λ host. (host_state host).files ≡ []) }
        ensures turns { IfOk result (λ host. turns_of host ≡ turns.now) }
        ensures numbers { IfOk result (λ host. numbers_of host ≡ record { fails = fails.now; next = 0; refused = 0 }) }
    {
        let turns = MemTurn::copy_all(alloc, turns)?;
        let fails = fails.to_vec(alloc)?;
        Ok(MemHost {
            alloc,
            base: Vec::new(alloc),
            files: Vec::new(alloc),
            calls: Vec::new(alloc),
            turns,
            next: 0,
            fails,
            heard: Heard::new(alloc),
            disk_faults: 0,
            port_faults: 0,
            refused: 0,
        })
    }

    /// New turns, and new numbers of calls that fail. The disk and what is unsynced stay, and all else is forgotten.
    pub fn load(
        &mut self,
        alloc: Global,
        turns: &[MemTurn],
        fails: &[u64],
    ) -> Result<(), AllocError>
        requires { All IsMemTurn turns.now }
        ensures fresh { OnOk result (IsFresh (host_state self.new)) }
        ensures files { OnOk result ((host_state self.new).files ≡ (host_state self.old).files) }
        // What is unsynced stays so.
        ensures left { OnOk result ((disk : Files) → LeavesNow (host_state self.new) disk ↔ LeavesNow (host_state self.old) disk) }
        ensures turns { OnOk result (turns_of self.new ≡ turns.now) }
        ensures numbers { OnOk result (numbers_of self.new ≡ record { fails = fails.now; next = 0; refused = 0 }) }
        ensures err { OnErr result (self.new ≡ self.old) }
    {
        let turns = MemTurn::copy_all(alloc, turns)?;
        let fails = fails.to_vec(alloc)?;
        let base = copy_files(alloc, &self.files)?;
        self.base = base;
        self.calls = Vec::new(alloc);
        self.turns = turns;
        self.next = 0;
        self.fails = fails;
        self.heard = Heard::new(alloc);
        self.disk_faults = 0;
        self.port_faults = 0;
        self.refused = 0;
        Ok(())
    }

    /// Sets a block that is then stable, before any call since the start.
    pub fn plant(&mut self, file: u32, index: u32, block: &Block)
        requires file { file < length (host_state self.old).sizes }
        requires index { index < slice_index (host_state self.old).sizes file }
        requires none { (host_state self.old).moment ≡ 0 }
        ensures sizes { (host_state self.new).sizes ≡ (host_state self.old).sizes }
        ensures files { (host_state self.new).files ≡ with_block (host_state self.old).files file index block.now }
        // A stop leaves what it might have left before, with this block.
        ensures left { (disk : Files) → LeavesNow (host_state self.new) disk ↔ IsPlanted file index block.now (host_state self.old) disk }
        ensures same { IsSameBut (host_state self.old) (host_state self.new) }
        ensures turns { turns_of self.new ≡ turns_of self.old }
        ensures numbers { numbers_of self.new ≡ numbers_of self.old }
    {
        let cell = Cell {
            block: block_of(block),
            synced: true,
        };
        put_cell(&mut self.base, file, index, cell);
        put_cell(&mut self.files, file, index, cell);
    }
}
