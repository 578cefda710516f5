//! The live ordinals and their fills.
ghost use Rattle.std.specs.Prelude.{◌≡◌, ℕ, ◌+◌, ◌-◌, ◌*◌, ◌/◌, ◌%◌, ◌^◌, ◌<◌, ◌≤◌, ◌↔◌, length, IfOk, IfSome, IsSome, IsTrue};
ghost use Rattle.ak_volumes.specs.Ordinals.{ordinals, newest, newest_fill, AreOrdinals, ordinal_of, index_of, IsLive, file_of, filled, switched};
ghost use Rattle.ak_volumes.specs.Places.{IsPlace};

use ak_base::Addr;
use std::alloc::{AllocError, Global};
use std::marker::Model;

/// How many indexes an ordinal has in addresses.
const INDEXES: u64 = 1 << 32;

/// Where a group of blocks stands.
#[derive(Clone, Copy, Debug, PartialEq, Eq, Drop)]
pub enum Place {
    /// From this address on.
    Here(Addr),
    /// In a new ordinal, which has to begin first.
    Switch,
    /// Nowhere: there is no further ordinal.
    Worn,
}

/// The live ordinals of a store, from `lo` to `q`, and how far each is filled. The fill of `q` is `n`.
#[derive(Drop)]
pub struct Volumes {
    volumes: u32,
    blocks: u32,
    lo: u32,
    fills: Vec<u32>,
}

impl Model for Volumes {
    ghost use Rattle.std.specs.Prelude.{◌≤◌, vec_capacity};
    ghost use Rattle.ak_volumes.specs.Ordinals.{Ordinals, ordinals, AreOrdinals};

    ghost Value = { Ordinals };

    ghost view = { λ v. ordinals v.volumes v.blocks v.lo v.fills.items };

    ghost invariant = { λ v. AreOrdinals (ordinals v.volumes v.blocks v.lo v.fills.items) × (v.volumes ≤ vec_capacity v.fills) };
}

impl Volumes {
    /// The ordinals from `lo` on with these fills, and room for as many as there are volumes.
    pub fn new(
        alloc: Global,
        volumes: u32,
        blocks: u32,
        lo: u32,
        fills: &[u32],
    ) -> Result<Volumes, AllocError>
        requires { AreOrdinals (ordinals volumes blocks lo fills.now) }
        ensures { IfOk result (λ v. v ≡ ordinals volumes blocks lo fills.now) }
    {
        let mut own = Vec::with_capacity(alloc, volumes as usize)?;
        own.extend_from_slice(fills)?;
        Ok(Volumes {
            volumes,
            blocks,
            lo,
            fills: own,
        })
    }

    /// Where a group of so many blocks stands.
    pub fn place(&self, group: u32) -> Place
        ensures { IsPlace self.now group result }
    {
        let n = self.n();
        if group <= self.blocks - n {
            Place::Here(Addr(u64::from(self.q()) * INDEXES + u64::from(n)))
        } else if self.q() < u32::MAX {
            Place::Switch
        } else {
            Place::Worn
        }
    }

    /// Enters a group of so many blocks at the end of the newest ordinal.
    pub fn fill(&mut self, group: u32)
        requires { newest_fill self.old + group ≤ self.old.blocks }
        ensures filled { self.new ≡ filled self.old group }
        ensures valid { AreOrdinals self.new }
    {
        let last = self.fills.len() - 1;
        self.fills[last] += group;
    }

    /// Begins a new ordinal, in place of the oldest one where every volume holds a live one.
    pub fn switch(&mut self)
        requires { newest self.old < 2 ^ 32 - 1 }
        ensures switched { self.new ≡ switched self.old }
        ensures valid { AreOrdinals self.new }
    {
        if self.fills.len() == self.volumes as usize {
            let _ = self.fills.remove(0);
            self.fills.push(0).unwrap();
            self.lo += 1;
        } else {
            self.fills.push(0).unwrap();
        }
    }

    /// Whether the address is that of a block which is kept.
    pub fn live(&self, a: Addr) -> bool
        ensures { IsTrue result ↔ IsLive self.now a.0 }
    {
        let ordinal = ordinal(a);
        if ordinal < self.lo {
            return false;
        }
        let place = (ordinal - self.lo) as usize;
        place < self.fills.len() && index(a) < self.fills[place]
    }

    /// The file of the address's block, or none where the address isn't live.
    pub fn file_of(&self, a: Addr) -> Option<u32>
        ensures live { IsSome result ↔ IsLive self.now a.0 }
        ensures file { IfSome result (λ file. file ≡ file_of self.now (ordinal_of a.0)) }
    {
        if self.live(a) {
            Some(self.file(ordinal(a)))
        } else {
            None
        }
    }

    /// The oldest live ordinal.
    pub fn lo(&self) -> u32
        ensures { result ≡ self.now.lo }
    {
        self.lo
    }

    /// The newest ordinal.
    pub fn q(&self) -> u32
        ensures { result ≡ newest self.now }
    {
        self.lo + (self.fills.len() - 1) as u32
    }

    /// The fill of the newest ordinal.
    pub fn n(&self) -> u32
        ensures { result ≡ newest_fill self.now }
    {
        self.fills[self.fills.len() - 1]
    }

    /// The fills of the live ordinals, that of `lo` first.
    pub fn fills(&self) -> &[u32]
        ensures fills { result.now ≡ self.now.fills }
        ensures valid { AreOrdinals self.now }
    {
        self.fills.as_slice()
    }

    /// The file in which an ordinal stands.
    fn file(&self, ordinal: u32) -> u32
        ensures { result ≡ file_of self.now ordinal }
    {
        1 + ordinal % self.volumes
    }
}

/// The ordinal of an address.
fn ordinal(a: Addr) -> u32
    ensures { result ≡ ordinal_of a.0 }
{
    (a.0 / INDEXES) as u32
}

/// The index of an address in its ordinal.
fn index(a: Addr) -> u32
    ensures { result ≡ index_of a.0 }
{
    (a.0 % INDEXES) as u32
}
