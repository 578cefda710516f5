//! The frames and their list.
ghost use Rattle.std.specs.Prelude.{◌≡◌, ◌<◌, ◌↔◌, length, map, [], ◌∷◌, IfOk, IfSome, IfNone, IsSome, IsNone};
ghost use Rattle.std.specs.Borrow.{sem};
ghost use Rattle.ak_pool.specs.Frames.{frames_of, used_frame, numbers, AreFrames, IsUsed, series_of, leaf_of, without, moved_first, IsLastFrame};
ghost use Rattle.ak_pool.specs.Lending.{LendsLeaf};
ghost use Rattle.ak_pool.specs.Links.{none, AreOlder, AreNewer};

use crate::links::{Chains, Link, NONE};
use crate::slot::Slot;
use ak_leaf::LeafBuf;
use std::alloc::{AllocError, Global};
use std::marker::Model;

/// The name of a frame, which stays the same while the frame is used.
#[derive(Clone, Copy, Debug, PartialEq, Eq, Drop)]
pub struct Frame(pub u32);

/// Frames that hold the points of open leaves, seen as the list of the used ones, the most recently written first.
#[derive(Drop)]
pub struct Pool {
    slots: Vec<Slot>,
    chains: Chains,
}

impl Model for Pool {
    ghost use Rattle.std.specs.Prelude.{length};
    ghost use Rattle.ak_pool.specs.Frames.{Frames, frames_of};
    ghost use Rattle.ak_pool.specs.Slots.{all_used, KeepsFrames};

    ghost Value = { Frames };

    ghost view = { λ p. frames_of (length p.slots.items) (all_used p.slots.items p.chains) };

    ghost invariant = { λ p. KeepsFrames p.slots.items p.chains };
}

impl Pool {
    /// So many frames, none of them used. No other call takes memory.
    pub fn new(alloc: Global, frames: u32) -> Result<Pool, AllocError>
        ensures { IfOk result (λ pool. pool ≡ frames_of frames []) }
    {
        let mut slots = Vec::with_capacity(alloc, frames as usize)?;
        let mut links = Vec::with_capacity(alloc, frames as usize)?;
        let mut free = NONE;
        for frame in 0..frames {
            let leaf = LeafBuf::new(alloc)?;
            slots.push(Slot { series: 0, leaf })?;
            links.push(Link {
                newer: NONE,
                older: free,
            })?;
            free = frame;
        }
        let chains = Chains {
            links,
            first: NONE,
            last: NONE,
            free,
        };
        Ok(Pool { slots, chains })
    }

    /// Takes a free frame for a series, with an empty leaf, and puts it first. None where all frames are used; then
    /// nothing changes.
    pub fn take(&mut self, series: u32) -> Option<Frame>
        ensures some { IsSome result ↔ (length self.old.used < self.old.count) }
        ensures taken { IfSome result (λ f. self.new ≡ frames_of self.old.count (used_frame f.0 series [] ∷ self.old.used)) }
        ensures unused { IfSome result (λ f. ¬ IsUsed self.old.used f.0) }
        ensures none { IfNone result (self.new ≡ self.old) }
        ensures valid { AreFrames self.new }
    {
        let Some(frame) = self.chains.take_free() else {
            return None;
        };
        self.chains.put_first(frame);
        let slot = &mut self.slots[frame as usize];
        slot.series = series;
        slot.leaf.clear();
        Some(Frame(frame))
    }

    /// Moves a used frame to the front of the list.
    pub fn touch(&mut self, f: Frame)
        requires { IsUsed self.old.used f.0 }
        ensures moved { self.new ≡ frames_of self.old.count (moved_first self.old.used f.0) }
        ensures valid { AreFrames self.new }
    {
        self.chains.detach(f.0);
        self.chains.put_first(f.0);
    }

    /// Frees a used frame.
    pub fn give(&mut self, f: Frame)
        requires { IsUsed self.old.used f.0 }
        ensures given { self.new ≡ frames_of self.old.count (without self.old.used f.0) }
        ensures valid { AreFrames self.new }
    {
        self.chains.detach(f.0);
        self.chains.put_free(f.0);
    }

    /// The series that uses the frame.
    pub fn series(&self, f: Frame) -> u32
        requires { IsUsed self.now.used f.0 }
        ensures { result ≡ series_of self.now.used f.0 }
    {
        self.slots[f.0 as usize].series
    }

    /// The leaf of a used frame.
    pub fn leaf(&self, f: Frame) -> &LeafBuf
        requires { IsUsed self.now.used f.0 }
        ensures { result.now ≡ leaf_of self.now.used f.0 }
    {
        &self.slots[f.0 as usize].leaf
    }

    /// The leaf of a used frame, to be written. All else stays.
    pub fn leaf_mut(&mut self, f: Frame) -> &mut LeafBuf
        requires { IsUsed self.old.used f.0 }
        ensures value { result.now ≡ leaf_of self.old.used f.0 }
        ensures* writes_back { sem 𝓛 (LendsLeaf self.entry f.0 result) }
    {
        let slot = &mut self.slots[f.0 as usize];
        &mut slot.leaf
    }

    /// The used frame that was written least recently, or none where no frame is used.
    pub fn oldest(&self) -> Option<Frame>
        ensures last { IfSome result (λ f. IsLastFrame self.now.used f.0) }
        ensures none { IsNone result ↔ (self.now.used ≡ []) }
        ensures valid { AreFrames self.now }
    {
        if self.chains.last == NONE {
            return None;
        }
        Some(Frame(self.chains.last))
    }

    /// The links of the frames: item i is that of `Frame(i)`. That of a used frame has the frame before it in the list
    /// as `newer` and the frame after it as `older`.
    pub fn links(&self) -> &[Link]
        ensures each { length result.now ≡ self.now.count }
        ensures newer { AreNewer result.now none (numbers self.now.used) }
        ensures older { AreOlder result.now (numbers self.now.used) }
    {
        self.chains.links.as_slice()
    }
}
