//! The references that wait at each level.
ghost use Rattle.std.specs.Prelude.{◌≡◌, ℕ, ◌+◌, ◌^◌, ◌<◌, ◌≤◌, true, false, ◌++◌, ◌∷◌, [], length, IfOk, IfErr, slice_index_or};
ghost use Rattle.ak_levels.specs.Carries.{carry_of};
ghost use Rattle.ak_levels.specs.Pending.{AreLists, HasRoom, no_lists, pending_at, with_pending, with_places};

use crate::carries::carry;
use ak_inner::{Inner, Ref};
use std::alloc::{AllocError, Global};
use std::marker::Model;

/// How many levels there are.
const LEVELS: u32 = 11;

/// The references that wait at each of 11 levels, seen as their lists and which of them have places. A level's 32
/// places are taken at once, and kept.
#[derive(Drop)]
pub struct Levels {
    levels: [Option<Box<Inner>>; 11],
}

impl Model for Levels {
    ghost use Rattle.ak_levels.specs.Pending.{Lists, AreLists, lists_of};

    ghost Value = { Lists };

    ghost view = { λ l. lists_of l.levels };

    ghost invariant = { λ l. AreLists (lists_of l.levels) };
}

impl Levels {
    /// No references, and no places for any. No call takes memory but `reserve`.
    pub fn new() -> Levels
        ensures { result ≡ no_lists }
    {
        Levels {
            levels: [
                None, None, None, None, None, None, None, None, None, None, None,
            ],
        }
    }

    /// Takes places for each level that closing leaf number `m` pushes to and that has none. On an error nothing
    /// changes.
    pub fn reserve(&mut self, alloc: Global, m: u64) -> Result<(), AllocError>
        requires number { m < 2 ^ 53 }
        requires free { (k : ℕ) → k ≤ carry_of m → length (pending_at self.old k) < 32 }
        ensures places { IfOk result (λ _. self.new ≡ with_places self.old (carry_of m + 1)) }
        ensures room { IfOk result (λ _. (k : ℕ) → k ≤ carry_of m → HasRoom self.new k) }
        ensures kept { (k : ℕ) → HasRoom self.old k → HasRoom self.new k }
        ensures pending { self.new.pending ≡ self.old.pending }
        ensures error { IfErr result (λ _. self.new ≡ self.old) }
        ensures needed { IfErr result (λ _. ((k : ℕ) → k ≤ carry_of m → slice_index_or self.old.placed k false ≡ true) → ⊥) }
    {
        self.place(alloc, carry(m) + 1)
    }

    /// Takes places for each level of which a node was ever made in a series of so many leaves and that has none. On an
    /// error nothing changes.
    pub fn prepare(&mut self, alloc: Global, leaves: u64) -> Result<(), AllocError>
        ensures places { IfOk result (λ _. (k : ℕ) → k ≤ 10 → 32 ^ k ≤ leaves → slice_index_or self.new.placed k false ≡ true) }
        ensures pending { self.new.pending ≡ self.old.pending }
        ensures error { IfErr result (λ _. self.new ≡ self.old) }
    {
        self.place(alloc, levels_in(leaves))
    }

    /// Puts a reference behind those that wait at the level.
    pub fn push(&mut self, level: u32, r: Ref)
        requires level { level ≤ 10 }
        requires room { HasRoom self.old level }
        ensures pushed { self.new ≡ with_pending self.old level (pending_at self.old level ++ r ∷ []) }
        ensures valid { AreLists self.new }
    {
        if let Some(places) = &mut self.levels[level as usize] {
            places.push(r);
        }
    }

    /// Moves all references that wait at the level into a node, in place of the node's own.
    pub fn take(&mut self, level: u32, into: &mut Inner)
        requires level { level ≤ 10 }
        requires some { 1 ≤ length (pending_at self.old level) }
        ensures taken { into.new ≡ pending_at self.old level }
        ensures empty { self.new ≡ with_pending self.old level [] }
        ensures valid { AreLists self.new }
    {
        if let Some(places) = &mut self.levels[level as usize] {
            std::mem::swap(&mut **places, into);
            places.clear();
        }
    }

    /// The references that wait at the level, the oldest first.
    pub fn pending(&self, level: u32) -> &[Ref]
        requires level { level ≤ 10 }
        ensures pending { result.now ≡ pending_at self.now level }
        ensures most { length result.now ≤ 32 }
        ensures valid { AreLists self.now }
    {
        match &self.levels[level as usize] {
            Some(places) => places.refs(),
            None => &[],
        }
    }

    /// Takes places for each of so many levels from 0 on that has none. On an error nothing changes.
    fn place(&mut self, alloc: Global, count: u32) -> Result<(), AllocError>
        requires { count ≤ 11 }
        ensures places { IfOk result (λ _. self.new ≡ with_places self.old count) }
        ensures error { IfErr result (λ _. self.new ≡ self.old) }
        ensures needed { IfErr result (λ _. ((k : ℕ) → k < count → slice_index_or self.old.placed k false ≡ true) → ⊥) }
    {
        if count == 0 {
            return Ok(());
        }
        let top = (count - 1) as usize;
        if self.levels[top].is_some() {
            return self.place(alloc, count - 1);
        }
        let places = Box::new(alloc, Inner::new())?;
        self.place(alloc, count - 1)?;
        self.levels[top] = Some(places);
        Ok(())
    }
}

/// How many levels from 0 on have a node in a series of so many leaves.
fn levels_in(leaves: u64) -> u32
    ensures most { result ≤ 11 }
    ensures each { (k : ℕ) → k ≤ 10 → 32 ^ k ≤ leaves → k < result }
{
    let mut left = leaves;
    let mut levels = 0;
    while levels < LEVELS && left > 0 {
        left /= 32;
        levels += 1;
    }
    levels
}
