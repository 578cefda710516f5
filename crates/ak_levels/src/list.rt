//! The references that wait in each series.
ghost use Rattle.std.specs.Prelude.{◌≡◌, ◌<◌, ◌≤◌, ◌++◌, ◌∷◌, [], List, length, OnOk, OnErr, set, slice_index_or};
ghost use Rattle.std.specs.Borrow.{Lends, sem};
ghost use Rattle.ak_levels.specs.Pending.{Lists, no_lists};
ghost use Rattle.ak_levels.specs.contracts.list.LevelsList.{the_row};
ghost use Rattle.ak_levels.specs.contracts.levels.Levels.{the_row as levels_row};

use crate::levels::Levels;
use std::alloc::{AllocError, Global};
use std::marker::Model;

/// A list of what waits in each series, seen as the list of their levels.
#[derive(Drop)]
pub struct LevelsList {
    list: Vec<Levels>,
}

impl Model for LevelsList {
    ghost use Rattle.std.specs.Prelude.{List};
    ghost use Rattle.ak_levels.specs.Pending.{Lists};

    ghost Value = { List Lists };

    ghost view = { λ l. l.list.items };
}

impl LevelsList {
    /// The empty list. It takes no memory.
    pub fn new(alloc: Global) -> LevelsList
        ensures { result ≡ [] }
    {
        LevelsList {
            list: Vec::new(alloc),
        }
    }

    /// Appends an item. After an `Err` the list is as it was.
    pub fn push(&mut self, alloc: Global, item: Levels) -> Result<(), AllocError>
        ensures ok { OnOk result (self.new ≡ self.old ++ item ∷ []) }
        ensures err { OnErr result (self.new ≡ self.old) }
    {
        let _ = alloc;
        self.list.push(item)?;
        Ok(())
    }

    /// Takes the last item out. The room for it stays.
    pub fn pop(&mut self)
        requires some { 1 ≤ length self.old }
        ensures back { (v : List Lists) (last : Lists) → self.old ≡ v ++ last ∷ [] → self.new ≡ v }
    {
        let _ = self.list.pop();
    }

    /// The items.
    pub fn as_slice(&self) -> &[Levels]
        ensures { result.now ≡ self.now }
    {
        self.list.as_slice()
    }

    /// Lends item `i`. The others stay.
    pub fn get_mut(&mut self, i: u32) -> &mut Levels
        requires { i < length self.old }
        ensures item { result.now ≡ slice_index_or self.old i no_lists }
        ensures* lends { sem 𝓛 (Lends the_row levels_row self.entry result (λ w. set self.old i w)) }
    {
        &mut self.list[i as usize]
    }
}
