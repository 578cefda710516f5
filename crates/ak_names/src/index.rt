//! Names by number and numbers by name.
ghost use Rattle.std.specs.Prelude.{map, string_bytes, ◌≡◌, ◌++◌, ◌∷◌, ◌<◌, ◌^◌, ◌-◌, [], length, position, bytes_eq, IfOk, IsOk, IfSome, OnOk, OnErr, false};
ghost use Rattle.std.specs.List.{list_any};
ghost use Rattle.ak_names.specs.Known.{AreNumbers, names_at};
ghost use Rattle.ak_names.specs.Names.{DoesName};

use crate::memo::Memo;
use ak_base::Text;
use indexmap::IndexSet;
use std::alloc::{AllocError, Global};
use std::marker::Model;
use std::str::from_utf8;

/// The names, seen as a list in the order in which they came.
#[derive(Drop)]
pub struct Index {
    names: IndexSet<String>,
    memo: Memo,
}

impl Model for Index {
    ghost use Rattle.std.specs.Prelude.{List, ℕ, ◌<◌, ◌^◌, length, map, string_bytes};
    ghost use Rattle.std.specs.List.{AllByRecursion};
    ghost use Rattle.ak_names.specs.Known.{NamesThese};

    ghost Value = { List (List ℕ) };

    ghost view = { λ i. map string_bytes i.names.keys };

    ghost invariant = { λ i. (length (map string_bytes i.names.keys) < 2 ^ 32) × AllByRecursion (NamesThese (map string_bytes i.names.keys)) i.memo };
}

impl Index {
    /// No names. It takes no memory.
    pub fn new(alloc: Global) -> Result<Index, AllocError>
        ensures ok { IsOk result }
        ensures none { IfOk result (λ i. i ≡ []) }
    {
        Ok(Index {
            names: IndexSet::new(alloc),
            memo: Memo::new(alloc),
        })
    }

    /// The number of a name; `None` exactly where it is unknown.
    pub fn id(&self, name: &Text) -> Option<u32>
        ensures { result ≡ position (λ n. bytes_eq name.now n) self.now }
    {
        let place = self.place(name.as_str())?;
        Some(place as u32)
    }

    /// The number of the name that has these bytes; `None` exactly where it is unknown.
    pub fn id_of(&self, name: &[u8]) -> Option<u32>
        ensures { result ≡ position (λ n. bytes_eq name.now n) self.now }
    {
        let _ = &self.names;
        match from_utf8(name) {
            Ok(name) => {
                let place = self.place(name)?;
                Some(place as u32)
            }
            Err(_) => None,
        }
    }

    /// The names, in order.
    pub(crate) fn texts(&self) -> &[String]
        ensures texts { map string_bytes result.now ≡ self.now }
        ensures small { length result.now < 2 ^ 32 }
    {
        self.names.as_slice()
    }

    // The place of a name.
    fn place(&self, name: &str) -> Option<usize>
        ensures place { result ≡ position (λ n. bytes_eq name.now n) self.now }
        ensures within { IfSome result (λ i. i < length self.now) }
        ensures small { length self.now < 2 ^ 32 }
    {
        self.names.get_index_of(name)
    }

    /// The numbers of the names that a text names, in order, where it was kept with them. None says nothing of the text.
    pub fn known(&self, text: &[u8]) -> Option<&[u32]>
        ensures known { IfSome result (λ numbers. AreNumbers self.now numbers.now) }
        ensures names { IfSome result (λ numbers. DoesName text.now (names_at self.now numbers.now)) }
    {
        self.memo.find(text)
    }

    /// Keeps a text with the numbers of the names that it names, in order, so that `known` may find them. It has no answer, as
    /// it may do nothing: where the text is kept already, where there is no memory, or where as much is kept as may be, which
    /// is 65,536 texts, 4 MiB of texts in all and 262,144 numbers in all.
    pub fn keep(&mut self, alloc: Global, text: &[u8], numbers: &[u32])
        requires known { AreNumbers self.old numbers.now }
        requires names { DoesName text.now (names_at self.old numbers.now) }
        ensures { self.new ≡ self.old }
    {
        let _ = self.memo.keep(alloc, text, numbers);
    }

    /// Adds a name that is new, and gives its number, which is how many names there were. After an `Err` the index is
    /// as it was.
    pub fn add(&mut self, alloc: Global, name: &Text) -> Result<u32, AllocError>
        requires new { list_any (λ n. bytes_eq name.now n) self.old ≡ false }
        requires room { length self.old < 2 ^ 32 - 1 }
        ensures ok { OnOk result (self.new ≡ self.old ++ name.now ∷ []) }
        ensures number { IfOk result (λ i. i ≡ length self.old) }
        ensures err { OnErr result (self.new ≡ self.old) }
    {
        let key = String::from_str(alloc, name.as_str())?;
        let number = self.names.len();
        self.names.insert(key)?;
        Ok(number as u32)
    }
}
