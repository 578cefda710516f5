//! Texts that were read before, and the numbers that are kept with them.
ghost use Rattle.std.specs.Prelude.{◌≡◌, ◌+◌, ◌⊎◌, ◌++◌, ◌∷◌, [], bytes_eq, length, option_copied, IsTrue};
ghost use Rattle.std.specs.Map.{lookup};
ghost use Rattle.std.specs.List.{sum_by};
ghost use Rattle.ak_names.specs.Known.{AreFew};

use indexmap::IndexMap;
use std::alloc::{AllocError, Global};
use std::marker::Model;
use std::str::from_utf8;

/// How many texts are kept at most.
const MOST_TEXTS: usize = 65_536;

/// How many bytes the texts have at most, in all.
const MOST_BYTES: usize = 4_194_304;

/// How many numbers are kept with them at most, in all.
const MOST_NUMBERS: usize = 262_144;

/// Texts with numbers, seen as their pairs in the order in which they came.
#[derive(Drop)]
pub(crate) struct Memo {
    texts: IndexMap<String, Vec<u32>>,
    bytes: usize,
    numbers: usize,
}

impl Model for Memo {
    ghost use Rattle.std.specs.Prelude.{List, ℕ, map, string_bytes};
    ghost use Rattle.ak_names.specs.Known.{AreCounted};

    ghost Value = { List (List ℕ × List ℕ) };

    ghost view = { λ m. map (λ e. (string_bytes e.0, e.1.items)) m.texts.entries };

    ghost invariant = { λ m. AreCounted (map (λ e. (string_bytes e.0, e.1.items)) m.texts.entries) m.bytes m.numbers };
}

impl Memo {
    /// No texts. It takes no memory.
    pub(crate) fn new(alloc: Global) -> Memo
        ensures { result ≡ [] }
    {
        Memo {
            texts: IndexMap::new(alloc),
            bytes: 0,
            numbers: 0,
        }
    }

    /// The numbers that are kept with a text; `None` exactly where it isn't kept.
    pub(crate) fn find(&self, text: &[u8]) -> Option<&[u32]>
        ensures { option_copied result ≡ lookup (λ t. bytes_eq text.now t) self.now }
    {
        let _ = &self.texts;
        match from_utf8(text) {
            Ok(text) => {
                let numbers = self.texts.get(text)?;
                Some(numbers.as_slice())
            }
            Err(_) => None,
        }
    }

    // Whether a text of so many bytes, with so many numbers, may still be kept.
    fn has_room(&self, bytes: usize, numbers: usize) -> bool
        ensures { IsTrue result → AreFew (length self.now + 1) (sum_by (λ e. length e.0) self.now + bytes) (sum_by (λ e. length e.1) self.now + numbers) }
    {
        self.texts.len() < MOST_TEXTS
            && bytes <= MOST_BYTES - self.bytes
            && numbers <= MOST_NUMBERS - self.numbers
    }

    /// Keeps a text with numbers. A text that is kept already stays as it is, and so does all where as much is kept as
    /// may be, where the text is no UTF-8, and after an `Err`.
    pub(crate) fn keep(
        &mut self,
        alloc: Global,
        text: &[u8],
        numbers: &[u32],
    ) -> Result<(), AllocError>
        ensures { (self.new ≡ self.old) ⊎ (self.new ≡ self.old ++ (text.now, numbers.now) ∷ []) }
    {
        let Ok(text) = from_utf8(text) else {
            return Ok(());
        };
        if self.texts.contains_key(text) || !self.has_room(text.len(), numbers.len()) {
            return Ok(());
        }
        let key = String::from_str(alloc, text)?;
        let kept = Vec::from_slice(alloc, numbers)?;
        self.texts.insert(key, kept)?;
        self.bytes += text.len();
        self.numbers += numbers.len();
        Ok(())
    }
}
