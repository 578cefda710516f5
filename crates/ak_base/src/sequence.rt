//! Lists, which contracts see as lists.
ghost use Rattle.std.specs.Prelude.{◌≡◌, ◌≤◌, ◌+◌, ◌++◌, ◌∷◌, [], length, take, drop, OnOk, OnErr};
ghost use Rattle.std.specs.Fmt.{decimal};

use crate::text::Text;
use itoa::Buffer;
use std::alloc::{AllocError, Global};
use std::marker::Model;

/// A list of items, seen as the list that it holds.
#[derive(Drop)]
pub struct Sequence<T> {
    items: Vec<T>,
}

/// A list of bytes.
pub type Bytes = Sequence<u8>;

/// A list of numbers.
pub type Ids = Sequence<u32>;

/// A list of texts.
pub type Texts = Sequence<Text>;

impl<T> Model for Sequence<T> {
    ghost use Rattle.std.specs.Prelude.{List};

    ghost Value = { List T };

    ghost view = { λ s. s.items.items };
}

impl<T> Sequence<T> {
    /// The empty list. It takes no memory.
    pub fn new(alloc: Global) -> Self
        ensures { result ≡ [] }
    {
        Sequence {
            items: Vec::new(alloc),
        }
    }

    /// Appends an item. After an `Err` the list is as it was, and the item is dropped.
    pub fn push(&mut self, alloc: Global, item: T) -> Result<(), AllocError>
    where
        T: Drop,
        ensures ok { OnOk result (self.new ≡ self.old ++ item ∷ []) }
        ensures err { OnErr result (self.new ≡ self.old) }
    {
        let _ = alloc;
        self.items.push(item)?;
        Ok(())
    }

    /// The items.
    pub fn as_slice(&self) -> &[T]
        ensures { result.now ≡ self.now }
    {
        self.items.as_slice()
    }

    /// Takes all items out. The room for them stays.
    pub fn clear(&mut self)
    where
        T: Drop,
        ensures { self.new ≡ [] }
    {
        self.items.clear();
    }
}

impl Sequence<u8> {
    /// Writes bytes over those that stand from a place on, as many.
    pub fn overwrite(&mut self, at: usize, bytes: &[u8])
        requires { at + length bytes.now ≤ length self.old }
        ensures { self.new ≡ take at self.old ++ (bytes.now ++ drop (at + length bytes.now) self.old) }
    {
        self.items[at..at + bytes.len()].copy_from_slice(bytes);
    }

    /// Appends bytes. After an `Err` the list is as it was.
    pub fn extend(&mut self, alloc: Global, bytes: &[u8]) -> Result<(), AllocError>
        ensures ok { OnOk result (self.new ≡ self.old ++ bytes.now) }
        ensures err { OnErr result (self.new ≡ self.old) }
    {
        let _ = alloc;
        self.items.extend_from_slice(bytes)
    }

    /// Appends a number in decimal digits. After an `Err` the list is as it was.
    pub fn extend_decimal(&mut self, alloc: Global, number: u64) -> Result<(), AllocError>
        ensures ok { OnOk result (self.new ≡ self.old ++ decimal number) }
        ensures err { OnErr result (self.new ≡ self.old) }
    {
        let mut buffer = Buffer::new();
        self.extend(alloc, buffer.format(number).as_bytes())
    }

    /// Appends a text and then a number in decimal digits. After an `Err` the list may end in the text alone.
    pub fn extend_counted(
        &mut self,
        alloc: Global,
        text: &[u8],
        number: u64,
    ) -> Result<(), AllocError>
        ensures { OnOk result (self.new ≡ self.old ++ (text.now ++ decimal number)) }
    {
        self.extend(alloc, text)?;
        self.extend_decimal(alloc, number)
    }

    /// Appends two texts, each with a number behind it. After an `Err` the list may end in a part of them.
    pub fn extend_twice_counted(
        &mut self,
        alloc: Global,
        text: &[u8],
        number: u64,
        next: &[u8],
        other: u64,
    ) -> Result<(), AllocError>
        ensures { OnOk result (self.new ≡ self.old ++ (text.now ++ decimal number ++ next.now ++ decimal other)) }
    {
        self.extend_counted(alloc, text, number)?;
        self.extend_counted(alloc, next, other)
    }
}
