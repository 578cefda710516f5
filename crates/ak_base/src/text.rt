//! A text, which contracts see as its bytes.
ghost use Rattle.std.specs.Prelude.{◌≡◌, ◌++◌, [], IsUtf8, OnOk, OnErr};

use std::alloc::{AllocError, Global};
use std::marker::Model;

/// A text of its own, seen as the list of its bytes, which are UTF-8.
#[derive(Drop)]
pub struct Text {
    text: String,
}

impl Model for Text {
    ghost use Rattle.std.specs.Prelude.{List, ℕ, string_bytes};

    ghost Value = { List ℕ };

    ghost view = { λ t. string_bytes t.text };
}

impl Text {
    /// The empty text. It takes no memory.
    pub fn new(alloc: Global) -> Self
        ensures { result ≡ [] }
    {
        Text {
            text: String::new(alloc),
        }
    }

    /// Appends the bytes of `item`. After an `Err` the text is as it was.
    pub fn push(&mut self, alloc: Global, item: &str) -> Result<(), AllocError>
        ensures ok { OnOk result (self.new ≡ self.old ++ item.now) }
        ensures err { OnErr result (self.new ≡ self.old) }
    {
        let _ = alloc;
        self.text.push_str(item)
    }

    /// The text.
    pub fn as_str(&self) -> &str
        ensures value { result.now ≡ self.now }
        ensures utf8 { IsUtf8 self.now }
    {
        self.text.as_str()
    }
}
