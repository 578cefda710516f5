//! The text of rows.
ghost use Rattle.std.specs.Prelude.{◌≡◌, ◌+◌, ◌-◌, ◌^◌, ◌<◌, ◌≤◌, min, IfOk, OnOk, OnErr, MatchOption};
ghost use Rattle.ak_text.specs.Rows.{row_text};
ghost use Rattle.ak_text.specs.Written.{start, Adds};

use crate::cells::write_row;
use crate::form::Form;
use ak_base::Text;
use ak_rows::Row;
use std::alloc::{AllocError, Global};
use std::marker::Model;

/// The most bytes of a text.
pub const MOST_BYTES: u64 = 1 << 26;

// A length and so many bytes more, and 2^64 - 1 where that is greater.
fn counted_with(counted: u64, more: usize) -> u64
    ensures { result ≡ min (counted + more) (2 ^ 64 - 1) }
{
    counted.saturating_add(more as u64)
}

/// The text of the rows so far, seen as its form, its length, and its bytes, which it keeps while they are at most 2^26.
#[derive(Drop)]
pub struct Writer {
    form: Form,
    // the bytes of the last row
    row: Vec<u8>,
    text: Vec<u8>,
    counted: u64,
}

impl Model for Writer {
    ghost use Rattle.std.specs.Prelude.{◌≡◌, ◌≤◌, ◌^◌, length};
    ghost use Rattle.ak_text.specs.Written.{Written};

    ghost Value = { Written };

    ghost view = { λ w. record { form = w.form; counted = w.counted; bytes = w.text.items } };

    ghost invariant = { λ w. (w.form.scale ≤ 9) × (w.counted ≤ 2 ^ 26 → length w.text.items ≡ w.counted) };
}

impl Writer {
    /// No rows. Where `resp` they are written as RESP, and else as CSV; where `iso` with dates, and else with
    /// nanoseconds. It takes no memory.
    pub fn new(alloc: Global, resp: bool, iso: bool, scale: u32) -> Result<Writer, AllocError>
        requires { scale ≤ 9 }
        ensures { IfOk result (λ w. w ≡ start resp iso scale) }
    {
        Ok(Writer {
            form: Form { resp, iso, scale },
            row: Vec::new(alloc),
            text: Vec::new(alloc),
            counted: 0,
        })
    }

    /// Appends the text of a row whose track has this name. Past 2^26 bytes only its length is counted, up to 2^64 - 1.
    /// After an `Err` the text is as it was.
    pub fn row(&mut self, alloc: Global, name: &Text, r: &Row) -> Result<(), AllocError>
        requires { r.now.n ≤ 32 }
        ensures ok { OnOk result (Adds self.old (row_text self.old.form name.now r.now) self.new) }
        ensures err { OnErr result (self.new ≡ self.old) }
    {
        let _ = alloc;
        self.row.clear();
        write_row(self.form, name, r, &mut self.row)?;
        let row = self.row.as_slice();
        let counted = counted_with(self.counted, row.len());
        if counted > MOST_BYTES {
            self.counted = counted;
            return Ok(());
        }
        self.text.extend_from_slice(row)?;
        self.counted = counted;
        Ok(())
    }

    /// The length of the text, and 2^64 - 1 where it is greater.
    pub fn length(&self) -> u64
        ensures { result ≡ self.now.counted }
    {
        self.counted
    }

    /// The text; `None` exactly where it is longer than 2^26 bytes.
    pub fn text(&self) -> Option<&[u8]>
        ensures { MatchOption result (2 ^ 26 < self.now.counted)
            (λ text. (text.now ≡ self.now.bytes) × (self.now.counted ≤ 2 ^ 26)) }
    {
        if self.counted <= MOST_BYTES {
            Some(self.text.as_slice())
        } else {
            None
        }
    }
}
