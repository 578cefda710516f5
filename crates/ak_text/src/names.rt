//! How names and times are written.
ghost use Rattle.std.specs.Prelude.{◌≡◌, ◌++◌, ◌==◌, ◌||◌, OnOk};
ghost use Rattle.std.specs.List.{list_any};
ghost use Rattle.ak_base.specs.RowTexts.{doubled, name_text};
ghost use Rattle.ak_text.specs.Rows.{time_text};

use crate::values::write_number;
use std::alloc::AllocError;

// Whether a name stands in quotes in a row of CSV: it has a comma or a quote.
fn is_quoted(name: &[u8]) -> bool
    ensures { result ≡ list_any (λ b. (b == 44) || (b == 34)) name.now }
{
    name.iter().any(|b| *b == b',' || *b == b'"')
}

// Appends a name, each of its quotes doubled.
fn write_doubled(name: &[u8], row: &mut Vec<u8>) -> Result<(), AllocError>
    ensures { OnOk result (row.new.items ≡ row.old.items ++ doubled name.now) }
{
    for byte in name {
        if *byte == b'"' {
            row.extend_from_slice(b"\"\"")?;
        } else {
            row.push(*byte)?;
        }
    }
    Ok(())
}

/// Appends a name as it stands in a row of CSV.
pub(crate) fn write_name(name: &[u8], row: &mut Vec<u8>) -> Result<(), AllocError>
    ensures { OnOk result (row.new.items ≡ row.old.items ++ name_text name.now) }
{
    if !is_quoted(name) {
        return row.extend_from_slice(name);
    }
    row.push(b'"')?;
    write_doubled(name, row)?;
    row.push(b'"')?;
    Ok(())
}

/// Appends a time, as a date or as nanoseconds.
pub(crate) fn write_time(iso: bool, ts: u64, row: &mut Vec<u8>) -> Result<(), AllocError>
    ensures { OnOk result (row.new.items ≡ row.old.items ++ time_text iso ts) }
{
    if iso {
        return row.extend_from_slice(&ak_time::iso(ts));
    }
    write_number(ts, row)
}
