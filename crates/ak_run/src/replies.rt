//! The bytes that sessions are told.
ghost use Rattle.std.specs.Prelude.{◌≡◌, ◌++◌, ◌^◌, ◌<◌, ◌≤◌, OnOk, ◌==◌, ◌||◌};
ghost use Rattle.std.specs.List.{list_any};
ghost use Rattle.ak_base.specs.RowTexts.{trimmed, fraction_text, size_text, value_text, doubled, name_text};
ghost use Rattle.ak_run.specs.Replies.{refusal_reply, bulk_reply, row_text};

use ak_base::{Bytes, Point, Refusal};
use itoa::Buffer;
use std::alloc::{AllocError, Global};

/// Appends a refusal: its number and its text.
pub fn write_refusal(alloc: Global, refusal: Refusal, reply: &mut Bytes) -> Result<(), AllocError>
    ensures { OnOk result (reply.new ≡ reply.old ++ refusal_reply refusal) }
{
    reply.extend(alloc, b"-ERR ")?;
    reply.extend_decimal(alloc, u64::from(refusal.code()))?;
    reply.extend(alloc, b" ")?;
    refusal.write(alloc, reply)?;
    reply.extend(alloc, b"\r\n")
}

/// Appends a text as a bulk.
pub fn write_bulk(alloc: Global, text: &[u8], reply: &mut Bytes) -> Result<(), AllocError>
    ensures { OnOk result (reply.new ≡ reply.old ++ bulk_reply text.now) }
{
    reply.extend(alloc, b"$")?;
    reply.extend_decimal(alloc, text.len() as u64)?;
    reply.extend(alloc, b"\r\n")?;
    reply.extend(alloc, text)?;
    reply.extend(alloc, b"\r\n")
}

// The digits without the zeros at their end.
fn without_zeros(digits: &[u8]) -> &[u8]
    ensures { result.now ≡ trimmed digits.now }
{
    let mut count = digits.len();
    while count > 0 && digits[count - 1] == b'0' {
        count -= 1;
    }
    &digits[..count]
}

// Appends what stands behind the whole part: nothing, or a point and digits, the last of them not 0.
fn write_fraction(alloc: Global, scale: u32, rest: u64, text: &mut Bytes) -> Result<(), AllocError>
    requires scale { scale ≤ 9 }
    requires below { rest < 10 ^ scale }
    ensures { OnOk result (text.new ≡ text.old ++ fraction_text scale rest) }
{
    if rest == 0 {
        return Ok(());
    }
    let mut buffer = Buffer::new();
    let digits = buffer.format(rest).as_bytes();
    let zeros = [b'0'; 9];
    text.extend(alloc, b".")?;
    text.extend(alloc, &zeros[..scale as usize - digits.len()])?;
    text.extend(alloc, without_zeros(digits))
}

// Appends so many units of 10^-scale.
fn write_size(alloc: Global, scale: u32, units: u64, text: &mut Bytes) -> Result<(), AllocError>
    requires { scale ≤ 9 }
    ensures { OnOk result (text.new ≡ text.old ++ size_text scale units) }
{
    let one = 10_u64.pow(scale);
    text.extend_decimal(alloc, units / one)?;
    write_fraction(alloc, scale, units % one, text)
}

// Appends a value of so many units of 10^-scale.
fn write_value(alloc: Global, scale: u32, value: i64, text: &mut Bytes) -> Result<(), AllocError>
    requires { scale ≤ 9 }
    ensures { OnOk result (text.new ≡ text.old ++ value_text scale value) }
{
    if value >= 0 {
        return write_size(alloc, scale, value.unsigned_abs(), text);
    }
    text.extend(alloc, b"-")?;
    write_size(alloc, scale, value.unsigned_abs(), text)
}

/// Whether a name stands in quotes in a row: it has a comma or a quote.
pub fn is_quoted(name: &[u8]) -> bool
    ensures { result ≡ list_any (λ b. (b == 44) || (b == 34)) name.now }
{
    name.iter().any(|b| *b == b',' || *b == b'"')
}

// Appends a name, each of its quotes doubled.
fn write_doubled(alloc: Global, name: &[u8], text: &mut Bytes) -> Result<(), AllocError>
    ensures { OnOk result (text.new ≡ text.old ++ doubled name.now) }
{
    for byte in name {
        if *byte == b'"' {
            text.extend(alloc, b"\"\"")?;
        } else {
            text.push(alloc, *byte)?;
        }
    }
    Ok(())
}

// Appends a name as it stands in a row.
fn write_name(alloc: Global, name: &[u8], quoted: bool, text: &mut Bytes) -> Result<(), AllocError>
    requires { quoted ≡ list_any (λ b. (b == 44) || (b == 34)) name.now }
    ensures { OnOk result (text.new ≡ text.old ++ name_text name.now) }
{
    if !quoted {
        return text.extend(alloc, name);
    }
    text.extend(alloc, b"\"")?;
    write_doubled(alloc, name, text)?;
    text.extend(alloc, b"\"")
}

/// Appends the row of a point: the name, the time and the value.
pub fn write_row(
    alloc: Global,
    scale: u32,
    name: &[u8],
    quoted: bool,
    point: Point,
    text: &mut Bytes,
) -> Result<(), AllocError>
    requires scale { scale ≤ 9 }
    requires quoted { quoted ≡ list_any (λ b. (b == 44) || (b == 34)) name.now }
    ensures { OnOk result (text.new ≡ text.old ++ row_text scale name.now point) }
{
    write_name(alloc, name, quoted, text)?;
    text.extend(alloc, b",")?;
    text.extend_decimal(alloc, point.ts)?;
    text.extend(alloc, b",")?;
    write_value(alloc, scale, point.value, text)?;
    text.extend(alloc, b"\n")
}
