//! How values are written.
ghost use Rattle.std.specs.Prelude.{◌≡◌, ◌++◌, ◌^◌, ◌<◌, ◌≤◌, ◌∷◌, [], OnOk, decimal};
ghost use Rattle.ak_base.specs.RowTexts.{trimmed, fraction_text, size_text, value_text};

use itoa::Buffer;
use std::alloc::AllocError;

/// Appends a number in decimal digits.
pub(crate) fn write_number(number: u64, row: &mut Vec<u8>) -> Result<(), AllocError>
    ensures { OnOk result (row.new.items ≡ row.old.items ++ decimal number) }
{
    let mut buffer = Buffer::new();
    row.extend_from_slice(buffer.format(number).as_bytes())
}

// Appends a large number in decimal digits.
fn write_wide(number: u128, row: &mut Vec<u8>) -> Result<(), AllocError>
    ensures { OnOk result (row.new.items ≡ row.old.items ++ decimal number) }
{
    let mut buffer = Buffer::new();
    row.extend_from_slice(buffer.format(number).as_bytes())
}

// The digits without the zeros at their end.
fn without_zeros(digits: &[u8]) -> &[u8]
    ensures { result.now ≡ trimmed digits.now }
{
    let mut count = digits.len();
    while count > 0 && digits[count - 1] == b'0' {
        count -= 1;
    }
    &digits[..count]
}

// Appends what stands behind the whole part: nothing, or a point and digits, the last of them not 0.
fn write_fraction(scale: u32, rest: u64, row: &mut Vec<u8>) -> Result<(), AllocError>
    requires scale { scale ≤ 9 }
    requires below { rest < 10 ^ scale }
    ensures { OnOk result (row.new.items ≡ row.old.items ++ fraction_text scale rest) }
{
    if rest == 0 {
        return Ok(());
    }
    let mut buffer = Buffer::new();
    let digits = buffer.format(rest).as_bytes();
    let zeros = [b'0'; 9];
    row.push(b'.')?;
    row.extend_from_slice(&zeros[..scale as usize - digits.len()])?;
    row.extend_from_slice(without_zeros(digits))
}

// Appends so many units of 10^-scale, in 64 bits.
fn write_small(scale: u32, units: u64, row: &mut Vec<u8>) -> Result<(), AllocError>
    requires { scale ≤ 9 }
    ensures { OnOk result (row.new.items ≡ row.old.items ++ size_text scale units) }
{
    let one = 10_u64.pow(scale);
    write_number(units / one, row)?;
    write_fraction(scale, units % one, row)
}

// Appends so many units of 10^-scale.
fn write_large(scale: u32, units: u128, row: &mut Vec<u8>) -> Result<(), AllocError>
    requires { scale ≤ 9 }
    ensures { OnOk result (row.new.items ≡ row.old.items ++ size_text scale units) }
{
    let one = 10_u64.pow(scale) as u128;
    write_wide(units / one, row)?;
    write_fraction(scale, (units % one) as u64, row)
}

fn write_size(scale: u32, units: u128, row: &mut Vec<u8>) -> Result<(), AllocError>
    requires { scale ≤ 9 }
    ensures { OnOk result (row.new.items ≡ row.old.items ++ size_text scale units) }
{
    match u64::try_from(units) {
        Ok(units) => write_small(scale, units, row),
        Err(_) => write_large(scale, units, row),
    }
}

/// Appends a value of so many units of 10^-scale.
pub(crate) fn write_value(scale: u32, units: i128, row: &mut Vec<u8>) -> Result<(), AllocError>
    requires { scale ≤ 9 }
    ensures { OnOk result (row.new.items ≡ row.old.items ++ value_text scale units) }
{
    if units >= 0 {
        return write_size(scale, units.unsigned_abs(), row);
    }
    row.push(b'-')?;
    write_size(scale, units.unsigned_abs(), row)
}
