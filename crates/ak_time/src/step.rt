//! The reading of steps.
ghost use Rattle.std.specs.Prelude.{◌≡◌, ◌↔◌, ℕ, ◌^◌, ◌<◌, ◌≤◌, ◌≢◌, length, take, slice_index};
ghost use Rattle.std.specs.Char.{digit_value};
ghost use Rattle.std.specs.Str.Parse.{AllDigits};
ghost use Rattle.ak_time.specs.Steps.{IsUnit, ReadsStep};

use crate::digits::number;

// How many digits stand at the front.
fn digits_at_front(text: &[u8]) -> usize
    ensures within { result ≤ length text.now }
    ensures digits { AllDigits 10 (take result text.now) }
    ensures end { result < length text.now → 10 ≤ digit_value (slice_index text.now result) }
{
    for (i, byte) in text.iter().enumerate() {
        if !byte.is_ascii_digit() {
            return i;
        }
    }
    text.len()
}

// The nanoseconds of a unit.
fn unit_size(unit: &[u8]) -> Option<u64>
    ensures { (n : ℕ) → (result ≡ Some n) ↔ IsUnit unit.now n }
{
    if unit.is_empty() {
        return Some(1);
    }
    if unit == b"ns".as_slice() {
        Some(1)
    } else if unit == b"us".as_slice() {
        Some(1_000)
    } else if unit == b"ms".as_slice() {
        Some(1_000_000)
    } else if unit == b"s".as_slice() {
        Some(1_000_000_000)
    } else if unit == b"m".as_slice() {
        Some(60_000_000_000)
    } else if unit == b"h".as_slice() {
        Some(3_600_000_000_000)
    } else if unit == b"d".as_slice() {
        Some(86_400_000_000_000)
    } else {
        None
    }
}

/// The step that a text reads as, in nanoseconds: 1 to 20 digits and a unit of `ns`, `us`, `ms`, `s`, `m`, `h` and `d`,
/// or none for nanoseconds. None where the text has another shape, or the product is 0 or above 2^64 - 1.
pub fn read_step(text: &[u8]) -> Option<u64>
    ensures { (n : ℕ) → (result ≡ Some n) ↔ (ReadsStep text.now n × (1 ≤ n) × (n < 2 ^ 64)) }
{
    let count = digits_at_front(text);
    if count > 20 {
        return None;
    }
    let number = number(&text[..count])?;
    let size = unit_size(&text[count..])?;
    match u64::try_from(number * size as u128) {
        Ok(0) => None,
        Ok(step) => Some(step),
        Err(_) => None,
    }
}
