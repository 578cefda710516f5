//! Texts of decimal digits.
ghost use Rattle.std.specs.Prelude.{◌≡◌, ◌+◌, ◌*◌, ◌^◌, ◌<◌, ◌≤◌, min, length, SomeIff, IfSome};
ghost use Rattle.std.specs.Str.Parse.{IsNumeral, digits_value};

// 2^64: all numbers from here on count as this one.
const TOO_LARGE: u128 = 18_446_744_073_709_551_616;

/// The number that the digits write, and 2^64 for each number from there on. None where the text isn't one digit or
/// more.
pub(crate) fn number(digits: &[u8]) -> Option<u128>
    ensures { SomeIff result (IsNumeral 10 digits.now) (min (digits_value 10 digits.now) (2 ^ 64)) }
{
    if digits.is_empty() {
        return None;
    }
    let mut number: u128 = 0;
    for byte in digits {
        if !byte.is_ascii_digit() {
            return None;
        }
        let next = number * 10 + (*byte - b'0') as u128;
        number = if next < TOO_LARGE { next } else { TOO_LARGE };
    }
    Some(number)
}

/// The number that at most nine digits write. None where the text isn't one digit or more.
pub(crate) fn field(digits: &[u8]) -> Option<u32>
    requires { length digits.now ≤ 9 }
    ensures exact { SomeIff result (IsNumeral 10 digits.now) (digits_value 10 digits.now) }
    ensures small { IfSome result (λ n. n < 10 ^ length digits.now) }
{
    match number(digits) {
        Some(n) => Some(n as u32),
        None => None,
    }
}
