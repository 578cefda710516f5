//! The reading of values.
ghost use Rattle.std.specs.Prelude.{◌≡◌, ◌↔◌, ℕ, ℤ, ◌-◌, ◌*◌, ◌^◌, ◌≤◌, ◌⊎◌, pos, neg_ℤ, min, List, length, take, drop, IsTrue, IfSome, IfNone, IfErr, IsErrOf, SomeIff};
ghost use Rattle.std.specs.Str.Parse.{AllDigits, digits_value_after};
ghost use Rattle.ak_base.specs.Values.{IsValue, AreZeros, IsTail, ReadsUnits, ReadsValue, Answers};

use crate::digits::{digits_at_front, short_number};
use crate::refusal::Refusal;

// Whether each byte is a `0`.
fn are_zeros(text: &[u8]) -> bool
    ensures { IsTrue result ↔ AreZeros text.now }
{
    for byte in text {
        if *byte != b'0' {
            return false;
        }
    }
    true
}

// What stands behind the point, and nothing where nothing stands behind the whole part.
fn fraction_in(tail: &[u8]) -> Option<&[u8]>
    ensures some { IfSome result (λ fraction. IsTail tail.now fraction.now) }
    ensures none { IfNone result ((fraction : List ℕ) → ¬ (IsTail tail.now fraction)) }
{
    match tail {
        [] => Some(tail),
        [b'.', fraction @ ..] => Some(fraction),
        _ => None,
    }
}

// The units of a whole part and a fraction, and 2^64 - 1 where they are more. None where the fraction has a byte that
// isn't a digit, or a digit past the scale that isn't 0.
fn with_fraction(whole: u64, fraction: &[u8], scale: u32) -> Option<u64>
    requires { scale ≤ 9 }
    ensures { SomeIff result (AllDigits 10 fraction.now × AreZeros (drop scale fraction.now)) (min (digits_value_after 10 whole (take scale fraction.now) * 10 ^ (scale - length (take scale fraction.now))) (2 ^ 64 - 1)) }
{
    let places = (scale as usize).min(fraction.len());
    let (kept, past) = fraction.split_at(places);
    let front = digits_at_front(whole, kept);
    if front.count < places {
        return None;
    }
    if !are_zeros(past) {
        return None;
    }
    Some(raised(front.number, scale - places as u32))
}

// A number times a power of ten, and 2^64 - 1 where that is more.
fn raised(number: u64, power: u32) -> u64
    requires { power ≤ 9 }
    ensures { result ≡ min (number * 10 ^ power) (2 ^ 64 - 1) }
{
    if power == 0 {
        return number;
    }
    number.saturating_mul(10_u64.pow(power))
}

// The units of a text without a sign, and 2^64 - 1 where they are more.
fn read_units(text: &[u8], scale: u32) -> Option<u64>
    requires { scale ≤ 9 }
    ensures some { IfSome result (λ units. (n : ℕ) × ReadsUnits text.now scale n × (units ≡ min n (2 ^ 64 - 1))) }
    ensures none { IfNone result ((n : ℕ) → ¬ (ReadsUnits text.now scale n)) }
{
    if let Some(number) = short_number(text) {
        return Some(raised(number, scale));
    }
    let whole = digits_at_front(0, text);
    let (_, tail) = text.split_at(whole.count);
    let fraction = fraction_in(tail)?;
    if whole.count == 0 && fraction.is_empty() {
        return None;
    }
    with_fraction(whole.number, fraction, scale)
}

// The value of a text behind a `+` or no sign.
fn read_positive(text: &[u8], scale: u32) -> Result<i64, Refusal>
    requires { scale ≤ 9 }
    ensures { Answers (λ n. ReadsUnits text.now scale n) (λ n. pos n) result }
{
    let units = read_units(text, scale).ok_or(Refusal::BadValue)?;
    0_i64.checked_add_unsigned(units).ok_or(Refusal::ValueRange)
}

// The value of a text behind a `-`.
fn read_negative(text: &[u8], scale: u32) -> Result<i64, Refusal>
    requires { scale ≤ 9 }
    ensures { Answers (λ n. ReadsUnits text.now scale n) (λ n. neg_ℤ (pos n)) result }
{
    let units = read_units(text, scale).ok_or(Refusal::BadValue)?;
    0_i64.checked_sub_unsigned(units).ok_or(Refusal::ValueRange)
}

/// The value that a text reads as, in units of `10^-scale`: an optional `+` or `-`, digits, and optionally a point and
/// digits, with at least one digit in all and zeros alone past the scale. So `-12.5` at scale 3 is -12,500.
///
/// # Errors
///
/// `BadValue` where the text has another shape. `ValueRange` where it has this shape and the value is below -2^63 or
/// above 2^63 - 1.
pub fn read_value(text: &[u8], scale: u32) -> Result<i64, Refusal>
    requires { scale ≤ 9 }
    ensures ok { (v : ℤ) → (result ≡ Ok v) ↔ (ReadsValue text.now scale v × IsValue v) }
    ensures bad { IsErrOf result Refusal.BadValue ↔ ((v : ℤ) → ¬ (ReadsValue text.now scale v)) }
    ensures range { IsErrOf result Refusal.ValueRange ↔ ((v : ℤ) × ReadsValue text.now scale v × ¬ (IsValue v)) }
    ensures errors { IfErr result (λ e. (e ≡ Refusal.BadValue) ⊎ (e ≡ Refusal.ValueRange)) }
{
    match text {
        [b'-', decimal @ ..] => read_negative(decimal, scale),
        [b'+', decimal @ ..] => read_positive(decimal, scale),
        _ => read_positive(text, scale),
    }
}
