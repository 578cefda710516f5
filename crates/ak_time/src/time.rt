//! The reading of times.
ghost use Rattle.std.specs.Prelude.{◌≡◌, ◌↔◌, ◌⊎◌, ℕ, ℤ, pos, neg_ℤ, ◌^◌, ◌<◌, IsErrOf, IfErr};
ghost use Rattle.std.specs.Str.Parse.{IsNumeral, digits_value};
ghost use Rattle.ak_time.specs.Times.{IsTimestamp, IsWhole, whole, IsCivilTime, civil_moment, ReadsTime, Answers};

use crate::civil::{moment_of, parts_in};
use crate::digits::number;
use ak_base::Refusal;

// The number of nanoseconds that digits write.
fn read_unsigned(digits: &[u8]) -> Result<u64, Refusal>
    ensures { Answers (IsNumeral 10 digits.now) (pos (digits_value 10 digits.now)) result }
{
    let number = number(digits).ok_or(Refusal::BadTime)?;
    u64::try_from(number).map_err(|_| Refusal::TimeRange)
}

// The number of nanoseconds below 0 that digits behind a minus write, which only `0` is.
fn read_negative(digits: &[u8]) -> Result<u64, Refusal>
    ensures { Answers (IsNumeral 10 digits.now) (neg_ℤ (pos (digits_value 10 digits.now))) result }
{
    match number(digits) {
        Some(number) => {
            if number == 0 {
                Ok(0)
            } else {
                Err(Refusal::TimeRange)
            }
        }
        None => Err(Refusal::BadTime),
    }
}

// The number of nanoseconds that a sign, which may be left out, and digits write.
fn read_whole(text: &[u8]) -> Result<u64, Refusal>
    ensures { Answers (IsWhole text.now) (whole text.now) result }
{
    match text {
        [b'-', digits @ ..] => read_negative(digits),
        [b'+', digits @ ..] => read_unsigned(digits),
        _ => read_unsigned(text),
    }
}

// The moment of a text of a date and a time.
fn read_civil(text: &[u8]) -> Result<u64, Refusal>
    ensures { Answers (IsCivilTime text.now) (civil_moment text.now) result }
{
    let parts = parts_in(text).ok_or(Refusal::BadTime)?;
    moment_of(parts)
}

/// The moment that a text reads as, in nanoseconds since the beginning of 1970: a whole number of nanoseconds, with or
/// without a sign, or a date and a time in UTC as `20141210T074343.999999999`, whose fraction may be shorter or left
/// out.
///
/// # Errors
///
/// `BadTime` where the text has neither shape, or shows a date that isn't in the calendar or a time that no clock
/// shows. `TimeRange` where the moment is before 1970 or above 2^64 - 1.
pub fn read_time(text: &[u8]) -> Result<u64, Refusal>
    ensures ok { (t : ℕ) → (result ≡ Ok t) ↔ (ReadsTime text.now (pos t) × (t < 2 ^ 64)) }
    ensures bad { IsErrOf result Refusal.BadTime ↔ ((m : ℤ) → ¬ (ReadsTime text.now m)) }
    ensures range { IsErrOf result Refusal.TimeRange ↔ ((m : ℤ) × ReadsTime text.now m × ¬ (IsTimestamp m)) }
    ensures error { IfErr result (λ e. (e ≡ Refusal.BadTime) ⊎ (e ≡ Refusal.TimeRange)) }
{
    if text.len() > 8 && text[8] == b'T' {
        read_civil(text)
    } else {
        read_whole(text)
    }
}
