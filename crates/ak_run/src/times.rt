//! The times of puts: whole numbers of nanoseconds.
ghost use Rattle.std.specs.Prelude.{◌↔◌, IsTrue};
ghost use Rattle.std.specs.Str.Parse.{IsNumeral};
ghost use Rattle.ak_time.specs.Times.{IsWhole};
ghost use Rattle.ak_run.specs.Asking.{TimeGives};

use ak_base::Refusal;
use ak_time::read_time;

// Whether the text is one digit or more.
fn is_numeral(text: &[u8]) -> bool
    ensures { IsTrue result ↔ IsNumeral 10 text.now }
{
    for byte in text {
        if !byte.is_ascii_digit() {
            return false;
        }
    }
    !text.is_empty()
}

// Whether the text is one digit or more, behind a sign or none.
fn is_whole(text: &[u8]) -> bool
    ensures { IsTrue result ↔ IsWhole text.now }
{
    match text {
        [b'-', digits @ ..] => is_numeral(digits),
        [b'+', digits @ ..] => is_numeral(digits),
        _ => is_numeral(text),
    }
}

/// The time that a text gives, in nanoseconds since the beginning of 1970.
///
/// # Errors
///
/// `NotBuilt` where the text is no whole number. `TimeRange` where it is one below 0 or above 2^64 - 1.
pub fn read_put_time(text: &[u8]) -> Result<u64, Refusal>
    ensures { TimeGives text.now result }
{
    if !is_whole(text) {
        return Err(Refusal::NotBuilt);
    }
    read_time(text).or(Err(Refusal::TimeRange))
}
