//! Texts of a date and a time of day, and the calendar.
ghost use Rattle.std.specs.Prelude.{◌≡◌, ◌↔◌, ◌<◌, ◌≤ℤ◌, pos, IfSome, IsSome, SomeIff};
ghost use Rattle.jiff_core.specs.DateTime.{civil_nanos};
ghost use Rattle.ak_time.specs.Calendar.{IsShown, moment};
ghost use Rattle.ak_time.specs.Times.{IsTimestamp, IsFraction, fraction_nanos, IsCivilText, parts_of, Answers};

use crate::digits::field;
use ak_base::Refusal;
use jiff::Timestamp;
use jiff::civil::DateTime;
use jiff::tz::Offset;

/// The parts of a date and a time of day.
#[derive(Clone, Copy)]
pub struct Parts {
    pub year: u16,
    pub month: u8,
    pub day: u8,
    pub hour: u8,
    pub minute: u8,
    pub second: u8,
    pub nanos: u32,
}

// The nanoseconds of a fraction, which may be left out.
fn fraction(text: &[u8]) -> Option<u32>
    ensures { SomeIff result (IsFraction text.now) (fraction_nanos text.now) }
{
    match text {
        [] => Some(0),
        [b'.', digits @ ..] => {
            if digits.len() > 9 {
                return None;
            }
            let number = field(digits)?;
            Some(number * 10_u32.pow(9 - digits.len() as u32))
        }
        _ => None,
    }
}

/// The parts that a text of a date and a time shows. None where it has another shape.
pub(crate) fn parts_in(text: &[u8]) -> Option<Parts>
    ensures { SomeIff result (IsCivilText text.now) (parts_of text.now) }
{
    if text.len() < 15 || text[8] != b'T' {
        return None;
    }
    Some(Parts {
        year: field(&text[0..4])? as u16,
        month: field(&text[4..6])? as u8,
        day: field(&text[6..8])? as u8,
        hour: field(&text[9..11])? as u8,
        minute: field(&text[11..13])? as u8,
        second: field(&text[13..15])? as u8,
        nanos: fraction(&text[15..])?,
    })
}

// The datetime of the parts.
fn datetime_of(p: Parts) -> Option<DateTime>
    requires year { p.year < 10000 }
    requires month { p.month < 100 }
    requires day { p.day < 100 }
    requires hour { p.hour < 100 }
    requires minute { p.minute < 100 }
    requires second { p.second < 100 }
    requires nanos { p.nanos < 1_000_000_000 }
    ensures is_some { IsSome result ↔ IsShown p }
    ensures value { IfSome result (λ dt. civil_nanos dt ≡ moment p) }
{
    match DateTime::new(
        p.year as i16,
        p.month as i8,
        p.day as i8,
        p.hour as i8,
        p.minute as i8,
        p.second as i8,
        p.nanos as i32,
    ) {
        Ok(dt) => Some(dt),
        Err(_) => None,
    }
}

// The instant, in UTC.
fn instant(dt: DateTime) -> Option<u64>
    ensures is_some { IsSome result ↔ IsTimestamp (civil_nanos dt) }
    ensures value { IfSome result (λ t. pos t ≡ civil_nanos dt) }
{
    match Offset::UTC.to_timestamp(dt) {
        Ok(t) => u64::try_from(t.as_nanosecond()).ok(),
        Err(_) => None,
    }
}

/// The moment that the parts show.
pub(crate) fn moment_of(p: Parts) -> Result<u64, Refusal>
    requires year { p.year < 10000 }
    requires month { p.month < 100 }
    requires day { p.day < 100 }
    requires hour { p.hour < 100 }
    requires minute { p.minute < 100 }
    requires second { p.second < 100 }
    requires nanos { p.nanos < 1_000_000_000 }
    ensures { Answers (IsShown p) (moment p) result }
{
    let dt = datetime_of(p).ok_or(Refusal::BadTime)?;
    instant(dt).ok_or(Refusal::TimeRange)
}

// The datetime at a moment.
fn datetime_at(ts: u64) -> DateTime
    ensures { civil_nanos result ≡ pos ts }
{
    let t = Timestamp::from_nanosecond(ts as i128).unwrap();
    Offset::UTC.to_datetime(t)
}

// The year, which is 1970 or later.
fn year_of(dt: DateTime) -> u16
    requires { pos 0 ≤ℤ civil_nanos dt }
    ensures { pos result ≡ dt.date.year }
{
    match u16::try_from(dt.year()) {
        Ok(year) => year,
        Err(_) => 0,
    }
}

/// What a clock in UTC shows at a moment.
pub(crate) fn parts_at(ts: u64) -> Parts
    ensures shown { IsShown result }
    ensures moment { moment result ≡ pos ts }
{
    let dt = datetime_at(ts);
    let plain = dt.to_plain();
    Parts {
        year: year_of(dt),
        month: plain.date.month,
        day: plain.date.day,
        hour: plain.time.hour,
        minute: plain.time.minute,
        second: plain.time.second,
        nanos: plain.time.subsec_nanosecond,
    }
}
