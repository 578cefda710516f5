//! The texts of moments.
ghost use Rattle.std.specs.Prelude.{◌≡◌, ℕ, List, pos, ◌<◌, length};
ghost use Rattle.std.specs.Str.Parse.{IsNumeral, digits_value};
ghost use Rattle.ak_time.specs.Dates.{iso_text};
ghost use Rattle.ak_time.specs.Times.{IsCivilTime, ReadsTime};

use crate::civil::parts_at;

// Two digits.
fn two(n: u32) -> [u8; 2]
    requires { n < 100 }
    ensures digits { IsNumeral 10 result }
    ensures value { digits_value 10 result ≡ n }
{
    [b'0' + (n / 10) as u8, b'0' + (n % 10) as u8]
}

// Four digits.
fn four(n: u32) -> [u8; 4]
    requires { n < 10000 }
    ensures digits { IsNumeral 10 result }
    ensures value { digits_value 10 result ≡ n }
{
    let high = two(n / 100);
    let low = two(n % 100);
    [high[0], high[1], low[0], low[1]]
}

// Nine digits.
fn nine(n: u32) -> [u8; 9]
    requires { n < 1_000_000_000 }
    ensures digits { IsNumeral 10 result }
    ensures value { digits_value 10 result ≡ n }
{
    let high = four(n / 100_000);
    let low = four(n / 10 % 10_000);
    [
        high[0],
        high[1],
        high[2],
        high[3],
        low[0],
        low[1],
        low[2],
        low[3],
        b'0' + (n % 10) as u8,
    ]
}

/// The text of a moment in UTC, as `20141210T074343.999999999`: the one text of 25 bytes that has a date and a time and
/// reads as the moment.
pub fn iso(ts: u64) -> [u8; 25]
    ensures civil { IsCivilTime result }
    ensures reads { ReadsTime result (pos ts) }
    ensures one { (text : List ℕ) → length text ≡ 25 → IsCivilTime text → ReadsTime text (pos ts) → text ≡ result }
    ensures text { result ≡ iso_text ts }
{
    let p = parts_at(ts);
    let y = four(p.year as u32);
    let mo = two(p.month as u32);
    let d = two(p.day as u32);
    let h = two(p.hour as u32);
    let mi = two(p.minute as u32);
    let s = two(p.second as u32);
    let n = nine(p.nanos);
    [
        y[0], y[1], y[2], y[3], mo[0], mo[1], d[0], d[1], b'T', h[0], h[1], mi[0], mi[1], s[0],
        s[1], b'.', n[0], n[1], n[2], n[3], n[4], n[5], n[6], n[7], n[8],
    ]
}
