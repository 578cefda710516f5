//! Writes the parts of the spelling.
ghost use Rattle.std.specs.Prelude.{◌≡◌, ◌+◌, ◌*◌, ◌<◌, ◌≤◌, ◌^◌, ◌++◌, length, take, map, sum};
ghost use Rattle.std.specs.List.{flat_map, AllByRecursion};
ghost use Rattle.ak_meta.specs.Contents.{front_bytes, limits_bytes, fills_bytes, series_bytes, rescue_bytes};
ghost use Rattle.byteorder.specs.Endian.{little_bytes};

use crate::meta::SeriesMeta;
use ak_base::{Addr, Limits};
use ak_bytes::{clear, put_u16, put_u32, put_u64};

/// The number of the format.
pub const FORMAT: u32 = 1;

/// The bytes before the fills.
pub const FRONT: usize = 40;

/// Writes what stands before the fills.
pub fn put_front(into: &mut [u8], limits: &Limits, lo: u32, live: u32, series: u32)
    requires { 40 ≤ length into.old }
    ensures { take 40 into.new ≡ front_bytes limits.now lo live series }
{
    put_u32(into, 0, FORMAT);
    put_limits(into, limits);
    put_u32(into, 28, lo);
    put_u32(into, 32, live);
    put_u32(into, 36, series);
}

/// Writes the six limits behind the format.
fn put_limits(into: &mut [u8], limits: &Limits)
    requires { 28 ≤ length into.old }
    ensures { take 28 into.new ≡ take 4 into.old ++ limits_bytes limits.now }
{
    put_u32(into, 4, limits.volumes);
    put_u32(into, 8, limits.blocks);
    put_u32(into, 12, limits.slot);
    put_u32(into, 16, limits.pool);
    put_u32(into, 20, limits.every);
    put_u32(into, 24, limits.scale);
}

/// Writes the fills of the live ordinals and zeros for the other volumes, and gives their end.
pub fn put_fills(into: &mut [u8], volumes: u32, fills: &[u32]) -> usize
    requires live { length fills.now ≤ volumes }
    requires within { 40 + 4 * volumes ≤ length into.old }
    ensures end { result ≡ 40 + 4 * volumes }
    ensures front { take result into.new ≡ take 40 into.old ++ fills_bytes volumes fills.now }
{
    let middle = put_live(into, fills);
    let end = FRONT + 4 * volumes as usize;
    clear(&mut into[middle..end]);
    end
}

/// Writes the fills of the live ordinals, and gives their end.
fn put_live(into: &mut [u8], fills: &[u32]) -> usize
    requires { 40 + 4 * length fills.now ≤ length into.old }
    ensures end { result ≡ 40 + 4 * length fills.now }
    ensures front { take result into.new ≡ take 40 into.old ++ flat_map (little_bytes 4) fills.now }
{
    let mut end = FRONT;
    for fill in fills {
        put_u32(into, end, *fill);
        end += 4;
    }
    end
}

/// Writes series from a place on, and gives their end.
pub fn put_all(into: &mut [u8], at: usize, series: &[SeriesMeta]) -> usize
    requires within { at + sum (map (λ s. 106 + length s.name) series.now) ≤ length into.old }
    requires short { AllByRecursion (λ s. length s.name < 2 ^ 16) series.now }
    ensures end { result ≡ at + sum (map (λ s. 106 + length s.name) series.now) }
    ensures front { take result into.new ≡ take at into.old ++ flat_map series_bytes series.now }
{
    let mut end = at;
    for s in series {
        end = put_series(into, end, s);
    }
    end
}

/// Writes a series at a place, and gives its end.
fn put_series(into: &mut [u8], at: usize, series: &SeriesMeta) -> usize
    requires short { length series.now.name < 2 ^ 16 }
    requires within { at + (106 + length series.now.name) ≤ length into.old }
    ensures end { result ≡ at + (106 + length series.now.name) }
    ensures front { take result into.new ≡ take at into.old ++ series_bytes series.now }
{
    let name = series.name.as_str().as_bytes();
    let middle = at + 2 + name.len();
    put_u16(into, at, name.len() as u16);
    put_bytes(into, at + 2, name);
    put_u64(into, middle, series.leaves);
    put_u64(into, middle + 8, series.last);
    put_rescue(into, middle + 16, &series.rescue)
}

/// Writes bytes at a place.
fn put_bytes(into: &mut [u8], at: usize, bytes: &[u8])
    requires { at + length bytes.now ≤ length into.old }
    ensures { take (at + length bytes.now) into.new ≡ take at into.old ++ bytes.now }
{
    into[at..at + bytes.len()].copy_from_slice(bytes);
}

/// Writes rescue addresses from a place on, and gives their end.
fn put_rescue(into: &mut [u8], at: usize, rescue: &[Addr]) -> usize
    requires { at + 8 * length rescue.now ≤ length into.old }
    ensures end { result ≡ at + 8 * length rescue.now }
    ensures front { take result into.new ≡ take at into.old ++ rescue_bytes rescue.now }
{
    let mut end = at;
    for a in rescue {
        put_u64(into, end, a.0);
        end += 8;
    }
    end
}
