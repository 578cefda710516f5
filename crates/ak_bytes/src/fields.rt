//! Fields of fixed width, the lowest byte first.
ghost use Rattle.std.specs.Prelude.{◌≡◌, ◌≤◌, ◌+◌, ◌++◌, length, take, drop};
ghost use Rattle.byteorder.specs.Endian.{little_bytes};
ghost use Rattle.ak_bytes.specs.Fields.{IsPut, signed_bytes};

use byteorder::{ByteOrder, LittleEndian};

/// Writes a field of one byte.
pub fn put_u8(into: &mut [u8], at: usize, x: u8)
    requires { at + 1 ≤ length into.old }
    ensures { IsPut into.old into.new at (at + 1) (little_bytes 1 x) }
{
    into[at] = x;
}

/// Writes a field of two bytes.
pub fn put_u16(into: &mut [u8], at: usize, x: u16)
    requires { at + 2 ≤ length into.old }
    ensures { IsPut into.old into.new at (at + 2) (little_bytes 2 x) }
{
    LittleEndian::write_u16(&mut into[at..at + 2], x);
}

/// Writes a field of four bytes.
pub fn put_u32(into: &mut [u8], at: usize, x: u32)
    requires { at + 4 ≤ length into.old }
    ensures { IsPut into.old into.new at (at + 4) (little_bytes 4 x) }
{
    LittleEndian::write_u32(&mut into[at..at + 4], x);
}

/// Writes a field of eight bytes.
pub fn put_u64(into: &mut [u8], at: usize, x: u64)
    requires { at + 8 ≤ length into.old }
    ensures { IsPut into.old into.new at (at + 8) (little_bytes 8 x) }
{
    LittleEndian::write_u64(&mut into[at..at + 8], x);
}

/// Writes a signed field of eight bytes.
pub fn put_i64(into: &mut [u8], at: usize, x: i64)
    requires { at + 8 ≤ length into.old }
    ensures { IsPut into.old into.new at (at + 8) (signed_bytes 8 x) }
{
    LittleEndian::write_i64(&mut into[at..at + 8], x);
}

/// Writes a signed field of sixteen bytes.
pub fn put_i128(into: &mut [u8], at: usize, x: i128)
    requires { at + 16 ≤ length into.old }
    ensures { IsPut into.old into.new at (at + 16) (signed_bytes 16 x) }
{
    LittleEndian::write_i128(&mut into[at..at + 16], x);
}

/// Reads a field of one byte.
pub fn get_u8(from: &[u8], at: usize) -> u8
    requires { at + 1 ≤ length from.now }
    ensures { take (at + 1) from.now ≡ take at from.now ++ little_bytes 1 result }
{
    from[at]
}

/// Reads a field of two bytes.
pub fn get_u16(from: &[u8], at: usize) -> u16
    requires { at + 2 ≤ length from.now }
    ensures { take (at + 2) from.now ≡ take at from.now ++ little_bytes 2 result }
{
    LittleEndian::read_u16(&from[at..])
}

/// Reads a field of four bytes.
pub fn get_u32(from: &[u8], at: usize) -> u32
    requires { at + 4 ≤ length from.now }
    ensures { take (at + 4) from.now ≡ take at from.now ++ little_bytes 4 result }
{
    LittleEndian::read_u32(&from[at..])
}

/// Reads a field of eight bytes.
pub fn get_u64(from: &[u8], at: usize) -> u64
    requires { at + 8 ≤ length from.now }
    ensures { take (at + 8) from.now ≡ take at from.now ++ little_bytes 8 result }
{
    LittleEndian::read_u64(&from[at..])
}

/// Reads a signed field of eight bytes.
pub fn get_i64(from: &[u8], at: usize) -> i64
    requires { at + 8 ≤ length from.now }
    ensures { take (at + 8) from.now ≡ take at from.now ++ signed_bytes 8 result }
{
    LittleEndian::read_i64(&from[at..])
}

/// Reads a signed field of sixteen bytes.
pub fn get_i128(from: &[u8], at: usize) -> i128
    requires { at + 16 ≤ length from.now }
    ensures { take (at + 16) from.now ≡ take at from.now ++ signed_bytes 16 result }
{
    LittleEndian::read_i128(&from[at..])
}
