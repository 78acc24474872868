//! Numbers in a record's bytes, little endian, each at a place counted from 0.
//!
//! A field is written behind those written before it, so a record's bytes grow from the front.

ghost use Rattle.std.specs.Prelude.{◌≡◌, ◌+◌, ◌^◌, ◌<◌, ◌≤◌, ◌++◌, length, take};
ghost use Rattle.tf_records.specs.LittleEndian.{little_endian, number_at};

use byteorder::{ByteOrder, LittleEndian};

/// The number in the two bytes from `place` on.
pub fn read_u16(bytes: &[u8], place: usize) -> u16
    requires { place + 2 ≤ length bytes.now }
    ensures { result ≡ number_at place 2 bytes.now }
{
    LittleEndian::read_u16(&bytes[place..])
}

/// The number in the four bytes from `place` on.
pub fn read_u32(bytes: &[u8], place: usize) -> u32
    requires { place + 4 ≤ length bytes.now }
    ensures { result ≡ number_at place 4 bytes.now }
{
    LittleEndian::read_u32(&bytes[place..])
}

/// The number in the eight bytes from `place` on.
pub fn read_u64(bytes: &[u8], place: usize) -> u64
    requires { place + 8 ≤ length bytes.now }
    ensures { result ≡ number_at place 8 bytes.now }
{
    LittleEndian::read_u64(&bytes[place..])
}

/// The number in the sixteen bytes from `place` on.
pub fn read_u128(bytes: &[u8], place: usize) -> u128
    requires { place + 16 ≤ length bytes.now }
    ensures { result ≡ number_at place 16 bytes.now }
{
    LittleEndian::read_u128(&bytes[place..])
}

/// Writes the two bytes of `number` from `place` on.
pub fn write_u16(bytes: &mut [u8], place: usize, number: u16)
    requires { place + 2 ≤ length bytes.old }
    ensures written { take (place + 2) bytes.new ≡ take place bytes.old ++ little_endian 2 number }
    ensures fits { number < 256 ^ 2 }
{
    LittleEndian::write_u16(&mut bytes[place..], number);
}

/// Writes the four bytes of `number` from `place` on.
pub fn write_u32(bytes: &mut [u8], place: usize, number: u32)
    requires { place + 4 ≤ length bytes.old }
    ensures written { take (place + 4) bytes.new ≡ take place bytes.old ++ little_endian 4 number }
    ensures fits { number < 256 ^ 4 }
{
    LittleEndian::write_u32(&mut bytes[place..], number);
}

/// Writes the eight bytes of `number` from `place` on.
pub fn write_u64(bytes: &mut [u8], place: usize, number: u64)
    requires { place + 8 ≤ length bytes.old }
    ensures written { take (place + 8) bytes.new ≡ take place bytes.old ++ little_endian 8 number }
    ensures fits { number < 256 ^ 8 }
{
    LittleEndian::write_u64(&mut bytes[place..], number);
}

/// Writes the sixteen bytes of `number` from `place` on.
pub fn write_u128(bytes: &mut [u8], place: usize, number: u128)
    requires { place + 16 ≤ length bytes.old }
    ensures written { take (place + 16) bytes.new ≡ take place bytes.old ++ little_endian 16 number }
    ensures fits { number < 256 ^ 16 }
{
    LittleEndian::write_u128(&mut bytes[place..], number);
}

/// Writes `part` from `place` on.
pub fn write_bytes(bytes: &mut [u8], place: usize, part: &[u8])
    requires { place + length part.now ≤ length bytes.old }
    ensures { take (place + length part.now) bytes.new ≡ take place bytes.old ++ part.now }
{
    bytes[place..place + part.len()].copy_from_slice(part);
}
