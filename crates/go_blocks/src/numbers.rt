// Numbers as the bytes of a log file, the lowest byte first.
ghost use Rattle.std.specs.Prelude.{◌≡◌};
ghost use Rattle.std.specs.Int.{w16, w32, w64, from_le_bytes, to_le_bytes};

use byteorder::{ByteOrder, LittleEndian};

// The number that two bytes are.
pub(crate) fn number_of_two(bytes: &[u8; 2]) -> u16
    ensures read { result ≡ from_le_bytes w16 bytes.now }
    ensures back { to_le_bytes w16 result ≡ bytes.now }
{
    LittleEndian::read_u16(bytes)
}

// The number that four bytes are.
pub(crate) fn number_of_four(bytes: &[u8; 4]) -> u32
    ensures read { result ≡ from_le_bytes w32 bytes.now }
    ensures back { to_le_bytes w32 result ≡ bytes.now }
{
    LittleEndian::read_u32(bytes)
}

// The number that eight bytes are.
pub(crate) fn number_of_eight(bytes: &[u8; 8]) -> u64
    ensures read { result ≡ from_le_bytes w64 bytes.now }
    ensures back { to_le_bytes w64 result ≡ bytes.now }
{
    LittleEndian::read_u64(bytes)
}

// The two bytes of a number.
pub(crate) fn two_bytes(number: u16) -> [u8; 2]
    ensures { result ≡ to_le_bytes w16 number }
{
    let mut bytes = [0; 2];
    LittleEndian::write_u16(&mut bytes, number);
    bytes
}

// The four bytes of a number.
pub(crate) fn four_bytes(number: u32) -> [u8; 4]
    ensures { result ≡ to_le_bytes w32 number }
{
    let mut bytes = [0; 4];
    LittleEndian::write_u32(&mut bytes, number);
    bytes
}

// The eight bytes of a number.
pub(crate) fn eight_bytes(number: u64) -> [u8; 8]
    ensures { result ≡ to_le_bytes w64 number }
{
    let mut bytes = [0; 8];
    LittleEndian::write_u64(&mut bytes, number);
    bytes
}
