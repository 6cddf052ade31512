//! The numbers of a file, little-endian.
ghost use Rattle.std.specs.Prelude.{◌≡◌, ◌+◌, ◌≤◌, length};
ghost use Rattle.image_load.specs.Fields.{u16_at, u32_at};

use byteorder::{ByteOrder, LittleEndian};

/// The number of 16 bits at an offset.
#[tactic(auto, unfolding(crate::specs::Fields::u16_at))]
pub fn u16_at(bytes: &[u8], offset: usize) -> u16
    requires { offset + 2 ≤ length bytes.now }
    ensures { result ≡ u16_at offset bytes.now }
{
    LittleEndian::read_u16(&bytes[offset..])
}

/// The number of 32 bits at an offset.
#[tactic(auto, unfolding(crate::specs::Fields::u32_at))]
pub fn u32_at(bytes: &[u8], offset: usize) -> u32
    requires { offset + 4 ≤ length bytes.now }
    ensures { result ≡ u32_at offset bytes.now }
{
    LittleEndian::read_u32(&bytes[offset..])
}
