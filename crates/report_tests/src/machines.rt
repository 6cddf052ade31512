//! Small programs, and the images of them.
ghost use Rattle.std.specs.Prelude.{◌≡◌, ◌≤◌, IfOk, length};
ghost use Rattle.slack_base.specs.Images.{Fits};

use slack_base::{Image, OutOfMemory, RawConfig};
use std::alloc::Global;

/// Two cores, each with a page of memory.
pub(crate) const TWO_CORES: RawConfig = RawConfig {
    cores: 2,
    memory: 8192,
    ..RawConfig::DEFAULT
};

/// `lui x8, 1`, `sw x10, 0(x8)` and an exit with 0: each core stores its number in line 256.
#[rattlefmt::skip]
pub(crate) const STORES: &[u8] = &[
    0x37, 0x14, 0, 0, 0x23, 0x20, 0xa4, 0, 0x93, 0x08, 0xd0, 0x05, 0x13, 0x05, 0, 0, 0x73, 0, 0, 0,
];

/// `lui x8, 1`, `lw x5, 0(x8)`, `sw x10, 0(x8)`, `amoadd.w x6, x10, (x8)`, `lw x7, 0(x8)` and an exit with 0: the cores
/// load and store a word of line 256 as they come.
#[rattlefmt::skip]
pub(crate) const RACE: &[u8] = &[
    0x37, 0x14, 0, 0, 0x83, 0x22, 0x04, 0, 0x23, 0x20, 0xa4, 0, 0x2f, 0x23, 0xa4, 0, 0x83, 0x23, 0x04, 0,
    0x93, 0x08, 0xd0, 0x05, 0x13, 0x05, 0, 0, 0x73, 0, 0, 0,
];

/// The image of these bytes at address 0.
pub(crate) fn image_of(alloc: Global, bytes: &[u8], _memory: u32) -> Result<Image, OutOfMemory>
    requires { (1 ≤ length bytes.now) × (length bytes.now ≤ _memory) }
    ensures { IfOk result (Fits 0 _memory) }
{
    Image::one_piece(alloc, 0, 0, Vec::from_slice(alloc, bytes)?)
}
