//! The format SLK1: one piece of memory.
ghost use Rattle.std.specs.Prelude.{◌≡◌, ◌≤◌, length};
ghost use Rattle.slack_base.specs.Checks.{first_fault, unless_fault};
ghost use Rattle.image_load.specs.Flat.{flat_header, flat_checks, flat_layout};

use crate::checks::{is_in_memory, is_word_of};
use crate::fields::u32_at;
use crate::layouts::{Layout, Load};
use crate::loads::Loads;
use slack_base::{Config, ImageFault};

/// The numbers at the head of an SLK1 file.
#[derive(Clone, Copy, Debug)]
pub struct FlatHeader {
    pub address: u32,
    pub entry: u32,
    pub length: u32,
}

/// What an SLK1 file says of the image, or its first fault.
pub fn flat_layout(bytes: &[u8], config: &Config) -> Result<Layout, ImageFault>
    ensures { result ≡ unless_fault (first_fault (flat_checks config.now.base config.now.memory bytes.now)) (flat_layout (flat_header bytes.now)) }
{
    let have = bytes.len() as u64;
    if have < 16 {
        return Err(ImageFault::Short { have, need: 16 });
    }
    let header = flat_header(bytes);
    let need = 16 + u64::from(header.length);
    if have < need {
        return Err(ImageFault::Short { have, need });
    }
    if header.length > 0 && !is_in_memory(config, header.address, header.length) {
        return Err(ImageFault::Outside { index: 0 });
    }
    if !is_word_of(config, header.entry) {
        return Err(ImageFault::Entry {
            entry: header.entry,
        });
    }
    Ok(layout_under(&header))
}

#[tactic(auto, unfolding(crate::specs::Flat::flat_header))]
fn flat_header(bytes: &[u8]) -> FlatHeader
    requires { 16 ≤ length bytes.now }
    ensures { result ≡ flat_header bytes.now }
{
    FlatHeader {
        address: u32_at(bytes, 4),
        entry: u32_at(bytes, 8),
        length: u32_at(bytes, 12),
    }
}

/// The layout under these numbers: one piece, or none where its length is 0.
fn layout_under(header: &FlatHeader) -> Layout
    ensures { result ≡ flat_layout header.now }
{
    let mut loads = Loads::new();
    if header.length > 0 {
        loads.push(Load {
            index: 0,
            offset: 16,
            address: header.address,
            file_size: header.length,
            memory_size: header.length,
        });
    }
    Layout {
        entry: header.entry,
        loads,
    }
}
