//! The checks of a piece that an executable loads, after those before it.
ghost use Rattle.std.specs.Prelude.{◌≡◌, ◌+◌, ◌<◌, ◌^◌, map};
ghost use Rattle.slack_base.specs.Checks.{first_fault};
ghost use Rattle.image_load.specs.LoadChecks.{are_apart, overlap_check, checks_of};

use crate::checks::is_in_memory;
use crate::layouts::Load;
use crate::loads::MOST_LOADS;
use slack_base::{Config, ImageFault};

/// The first fault of a piece, in a file of so many bytes, after earlier ones.
#[tactic(auto, unfolding(crate::specs::LoadChecks::checks_of))]
pub fn load_fault(have: u64, config: &Config, earlier: &[Load], load: &Load) -> Option<ImageFault>
    requires { load.now.offset < 2 ^ 32 }
    ensures { result ≡ first_fault (checks_of config.now.base config.now.memory have earlier.now load.now) }
{
    let index = load.index;
    if load.file_size > load.memory_size || earlier.len() >= MOST_LOADS {
        return Some(ImageFault::Segment { index });
    }
    let need = load.offset + u64::from(load.file_size);
    if load.file_size > 0 && have < need {
        return Some(ImageFault::Short { have, need });
    }
    if !is_in_memory(config, load.address, load.memory_size) {
        return Some(ImageFault::Outside { index });
    }
    overlap(earlier, load)
}

/// The fault of the first piece that shares an address with this one.
pub fn overlap(earlier: &[Load], load: &Load) -> Option<ImageFault>
    ensures { result ≡ first_fault (map (overlap_check load.now) earlier.now) }
{
    for other in earlier {
        if !are_apart(other, load) {
            return Some(ImageFault::Overlap {
                first: other.index,
                second: load.index,
            });
        }
    }
    None
}

/// Whether no address lies in both.
fn are_apart(a: &Load, b: &Load) -> bool
    ensures { result ≡ are_apart a.now b.now }
{
    end_of(a) <= u64::from(b.address) || end_of(b) <= u64::from(a.address)
}

/// The address behind a piece.
fn end_of(load: &Load) -> u64
    ensures { result ≡ load.now.address + load.now.memory_size }
{
    u64::from(load.address) + u64::from(load.memory_size)
}
