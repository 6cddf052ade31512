//! The entries of a bus before the first cycle.
ghost use Rattle.std.specs.Prelude.{◌≡◌, ◌+◌, ◌*◌, ◌%◌, ◌<◌, ◌≤◌, length, slice_index, IfOk};
ghost use Rattle.slack_base.specs.Images.{Fits};
ghost use Rattle.slack_base.specs.LittleEndian.{word_at, words_at};
ghost use Rattle.slack_base.specs.Numbers.{numbers_of};
ghost use Rattle.bus_model.specs.Starting.{first_entries, idle};

use first_memory::loaded_bytes;
use slack_base::{Config, Image, OutOfMemory, Words};
use status_map::Entry;
use std::alloc::Global;

/// The little-endian word at a place.
fn word_at(bytes: &[u8], place: usize) -> u32
    requires { place + 4 ≤ length bytes.now }
    ensures { result ≡ word_at (slice_index bytes.now) place }
{
    u32::from_le_bytes([
        bytes[place],
        bytes[place + 1],
        bytes[place + 2],
        bytes[place + 3],
    ])
}

/// The words of the line that begins at a place: those of its bytes, or all 0 where it lies behind the bytes.
fn words_at(bytes: &[u8], place: usize) -> Words
    requires lines { length bytes.now % 16 ≡ 0 }
    requires place { place % 16 ≡ 0 }
    ensures { result ≡ words_at (slice_index bytes.now) place }
{
    if place >= bytes.len() {
        return Words {
            w0: 0,
            w1: 0,
            w2: 0,
            w3: 0,
        };
    }
    Words {
        w0: word_at(bytes, place),
        w1: word_at(bytes, place + 4),
        w2: word_at(bytes, place + 8),
        w3: word_at(bytes, place + 12),
    }
}

/// The entry of a line, with the bytes of memory as far as the image reaches.
fn entry_at(bytes: &[u8], line: u32) -> Entry
    requires { length bytes.now % 16 ≡ 0 }
    ensures { result ≡ idle (words_at (slice_index bytes.now) (16 * line)) }
{
    Entry::idle(words_at(bytes, 16 * line as usize))
}

/// The entries of the lines of a bus, in the order of the lines.
pub(crate) fn first_entries(
    alloc: Global,
    index: u32,
    config: &Config,
    image: &Image,
) -> Result<Vec<Entry>, OutOfMemory>
    requires bus { index < config.now.buses }
    requires image { Fits config.now.base config.now.memory image.now }
    ensures { IfOk result (λ entries. entries.items ≡ first_entries (numbers_of config.now) image.now index) }
{
    let bytes = loaded_bytes(alloc, image, config.base, config.memory)?;
    let count = config.memory / 16 / config.buses;
    let mut entries = Vec::with_capacity(alloc, count as usize)?;
    for place in 0..count {
        let line = index + config.buses * place;
        entries.push(entry_at(bytes.as_slice(), line))?;
    }
    Ok(entries)
}
