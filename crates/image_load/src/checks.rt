//! The checks that the formats share.
ghost use Rattle.std.specs.Prelude.{◌≡◌};
ghost use Rattle.image_load.specs.Checks.{is_in_memory, is_word_of};

use slack_base::Config;

/// Whether the bytes of the range are bytes of memory.
pub fn is_in_memory(config: &Config, address: u32, size: u32) -> bool
    ensures { result ≡ is_in_memory config.now.base config.now.memory address size }
{
    config.base <= address
        && u64::from(address) + u64::from(size) <= u64::from(config.base) + u64::from(config.memory)
}

/// Whether the address is that of a word of memory.
pub fn is_word_of(config: &Config, address: u32) -> bool
    ensures { result ≡ is_word_of config.now.base config.now.memory address }
{
    address % 4 == 0
        && config.base <= address
        && u64::from(address) < u64::from(config.base) + u64::from(config.memory)
}
