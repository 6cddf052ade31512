//! The instruction memory: the image as it was loaded, which fetches read and nothing writes.
ghost use Rattle.std.specs.Prelude.{◌≡◌};

mod decoded;

use crate::kept::Kept;
use byteorder::{ByteOrder, LittleEndian};
use decoded::decoded;
use first_memory::loaded_bytes;
use slack_base::{Config, Image, OutOfMemory};
use std::alloc::Global;
use std::marker::Model;

/// The bytes of memory as they were loaded, as far as the image reaches, and beside them the instructions of their words.
/// Behind them memory has zeros, which stand for no instruction. A contract sees all bytes of memory.
#[derive(Drop)]
pub struct Code {
    base: u32,
    memory: u32,
    bytes: Vec<u8>,
    kept: Vec<Kept>,
}

impl Model for Code {
    ghost use Rattle.first_memory.specs.Memory.{with_zeros};
    ghost use Rattle.timed_core.specs.Code.{CodeValue, IsCode};

    ghost Value = { CodeValue };

    ghost view = { λ c. record { base = c.base; bytes = with_zeros c.bytes.items c.memory } };

    ghost invariant = { λ c. IsCode c.base c.memory c.bytes.items c.kept.items };
}

impl Code {
    ghost use Rattle.std.specs.Prelude.{◌≡◌, ◌-◌, ◌%◌, drop, IfOk, IfSome, IsTrue};
    ghost use Rattle.byteorder.specs.Endian.{little_number};
    ghost use Rattle.std.specs.Option.{option_map};
    ghost use Rattle.slack_base.specs.Images.{Fits};
    ghost use Rattle.slack_base.specs.Numbers.{numbers_of};
    ghost use Rattle.timed_core.specs.Code.{word_at, instr_at, is_in_memory, code_of};
    ghost use Rattle.timed_core.specs.Kept.{instr_of_kept};
    ghost use Rattle.rv_decode.specs.Ranges.{IsInRange};

    /// The instruction memory of an image that fits the configuration.
    pub fn of(alloc: Global, image: &Image, config: &Config) -> Result<Code, OutOfMemory>
        requires { Fits config.now.base config.now.memory image.now }
        ensures { IfOk result (λ code. code ≡ code_of image.now (numbers_of config.now)) }
    {
        let bytes = loaded_bytes(alloc, image, config.base, config.memory)?;
        let kept = decoded(alloc, bytes.as_slice())?;
        Ok(Code {
            base: config.base,
            memory: config.memory,
            bytes,
            kept,
        })
    }

    /// The least address of memory.
    #[inline(always)]
    pub fn base(&self) -> u32
        ensures { result ≡ self.now.base }
    {
        self.base
    }

    /// Whether the address is in memory.
    #[inline(always)]
    pub fn is_in_memory(&self, address: u32) -> bool
        ensures { result ≡ is_in_memory self.now address }
    {
        address.wrapping_sub(self.base) < self.memory
    }

    /// The little-endian word at an address: none outside memory, and none off a multiple of 4.
    #[tactic(auto, unfolding(crate::specs::Code::word_at))]
    pub fn word(&self, address: u32) -> Option<u32>
        ensures { result ≡ word_at self.now address }
    {
        if address < self.base || address % 4 != 0 {
            return None;
        }
        let offset = address - self.base;
        if offset >= self.memory {
            return None;
        }
        Some(self.word_behind(offset as usize))
    }

    /// The little-endian word so many bytes behind the beginning of memory.
    fn word_behind(&self, offset: usize) -> u32
        requires aligned { offset % 4 ≡ 0 }
        ensures { result ≡ little_number 4 (drop offset self.now.bytes) }
    {
        if offset >= self.bytes.len() {
            return 0;
        }
        LittleEndian::read_u32(&self.bytes[offset..])
    }

    /// What is kept of the word at an address: none off a multiple of 4, and where memory has no word or a zero that the
    /// image doesn't reach. Nothing but what is kept is an instruction.
    #[inline(always)]
    pub fn kept(&self, address: u32) -> Option<&Kept>
        ensures value { instr_of_kept (option_map (λ k. k.now) result) ≡ instr_at self.now address }
        ensures ranges { IfSome (instr_of_kept (option_map (λ k. k.now) result)) IsInRange }
    {
        let offset = address.wrapping_sub(self.base);
        let number = (offset / 4) as usize;
        if offset % 4 == 0 && number < self.kept.len() {
            return Some(&self.kept[number]);
        }
        None
    }

    /// How many bytes lie between the beginning of memory and an address of memory.
    #[inline(always)]
    pub fn offset(&self, address: u32) -> u32
        requires { IsTrue (is_in_memory self.now address) }
        ensures { result ≡ address - self.now.base }
    {
        address.wrapping_sub(self.base)
    }
}
