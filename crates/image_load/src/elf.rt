//! The format ELF32, as far as its program headers.
ghost use Rattle.std.specs.Prelude.{◌≡◌, ◌+◌, ◌<◌, ◌≤◌, ◌^◌, [], length, IfOk};
ghost use Rattle.slack_base.specs.Checks.{first_fault, unless_fault};
ghost use Rattle.image_load.specs.LoadChecks.{load_checks};
ghost use Rattle.image_load.specs.Elf.{elf_header, program_header, program_headers, is_load, loads_of, is_executable, headers_end, header_checks, elf_layout, elf_checks};

use crate::checks::is_word_of;
use crate::fields::{u16_at, u32_at};
use crate::layouts::{Layout, Load};
use crate::load_checks::load_fault;
use crate::loads::Loads;
use slack_base::{Config, ImageFault};

/// The fields at the head of an ELF file.
#[derive(Clone, Copy, Debug)]
pub struct ElfHeader {
    pub class: u8,
    pub encoding: u8,
    pub file_type: u16,
    pub machine: u16,
    pub entry: u32,
    /// Where the program headers begin.
    pub headers_offset: u32,
    /// The size of a program header.
    pub header_size: u16,
    pub header_count: u16,
}

/// A program header: its type, and the piece of memory that it describes.
#[derive(Clone, Copy, Debug)]
pub struct ProgramHeader {
    pub kind: u32,
    pub load: Load,
}

/// What an ELF file says of the image, or its first fault.
pub fn elf_layout(bytes: &[u8], config: &Config) -> Result<Layout, ImageFault>
    ensures { result ≡ unless_fault (first_fault (elf_checks config.now.base config.now.memory bytes.now)) (elf_layout bytes.now (elf_header bytes.now)) }
{
    let header = checked_header(bytes)?;
    let loads = checked_loads(bytes, config, &header)?;
    if !is_word_of(config, header.entry) {
        return Err(ImageFault::Entry {
            entry: header.entry,
        });
    }
    Ok(Layout {
        entry: header.entry,
        loads,
    })
}

/// The fields at the head of the file, or its first fault apart from what it loads.
#[tactic(auto, unfolding(crate::specs::Elf::header_checks))]
fn checked_header(bytes: &[u8]) -> Result<ElfHeader, ImageFault>
    ensures header { result ≡ unless_fault (first_fault (header_checks bytes.now)) (elf_header bytes.now) }
    ensures within { IfOk result (λ header. 0 < header.header_count → headers_end header ≤ length bytes.now) }
{
    let have = bytes.len() as u64;
    if have < 52 {
        return Err(ImageFault::Short { have, need: 52 });
    }
    let header = elf_header(bytes);
    if !is_executable(&header) {
        return Err(ImageFault::Machine);
    }
    if header.header_count > 0 && header.header_size != 32 {
        return Err(ImageFault::Segment { index: 0 });
    }
    let need = u64::from(header.headers_offset) + 32 * u64::from(header.header_count);
    if header.header_count > 0 && have < need {
        return Err(ImageFault::Short { have, need });
    }
    Ok(header)
}

#[tactic(auto, unfolding(crate::specs::Elf::elf_header))]
fn elf_header(bytes: &[u8]) -> ElfHeader
    requires { 52 ≤ length bytes.now }
    ensures { result ≡ elf_header bytes.now }
{
    ElfHeader {
        class: bytes[4],
        encoding: bytes[5],
        file_type: u16_at(bytes, 16),
        machine: u16_at(bytes, 18),
        entry: u32_at(bytes, 24),
        headers_offset: u32_at(bytes, 28),
        header_size: u16_at(bytes, 42),
        header_count: u16_at(bytes, 44),
    }
}

/// Whether the file is an executable for a 32-bit little-endian RISC-V machine.
fn is_executable(header: &ElfHeader) -> bool
    ensures { result ≡ is_executable header.now }
{
    header.class == 1 && header.encoding == 1 && header.file_type == 2 && header.machine == 243
}

/// The pieces that the file loads, or the first fault of them.
fn checked_loads(bytes: &[u8], config: &Config, header: &ElfHeader) -> Result<Loads, ImageFault>
    requires { 0 < header.now.header_count → headers_end header.now ≤ length bytes.now }
    ensures { let loads = loads_of (program_headers bytes.now header.now) in
        result ≡ unless_fault (first_fault (load_checks config.now.base config.now.memory (length bytes.now) [] loads)) loads }
{
    let have = bytes.len() as u64;
    let mut loads = Loads::new();
    for index in 0..header.header_count {
        let start = header.headers_offset as usize + 32 * index as usize;
        let found = program_header(bytes, start, index);
        if is_load(&found) {
            match load_fault(have, config, loads.as_slice(), &found.load) {
                Some(fault) => return Err(fault),
                None => loads.push(found.load),
            }
        }
    }
    Ok(loads)
}

#[tactic(auto, unfolding(crate::specs::Elf::program_header))]
fn program_header(bytes: &[u8], start: usize, index: u16) -> ProgramHeader
    requires { start + 32 ≤ length bytes.now }
    ensures header { result ≡ program_header bytes.now start index }
    ensures near { result.load.offset < 2 ^ 32 }
{
    ProgramHeader {
        kind: u32_at(bytes, start),
        load: Load {
            index: u32::from(index),
            offset: u64::from(u32_at(bytes, start + 4)),
            address: u32_at(bytes, start + 8),
            file_size: u32_at(bytes, start + 16),
            memory_size: u32_at(bytes, start + 20),
        },
    }
}

/// Whether the header is of a piece that is loaded and has bytes.
fn is_load(header: &ProgramHeader) -> bool
    ensures { result ≡ is_load header.now }
{
    header.kind == 1 && (header.load.memory_size > 0 || header.load.file_size > 0)
}
