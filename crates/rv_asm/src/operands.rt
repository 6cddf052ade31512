//! The forms of operands.
ghost use Rattle.std.specs.Prelude.{◌≡◌};
ghost use Rattle.rv_asm.specs.Kinds.{Gives};
ghost use Rattle.rv_asm.specs.LabelTables.{places_in};
ghost use Rattle.rv_asm.specs.Operands.{divided, nothing, memory, address, displaced, label_at, target, two_registers, three_registers, register_and, two_registers_and};

use crate::bytes::{is_name, parts_at, trim, without_suffix};
use crate::labels::Labels;
use crate::numbers::number_of;
use crate::registers::register_of;
use slack_base::AsmKind;

/// Two operands, divided by such a byte.
#[tactic(auto, unfolding(crate::specs::Operands::divided))]
fn divided(text: &[u8], byte: u8) -> Result<(&[u8], &[u8]), AsmKind>
    ensures { Gives (λ parts. (parts.0.now, parts.1.now)) result (divided byte text.now) }
{
    let (before, after) = parts_at(text, byte).ok_or(AsmKind::Operand)?;
    Ok((trim(before), trim(after)))
}

/// No operand.
#[tactic(auto, unfolding(crate::specs::Operands::nothing))]
pub(crate) fn nothing(text: &[u8]) -> Result<(), AsmKind>
    ensures { result ≡ nothing text.now }
{
    if text.is_empty() {
        Ok(())
    } else {
        Err(AsmKind::Operand)
    }
}

/// `N(r)`: what stands before the bracket, and the register in it.
#[tactic(auto, unfolding(crate::specs::Operands::memory))]
fn memory(text: &[u8]) -> Result<(&[u8], u32), AsmKind>
    ensures { Gives (λ parts. (parts.0.now, parts.1)) result (memory text.now) }
{
    let (before, after) = divided(text, b'(')?;
    let inside = without_suffix(after, b")").ok_or(AsmKind::Operand)?;
    let base = register_of(trim(inside))?;
    Ok((before, base))
}

/// `(r)`: the register.
#[tactic(auto, unfolding(crate::specs::Operands::address))]
pub(crate) fn address(text: &[u8]) -> Result<u32, AsmKind>
    ensures { result ≡ address text.now }
{
    let (before, base) = memory(text)?;
    nothing(before)?;
    Ok(base)
}

/// `N(r)`: the number, and the register.
#[tactic(auto, unfolding(crate::specs::Operands::displaced))]
pub(crate) fn displaced(text: &[u8]) -> Result<(i64, u32), AsmKind>
    ensures { result ≡ displaced text.now }
{
    let (before, base) = memory(text)?;
    let number = number_of(before)?;
    Ok((number, base))
}

/// Where a label is, in bytes from the instruction at a place.
#[tactic(auto, unfolding(crate::specs::Operands::label_at))]
fn label_at<'a>(labels: &Labels<'a>, here: u32, name: &'a [u8]) -> Result<i64, AsmKind>
    ensures { result ≡ label_at (places_in labels.now) here name.now }
{
    let place = labels.place_of(name).ok_or(AsmKind::Label)?;
    Ok(4 * i64::from(place) - 4 * i64::from(here))
}

/// The target of a jump or branch: a label, or a number.
#[tactic(auto, unfolding(crate::specs::Operands::target))]
pub(crate) fn target<'a>(labels: &Labels<'a>, here: u32, text: &'a [u8]) -> Result<i64, AsmKind>
    ensures { result ≡ target (places_in labels.now) here text.now }
{
    if is_name(text) {
        label_at(labels, here, text)
    } else {
        number_of(text)
    }
}

/// Two registers.
#[tactic(auto, unfolding(crate::specs::Operands::two_registers))]
pub(crate) fn two_registers(text: &[u8]) -> Result<(u32, u32), AsmKind>
    ensures { result ≡ two_registers text.now }
{
    let (first, second) = divided(text, b',')?;
    Ok((register_of(first)?, register_of(second)?))
}

/// Three registers.
#[tactic(auto, unfolding(crate::specs::Operands::three_registers))]
pub(crate) fn three_registers(text: &[u8]) -> Result<(u32, u32, u32), AsmKind>
    ensures { result ≡ three_registers text.now }
{
    let (first, others) = divided(text, b',')?;
    let first = register_of(first)?;
    let (second, third) = two_registers(others)?;
    Ok((first, second, third))
}

/// A register, and the text of the operands after it.
#[tactic(auto, unfolding(crate::specs::Operands::register_and))]
pub(crate) fn register_and(text: &[u8]) -> Result<(u32, &[u8]), AsmKind>
    ensures { Gives (λ parts. (parts.0, parts.1.now)) result (register_and text.now) }
{
    let (first, others) = divided(text, b',')?;
    Ok((register_of(first)?, others))
}

/// Two registers, and the text of the operand after them.
#[tactic(auto, unfolding(crate::specs::Operands::two_registers_and))]
pub(crate) fn two_registers_and(text: &[u8]) -> Result<(u32, u32, &[u8]), AsmKind>
    ensures { Gives (λ parts. (parts.0, parts.1, parts.2.now)) result (two_registers_and text.now) }
{
    let (first, others) = register_and(text)?;
    let (second, last) = register_and(others)?;
    Ok((first, second, last))
}
