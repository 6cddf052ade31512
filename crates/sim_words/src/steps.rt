//! The steps of a value: items divided by `,`.
ghost use Rattle.std.specs.Prelude.{◌≡◌, ◌++◌, IfOk, OnOk, replicate};
ghost use Rattle.sim_words.specs.Items.{item_of};
ghost use Rattle.sim_words.specs.Steps.{wrong_item, steps_of, repeated};

use crate::items::{Item, item_of};
use slack_base::{OutOfMemory, Step, StepList};
use std::alloc::Global;

/// How many steps a value gives at most.
const MOST_STEPS: u32 = 1_000_000;

/// The byte of the first item that is wrong or brings the steps above their limit.
pub(crate) fn wrong_item(value: &[u8]) -> Option<u32>
    ensures { result ≡ wrong_item value.now }
{
    let mut total = 0u32;
    let mut at = 0u32;
    for piece in value.split(|byte| *byte == b',') {
        let Some(item) = item_of(piece) else {
            return Some(at);
        };
        if item.count > MOST_STEPS - total {
            return Some(at);
        }
        total += item.count;
        at += piece.len() as u32 + 1;
    }
    None
}

/// The steps of a value that has no wrong item, and none of an empty value.
pub(crate) fn steps_of(alloc: Global, value: &[u8]) -> Result<StepList, OutOfMemory>
    ensures { IfOk result (λ steps. steps ≡ steps_of value.now) }
{
    let mut steps = StepList::new(alloc);
    for piece in value.split(|byte| *byte == b',') {
        push_piece(&mut steps, piece)?;
    }
    Ok(steps)
}

/// Puts the steps of an item's text at the end.
fn push_piece(steps: &mut StepList, piece: &[u8]) -> Result<(), OutOfMemory>
    ensures { OnOk result (steps.new ≡ steps.old ++ repeated (item_of piece.now)) }
{
    match item_of(piece) {
        Some(item) => push_item(steps, item),
        None => Ok(()),
    }
}

/// Puts the step of an item at the end, as often as it comes.
fn push_item(steps: &mut StepList, item: Item) -> Result<(), OutOfMemory>
    ensures { OnOk result (steps.new ≡ steps.old ++ replicate item.count item.step) }
{
    for _ in 0..item.count {
        steps.push(item.step)?;
    }
    Ok(())
}
