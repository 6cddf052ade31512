//! The labels of a text.
ghost use Rattle.std.specs.Prelude.{◌≡◌, OnOk, IfOk, is_some};
ghost use Rattle.rv_asm.specs.Kinds.{GivesSome};
ghost use Rattle.rv_asm.specs.Labels.{no_places, with_label, with_labels, redefines, names_of, statement_of, label_of};
ghost use Rattle.rv_asm.specs.LabelTables.{places_in};

use crate::bytes::{is_name, parts_at, trim_start};
use slack_base::OutOfMemory;
use std::alloc::Global;
use std::collections::BTreeMap;

/// The places that labels name, counted in words from the start of the program.
#[derive(Drop)]
pub(crate) struct Labels<'a> {
    places: BTreeMap<&'a [u8], u32>,
}

impl<'a> Labels<'a> {
    /// No label.
    pub(crate) fn new(alloc: Global) -> Labels<'a>
        ensures { places_in result ≡ no_places }
    {
        Labels {
            places: BTreeMap::new(alloc),
        }
    }

    /// The place that a label names.
    pub(crate) fn place_of(&self, name: &'a [u8]) -> Option<u32>
        ensures { result ≡ places_in self.now name.now }
    {
        self.places.get(&name).copied()
    }

    /// Defines a label, and says whether it was defined before: then it keeps its place.
    pub(crate) fn define(&mut self, name: &'a [u8], place: u32) -> Result<bool, OutOfMemory>
        ensures places { OnOk result (places_in self.new ≡ with_label place (places_in self.old) name.now) }
        ensures before { IfOk result (λ before. before ≡ is_some (places_in self.old name.now)) }
    {
        if self.places.contains_key(&name) {
            return Ok(true);
        }
        self.places.insert(name, place)?;
        Ok(false)
    }
}

/// What stands after the labels that a text begins with, and whether one of them was defined before.
#[derive(Clone, Copy)]
pub(crate) struct Labelled<'a> {
    pub(crate) statement: &'a [u8],
    pub(crate) redefines: bool,
}

/// The label that a text begins with, and what stands after its colon.
#[tactic(auto, unfolding(crate::specs::Labels::label_of))]
fn label_of(text: &[u8]) -> Option<(&[u8], &[u8])>
    ensures { GivesSome (λ parts. (parts.0.now, parts.1.now)) result (label_of text.now) }
{
    let (before, after) = parts_at(text, b':')?;
    let name = trim_start(before);
    is_name(name).then_some((name, after))
}

/// Defines the labels that a text begins with.
pub(crate) fn define_labels<'a>(
    labels: &mut Labels<'a>,
    text: &'a [u8],
    place: u32,
) -> Result<Labelled<'a>, OutOfMemory>
    ensures places { OnOk result (places_in labels.new ≡ with_labels place (places_in labels.old) (names_of text.now)) }
    ensures statement { IfOk result (λ labelled. labelled.statement.now ≡ statement_of text.now) }
    ensures redefines { IfOk result (λ labelled. labelled.redefines ≡ redefines place (places_in labels.old) (names_of text.now)) }
{
    let mut rest = text;
    let mut redefines = false;
    while let Some((name, after)) = label_of(rest) {
        let before = labels.define(name, place)?;
        redefines |= before;
        rest = after;
    }
    Ok(Labelled {
        statement: trim_start(rest),
        redefines,
    })
}
