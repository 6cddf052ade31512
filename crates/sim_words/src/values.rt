//! The values that are one of some words.
ghost use Rattle.std.specs.Prelude.{◌≡◌};
ghost use Rattle.sim_words.specs.Tables.{rows_of};
ghost use Rattle.sim_words.specs.Values.{modes, mode_of, formats, format_of, switches, switch_of};

use crate::tables::{Row, entry_in};

/// How the cores of a run keep up with one another.
#[derive(Clone, Copy, Debug, PartialEq, Eq)]
pub enum Mode {
    /// Cycle by cycle.
    Lockstep,
    /// A fixed number of cycles between two exchanges of messages.
    Quantum,
    /// With a bounded slack, and the violations counted.
    Bounded,
    /// With a bounded slack, and what was violated run again.
    Speculative,
    /// By the steps that are given.
    Script,
}

/// The form of the report.
#[derive(Clone, Copy, Debug, PartialEq, Eq)]
pub enum Format {
    /// Lines of words.
    Text,
    /// One object of JSON.
    Json,
    /// The lines of memory that aren't zero.
    Dump,
}

static MODES: [Row<Mode>; 5] = [
    (b"lockstep", Mode::Lockstep),
    (b"quantum", Mode::Quantum),
    (b"bounded", Mode::Bounded),
    (b"speculative", Mode::Speculative),
    (b"script", Mode::Script),
];

static FORMATS: [Row<Format>; 3] = [
    (b"text", Format::Text),
    (b"json", Format::Json),
    (b"dump", Format::Dump),
];

static SWITCHES: [Row<bool>; 2] = [(b"on", true), (b"off", false)];

#[tactic(auto, unfolding(crate::specs::Values::modes))]
fn modes() -> &'static [Row<Mode>]
    ensures { rows_of result.now ≡ modes }
{
    &MODES
}

/// The mode of this name.
#[tactic(auto, unfolding(crate::specs::Values::mode_of))]
pub(crate) fn mode_of(word: &[u8]) -> Option<Mode>
    ensures { result ≡ mode_of word.now }
{
    entry_in(modes(), word)
}

#[tactic(auto, unfolding(crate::specs::Values::formats))]
fn formats() -> &'static [Row<Format>]
    ensures { rows_of result.now ≡ formats }
{
    &FORMATS
}

/// The format of this name.
#[tactic(auto, unfolding(crate::specs::Values::format_of))]
pub(crate) fn format_of(word: &[u8]) -> Option<Format>
    ensures { result ≡ format_of word.now }
{
    entry_in(formats(), word)
}

#[tactic(auto, unfolding(crate::specs::Values::switches))]
fn switches() -> &'static [Row<bool>]
    ensures { rows_of result.now ≡ switches }
{
    &SWITCHES
}

/// Whether the word is `on`, where it is that or `off`.
#[tactic(auto, unfolding(crate::specs::Values::switch_of))]
pub(crate) fn switch_of(word: &[u8]) -> Option<bool>
    ensures { result ≡ switch_of word.now }
{
    entry_in(switches(), word)
}
