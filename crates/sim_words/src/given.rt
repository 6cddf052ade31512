//! The options that were given so far.
ghost use Rattle.std.specs.Prelude.{◌≡◌, [], true, slice_set};
ghost use Rattle.sim_words.specs.Given.{flags_of, is_flagged};
ghost use Rattle.sim_words.specs.Options.{index_of};

use crate::options::{OPTION_COUNT, OptionName};

/// Which options were given.
#[derive(Debug, Drop)]
pub(crate) struct Given {
    pub(crate) flags: [bool; OPTION_COUNT],
}

impl Given {
    /// No option was given.
    #[tactic(auto, unfolding(crate::specs::Given::flags_of))]
    pub(crate) fn none() -> Given
        ensures { result.flags ≡ flags_of [] }
    {
        Given {
            flags: [false; OPTION_COUNT],
        }
    }

    /// Whether the option was given.
    pub(crate) fn has(&self, option: OptionName) -> bool
        ensures { result ≡ is_flagged self.now.flags option }
    {
        self.flags[option.index()]
    }

    /// The option is given.
    pub(crate) fn add(&mut self, option: OptionName)
        ensures { self.new.flags ≡ slice_set self.old.flags (index_of option) true }
    {
        self.flags[option.index()] = true;
    }
}
