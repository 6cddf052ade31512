//! Drawing words.
ghost use Rattle.std.specs.Prelude.{◌≡◌};
ghost use Rattle.rand_pcg.specs.Lcg.{Lcg};
ghost use Rattle.rand_pcg.specs.Pcg.{pcg32};
ghost use Rattle.workload_gen.specs.Draws.{generator};

use rand_core::utils::NextWord;
use rand_pcg::Lcg64Xsh32;
use std::marker::Model;

/// The stream of the generator that every seed uses.
const STREAM: u64 = 54;

/// The words that are drawn with a seed: the outputs of PCG XSH RR 64/32.
#[derive(Drop)]
pub(crate) struct Draws {
    generator: Lcg64Xsh32,
}

impl Model for Draws {
    ghost use Rattle.rand_pcg.specs.Lcg.{Lcg};

    ghost Value = { Lcg };

    ghost view = { λ d. d.generator };
}

impl Draws {
    pub(crate) fn new(seed: u32) -> Draws
        ensures { result ≡ generator seed }
    {
        Draws {
            generator: Lcg64Xsh32::new(u64::from(seed), STREAM),
        }
    }

    /// The next word.
    pub(crate) fn draw(&mut self) -> u32
        ensures { (result, self.new) ≡ pcg32 self.old }
    {
        self.generator.next_word()
    }
}
