//! What a RISC-V machine runs.
ghost use Rattle.std.specs.Prelude.{◌≡◌, length, IfOk};
ghost use Rattle.slack_base.specs.Images.{Fits};
ghost use Rattle.slack_base.specs.Numbers.{numbers_of};
ghost use Rattle.timed_core.specs.Code.{code_of};

use slack_base::{Config, Image, OutOfMemory};
use std::alloc::Global;
use timed_core::Code;

/// The RISC-V machine of a configuration and a code.
#[derive(Drop)]
pub struct RvTarget {
    pub config: Config,
    pub code: Code,
    ghost whole: { length code.bytes ≡ config.memory },
}

impl RvTarget {
    /// The target of a configuration and an image.
    pub fn make(alloc: Global, config: Config, image: &Image) -> Result<RvTarget, OutOfMemory>
        requires { Fits config.base config.memory image.now }
        ensures config { IfOk result (λ target. target.config ≡ config) }
        ensures code { IfOk result (λ target. target.code ≡ code_of image.now (numbers_of config)) }
    {
        let code = Code::of(alloc, image, &config)?;
        Ok(RvTarget { config, code })
    }
}
