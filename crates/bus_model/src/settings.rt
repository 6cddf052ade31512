//! What a bus needs to know of its machine.
ghost use Rattle.std.specs.Prelude.{◌≡◌, ◌%◌, ◌<◌, ◌≤◌};
ghost use Rattle.slack_base.specs.declared.bounds.TheConstants.{MOST_CORES};
ghost use Rattle.status_map.specs.Entries.{AreShort};

use slack_base::Config;
use status_map::Delays;

/// A bus's place in its machine, and how long what it does takes.
#[derive(Clone, Copy, Debug)]
pub(crate) struct Setting {
    /// The bus's number.
    pub(crate) number: u32,
    /// How many buses there are.
    pub(crate) buses: u32,
    /// How many lines memory has: equally many for each bus.
    pub(crate) lines: u32,
    /// How many cores there are.
    pub(crate) cores: u32,
    /// How many cycles after a grant a post is due.
    pub(crate) delays: Delays,
    /// For how many cycles an ask takes the bus.
    pub(crate) occupancy: u64,
    ghost buses_in_bounds: { 1 ≤ buses },
    ghost lines_in_bounds: { lines % buses ≡ 0 },
    ghost cores_in_bounds: { cores ≤ MOST_CORES },
    ghost delays_in_bounds: { AreShort delays },
    ghost memory_in_bounds: { delays.snoop ≤ delays.memory },
    ghost occupancy_in_bounds: { occupancy ≤ 64 },
}

impl Setting {
    ghost use Rattle.std.specs.Prelude.{◌≡◌};
    ghost use Rattle.slack_base.specs.Numbers.{numbers_of};
    ghost use Rattle.bus_model.specs.Settings.{setting_of, setting_value};

    /// The setting of the bus of a number.
    pub(crate) fn of(config: &Config, number: u32) -> Setting
        ensures { setting_value result ≡ setting_of (numbers_of config.now) number }
    {
        Setting {
            number,
            buses: config.buses,
            lines: config.memory / 16,
            cores: config.cores,
            delays: Delays {
                snoop: u64::from(config.snoop),
                memory: u64::from(config.memory_delay),
                transfer: u64::from(config.transfer),
            },
            occupancy: u64::from(config.occupancy),
        }
    }
}
