//! What is true of any channel, whatever it is asked.
ghost use Rattle.bus_model.specs.ClosingLaws.{AllClose, AllReopen, AllLast, AllSwap};
ghost use Rattle.bus_model.specs.Laws.{AllLawful, AllMayServe};

/// The law of channels. A channel that is asked stays sound, keeps its setting, and is free from the same cycle as before:
/// only closing moves that. Each post of the ask carries its id and its line, goes to a core of the machine, no two to one, and is due after the least
/// delay from the ask's stamp at the soonest.
pub fn law_of_channels()
    ensures { AllLawful }
{}

/// The channel with a setting may be asked what is of it.
pub fn law_of_asks()
    ensures { AllMayServe }
{}

/// A channel that is closed stays sound, keeps its setting and is free no sooner than before, and closing twice is closing
/// once.
pub fn law_of_closing()
    ensures { AllClose }
{}

/// An ask with an id above all that the channel keeps since it was closed clashes with nothing, and the channel makes of
/// it what the closed one makes of it: the same posts, and once it is closed, the same channel.
pub fn law_of_reopening()
    ensures { AllReopen }
{}

/// After asks on a closed channel, one with an id above all of theirs is above all that the channel keeps.
pub fn law_of_the_last_ask()
    ensures { AllLast }
{}

/// An ask that comes behind one of a greater id and another line, and doesn't clash, may as well come before it: the
/// channel is the same in either order, and so are the posts of each.
pub fn law_of_neighbours()
    ensures { AllSwap }
{}
