//! What is true of the posts of any ask.
ghost use Rattle.status_map.specs.Laws.{AllLawful};

/// The law of posts. Where the core that asks and those that the entry names are below a number, so are the receivers
/// of the posts and the cores that the new entry names; each post carries the ask's id and is due after the least
/// delay at the soonest; and no core gets two posts of one ask.
pub fn law_of_posts()
    ensures { AllLawful }
{}
