// What a step gives.

use fa_sound::Sound;
use fore_base::crossing::crosses;
use fore_base::fault::Fault;
use fore_base::list::List;

/// A fault, and a forest each member of which meets it.
#[derive(Drop)]
pub struct Bad {
    /// The fault.
    pub fault: Fault,
    /// The forest before the edge, split so that all its members meet the fault.
    pub at: Sound,
}

/// What an edge makes of a forest: where its members go on, and where they meet faults.
#[derive(Drop)]
pub struct Post {
    /// The forests behind the edge. They are canonical, and no two can be joined.
    pub next: List<Sound>,
    /// The faults.
    pub faults: List<Bad>,
}

/// Results of a step cross threads, and with them faults at forests.
pub fn post_crosses(post: &Post, bad: &Bad) {
    crosses(post);
    crosses(bad)
}
