// What an edge makes of a forest.

use fa_sound::Sound;
use fore_base::crossing::crosses;
use fore_base::fault::Fault;

/// What an edge makes of a forest, before the leak test: the same for all its members.
#[derive(Drop)]
pub enum Edited {
    /// All members meet this fault.
    Fault(Fault),
    /// No member goes on.
    Stays,
    /// The members go on to those of this forest.
    Goes(Sound),
}

/// What an edge makes of a forest crosses threads.
pub fn edited_crosses(edited: &Edited) {
    crosses(edited)
}
