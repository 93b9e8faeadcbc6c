//! What an edge of a control graph makes of the members of a forest, as definitions.
//!
//! `specs/Cases.antt` says when a list of forests has all cases of an edge, and when a forest is one; `Kept.antt` which
//! box edges a case keeps; `Quiet.antt` which edges change no pointer; `Carried.antt` what an edit of a forest does to
//! its members before the leak test; `Explicit.antt` when a forest shows what an edge needs; `Refined.antt` when a
//! forest is another one split, lifted or unfolded for an edge. `laws` has what follows at once.
#![tactic(auto)]

pub mod laws;
