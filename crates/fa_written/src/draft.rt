// Boxes as they are written, with the numbers of their lines.

use fa_lines::line::Term;
use fore_base::list::List;
use fore_base::text::Text;

/// A rule.
#[derive(Drop)]
pub struct RuleDraft {
    /// The number of its line, the first being 1.
    pub line: u32,
    pub state: u32,
    pub term: Term,
}

/// A component: its root states, and its rules in the order of their lines.
#[derive(Drop)]
pub struct PartDraft {
    /// The number of the line that begins it.
    pub line: u32,
    pub roots: List<u32>,
    pub rules: List<RuleDraft>,
}

/// What the first line of a box says.
#[derive(Drop)]
pub struct Head {
    /// The number of the line.
    pub line: u32,
    pub name: Text,
    pub input: Text,
    pub output: Option<Text>,
}

/// A box: its components in order.
#[derive(Drop)]
pub struct BoxDraft {
    pub head: Head,
    pub parts: List<PartDraft>,
    /// The number of its last line.
    pub end: u32,
}

/// A box that is not ended yet.
#[derive(Drop)]
pub struct OpenBox {
    pub head: Head,
    pub parts: List<PartDraft>,
}

/// The boxes that have ended, and the one that has not, where there is one.
#[derive(Drop)]
pub struct Reading {
    pub boxes: List<BoxDraft>,
    pub current: Option<OpenBox>,
}
