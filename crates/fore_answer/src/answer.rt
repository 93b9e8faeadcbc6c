//! What Forester answers to its words.
ghost use Rattle.std.specs.Prelude.{◌≡◌};
ghost use Rattle.fore_answer.specs.Answers.{answer_to};

use c_types::outcome::Outcome;
use fore_base::text::Text;
use fore_read::{ReadFault, Refusal};
use fore_report::Verdict;

/// An answer to the words, with what its report prints.
#[derive(Drop)]
pub enum Answer {
    /// The program of the file was verified: the verdict, with its report, whole.
    Verified { verdict: Verdict, text: Text },
    /// The program's run on the choices of the words came out so.
    Ran(Outcome),
    /// The words do not read.
    Usage,
    /// What the words ask is refused.
    Refused(Refusal),
    /// A file was not read, and its shelf has counted a fault.
    ReadFault,
    /// Want of memory.
    NoMemory,
}

/// What is answered where a file, or a text, is not taken.
pub fn answer_to(fault: ReadFault) -> Answer
    ensures { result ≡ answer_to fault }
{
    match fault {
        ReadFault::Refused(why) => Answer::Refused(why),
        ReadFault::Failed => Answer::ReadFault,
        ReadFault::Memory => Answer::NoMemory,
    }
}
