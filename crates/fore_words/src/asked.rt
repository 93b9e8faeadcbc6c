//! What the words of the command line ask.
use crate::path::FilePath;
use c_types::mode::MallocMode;
use fore_base::list::List;
use std::alloc::AllocError;

/// The height of the abstraction that is taken where the words name none.
pub const HEIGHT: u32 = 1;

/// The greatest height of the abstraction.
pub const MOST_HEIGHT: u32 = 4;

/// How many abstract states are kept at most where the words do not say.
pub const BUDGET: u32 = 2000;

/// The greatest number of abstract states.
pub const MOST_BUDGET: u32 = 100000;

/// The number of jobs that is taken where the words name none.
pub const JOBS: u32 = 1;

/// The greatest number of jobs.
pub const MOST_JOBS: u32 = 64;

/// The greatest number of steps of a run, and the number that is taken where the words name none.
pub const RUN_STEPS: u32 = 1000000;

/// The greatest number of phases of a generated program.
pub const MOST_PHASES: u32 = 200;

/// How a file is verified.
#[derive(Clone, Copy)]
pub struct Settings {
    /// The height of the abstraction, from 1 to `MOST_HEIGHT`.
    pub height: u32,
    /// How many abstract states are kept at most, from 1 to `MOST_BUDGET`.
    pub budget: u32,
    /// How many jobs work at once, from 1 to `MOST_JOBS`.
    pub jobs: u32,
    /// What `malloc` may answer.
    pub malloc: MallocMode,
}

/// What a generated program builds and takes apart in each of its phases.
#[derive(Clone, Copy)]
pub enum Kind {
    /// Singly linked lists.
    ListPhases,
    /// Doubly linked lists.
    DllPhases,
    /// Trees.
    TreePhases,
}

/// What the words ask.
#[derive(Drop)]
pub enum Asked<'a> {
    /// The file of this path is verified with these settings, and with the boxes of the file of the other path, where
    /// there is one.
    Verify {
        path: FilePath<'a>,
        boxes: Option<FilePath<'a>>,
        settings: Settings,
    },
    /// The file of this path is run on these choices, for at most so many steps, from 1 to `RUN_STEPS`; its `malloc`
    /// answers by the mode.
    Run {
        path: FilePath<'a>,
        choices: List<u8>,
        steps: u32,
        malloc: MallocMode,
    },
    /// A program of this kind is made with so many phases, from 1 to `MOST_PHASES`, and verified; each `malloc` gives
    /// a cell.
    Gen {
        kind: Kind,
        phases: u32,
    },
}

/// Why words are not read.
#[derive(Clone, Copy)]
pub enum WordsFault {
    /// They ask nothing.
    Usage,
    /// Want of memory.
    Memory,
}

impl From<AllocError> for WordsFault {
    ghost use Rattle.std.specs.Prelude.{◌≡◌};
    ghost use Rattle.fore_words.specs.declared.asked.WordsFault.TheVariants.{Memory};

    ghost from_gives = { λ _ why. why ≡ Memory };

    fn from(_error: AllocError) -> WordsFault {
        WordsFault::Memory
    }
}
