// Abstract states.
ghost use Rattle.std.specs.Prelude.{◌≡◌, [], None, Some, IfOk, MatchOption};
ghost use Rattle.fix_core.specs.States.{AbstractState, IsSoundState, forest_of};

use fa_core::folds::FoldStep;
use fa_sound::Sound;
use fore_base::list::{Copies, List};
use fore_base::memory::Mem;
use std::alloc::Global;
use std::marker::Model;

/// The abstract state of a node: its forest and, at a loop head, the forest before it was folded and abstracted, with
/// the folds. Both forests stand over one face.
#[derive(Drop)]
pub struct State {
    forest: Sound,
    middle: Option<Sound>,
    folds: List<FoldStep>,
}

impl Model for State {
    ghost use Rattle.fix_core.specs.States.{AbstractState, IsOver, forest_of};

    ghost Value = { AbstractState };

    ghost view = { λ s.
        record {
          face = s.forest.face;
          forest = s.forest.forest;
          middle = forest_of s.middle;
          folds = s.folds;
        } };

    ghost invariant = { λ s. IsOver s.forest.face s.middle };
}

impl State {
    /// The state of a case that is carried on as it is.
    pub fn carried(alloc: Global, forest: Sound) -> State
        ensures { result ≡ record { face = forest.face; forest = forest.forest; middle = None; folds = [] } }
    {
        State {
            forest,
            middle: None,
            folds: List::new(alloc),
        }
    }

    /// The state of a case that was folded and abstracted: `middle` is the case.
    pub fn settled(forest: Sound, middle: Sound, folds: List<FoldStep>) -> State
        requires { middle.face ≡ forest.face }
        ensures { result
            ≡ record {
              face = forest.face;
              forest = forest.forest;
              middle = Some middle.forest;
              folds = folds;
            } }
    {
        State {
            forest,
            middle: Some(middle),
            folds,
        }
    }

    /// The forest.
    pub fn forest(&self) -> &Sound
        ensures forest { result.now.forest ≡ self.now.forest }
        ensures face { result.now.face ≡ self.now.face }
    {
        &self.forest
    }

    /// The forest before it was folded and abstracted, if it was.
    pub fn middle(&self) -> Option<&Sound>
        ensures { MatchOption result (self.now.middle ≡ None)
            (λ middle. (self.now.middle ≡ Some middle.now.forest) × (middle.now.face ≡ self.now.face)) }
    {
        match &self.middle {
            Some(middle) => Some(middle),
            None => None,
        }
    }

    /// The folds, in order.
    pub fn folds(&self) -> &[FoldStep]
        ensures { result.now ≡ self.now.folds }
    {
        self.folds.as_slice()
    }

    /// An equal one, in memory of its own. Err is want of memory.
    pub fn copy(&self, alloc: Global) -> Mem<State>
        ensures { IfOk result (λ other. other ≡ self.now) }
    {
        let middle = match &self.middle {
            Some(middle) => Some(middle.copy(alloc)?),
            None => None,
        };
        Ok(State {
            forest: self.forest.copy(alloc)?,
            middle,
            folds: self.folds.copy(alloc)?,
        })
    }

    /// Does nothing, and says what the state keeps.
    pub fn known(&self)
        ensures { IsSoundState self.now }
    {
        self.forest.known();
        if let Some(middle) = &self.middle {
            middle.known();
        }
    }
}
