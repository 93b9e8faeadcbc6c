// Rules and automata.

ghost use Rattle.std.specs.Prelude.{SomeIff};

use crate::ranked::{are_below, are_ranked};
use crate::symbol::Symbol;
use fore_base::list::{Copies, List};
use std::alloc::{AllocError, Global};
use std::marker::Model;

/// A rule: a tree with this symbol, whose children have runs to these states, has a run to this state.
#[derive(PartialEq, Eq, Drop)]
pub struct Rule {
    pub state: u32,
    pub symbol: Symbol,
    pub children: List<u32>,
}

/// A tree automaton. Its states are the numbers below `states`. It keeps that each state in it is one of these, and
/// that each rule has as many children as its symbol has `Field` and `Link` slots, a leaf none.
#[derive(Drop)]
pub struct Auto {
    pub states: u32,
    pub roots: List<u32>,
    pub rules: List<Rule>,
}

impl Model for Auto {
    ghost use Rattle.ta_core.specs.Auto.{Automaton, IsRanked};

    ghost Value = { Automaton };

    ghost view = { λ a. record { states = a.states; roots = a.roots; rules = a.rules } };

    ghost invariant = { λ a. IsRanked (record { states = a.states; roots = a.roots; rules = a.rules }) };
}

impl Auto {
    ghost use Rattle.ta_core.specs.Auto.{IsRanked, automaton};

    /// Does nothing, and says what the automaton keeps: for proofs in which no part of it is read.
    pub fn known(&self)
        ensures { IsRanked self.now }
    {
        let _states = self.states;
    }

    /// The automaton of these parts. None exactly where a state is not below `states`, or a rule has more or fewer
    /// children than its symbol. Takes no memory.
    pub fn from_parts(states: u32, roots: List<u32>, rules: List<Rule>) -> Option<Auto>
        ensures { SomeIff result (IsRanked (automaton states roots rules)) (automaton states roots rules) }
    {
        if are_below(states, roots.as_slice()) && are_ranked(states, rules.as_slice()) {
            Some(Auto {
                states,
                roots,
                rules,
            })
        } else {
            None
        }
    }
}

impl Copies for Rule {
    fn copy(&self, alloc: Global) -> Result<Rule, AllocError> {
        Ok(Rule {
            state: self.state,
            symbol: self.symbol.copy(alloc)?,
            children: self.children.copy(alloc)?,
        })
    }
}

impl Copies for Auto {
    fn copy(&self, alloc: Global) -> Result<Auto, AllocError> {
        Ok(Auto {
            states: self.states,
            roots: self.roots.copy(alloc)?,
            rules: self.rules.copy(alloc)?,
        })
    }
}
