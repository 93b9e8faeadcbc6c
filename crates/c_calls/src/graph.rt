// The calls of a file, both ways.

ghost use Rattle.std.specs.Prelude.{◌≡◌, ◌↔◌, ◌<◌, ◌^◌, length, IfOk, IsTrue};
ghost use Rattle.fore_base.specs.Marks.{MarksOf};
ghost use Rattle.c_calls.specs.Calls.{AreCalls, Leads};
ghost use Rattle.c_calls.specs.Weights.{AreWeights};

use crate::turning::callers_of;
use crate::weighing;
use fore_base::list::List;
use fore_base::marks::is_marked;
use fore_base::memory::Mem;
use fore_search::search;
use std::alloc::Global;
use std::marker::Model;

/// The calls of a file. Contracts see for each function, by its number, the functions that its body calls, each as
/// often as it is called.
#[derive(Drop)]
pub struct CallGraph {
    calls: List<List<u32>>,
    callers: List<List<u32>>,
}

impl Model for CallGraph {
    ghost use Rattle.std.specs.Prelude.{List, ℕ, ◌<◌, ◌^◌, length};
    ghost use Rattle.std.specs.Coded.{coded_list, coded_ℕ};
    ghost use Rattle.c_calls.specs.Calls.{AreCalls, AreCallers};

    ghost Value = { List (List ℕ) };

    ghost coded = { coded_list (coded_list coded_ℕ) };

    ghost view = { λ graph. graph.calls };

    ghost invariant = { λ graph. AreCalls graph.calls × (length graph.calls < 2 ^ 32)
        × AreCallers graph.calls graph.callers };
}

impl CallGraph {
    /// The graph of these calls, each of a function that is there.
    ///
    /// # Errors
    ///
    /// Want of memory.
    pub fn new(alloc: Global, calls: List<List<u32>>) -> Mem<CallGraph>
        requires within { AreCalls calls }
        requires few { length calls < 2 ^ 32 }
        ensures { IfOk result (λ graph. graph ≡ calls) }
    {
        let callers = callers_of(alloc, calls.as_slice())?;
        Ok(CallGraph { calls, callers })
    }

    /// Does nothing, and says what the graph keeps: for proofs in which no part of it is read.
    pub fn known(&self)
        ensures within { AreCalls self.now }
        ensures few { length self.now < 2 ^ 32 }
    {
        let _calls = &self.calls;
    }

    /// A mark for each function that leads to `to`, by one call or more. It looks at each call once at most.
    ///
    /// # Errors
    ///
    /// Want of memory.
    pub fn leading_to(&self, alloc: Global, to: u32) -> Mem<List<bool>>
        requires { to < length self.now }
        ensures { IfOk result (MarksOf (length self.now) (λ f. Leads self.now f to)) }
    {
        search(
            alloc,
            &self.callers,
            self.callers.at(to as usize).as_slice(),
        )
    }

    /// Whether `from` leads to `to`, by one call or more.
    ///
    /// # Errors
    ///
    /// Want of memory.
    pub fn leads_to(&self, alloc: Global, from: u32, to: u32) -> Mem<bool>
        requires { to < length self.now }
        ensures { IfOk result (λ yes. IsTrue yes ↔ Leads self.now from to) }
    {
        let leading = self.leading_to(alloc, to)?;
        Ok(is_marked(leading.as_slice(), from))
    }

    /// Whether the function leads to itself.
    ///
    /// # Errors
    ///
    /// Want of memory.
    pub fn is_recursive(&self, alloc: Global, function: u32) -> Mem<bool>
        requires { function < length self.now }
        ensures { IfOk result (λ yes. IsTrue yes ↔ Leads self.now function function) }
    {
        self.leads_to(alloc, function, function)
    }

    /// For each function what it weighs, or `cap` where that is less: the statements of its body, of which
    /// `statements` tells the number for each function, and for each call in it what the called function weighs. Where
    /// a function leads to itself, calls are followed as deep as there are functions.
    ///
    /// # Errors
    ///
    /// Want of memory.
    pub fn weigh(&self, alloc: Global, statements: &[u32], cap: u32) -> Mem<List<u32>>
        requires { length statements.now ≡ length self.now }
        ensures { IfOk result (AreWeights statements.now self.now cap) }
    {
        weighing::weigh(alloc, self.calls.as_slice(), statements, cap)
    }
}
