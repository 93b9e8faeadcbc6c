// Automata with numbers.

ghost use Rattle.std.specs.Prelude.{◌≡◌, ◌↔◌, ◌<◌, [], length, Some, slice_get, IsTrue, IfOk, OnOk, OnErr};
ghost use Rattle.fore_base.specs.Lists.{Every, IsDistinct, Paired};
ghost use Rattle.fa_pool.specs.Pools.{IsNumber, ReadsAs, IsKeptIn, IsGrown};

use crate::indexes::Index;
use crate::kept::Kept;
use crate::numbering::number_all;
use crate::tight::tight;
use fa_core::forest::Forest;
use fa_sound::Sound;
use fore_base::list::{Copies, List};
use fore_base::memory::Mem;
use std::alloc::Global;
use std::collections::BTreeMap;
use std::marker::Model;
use ta_core::auto::Auto;

/// Automata, each with a number: its place. Contracts see the list of them, in which none stands twice. Equal
/// languages do not make two automata one: they are compared as values.
#[derive(Drop)]
pub struct Pool {
    autos: List<Auto>,
    // the number of each automaton, listed by its key. Where a number is not below that of automata, it says nothing
    index: Index,
}

impl Model for Pool {
    ghost use Rattle.std.specs.Prelude.{List};
    ghost use Rattle.fore_base.specs.Lists.{IsDistinct};
    ghost use Rattle.ta_core.specs.Auto.{Automaton};
    ghost use Rattle.fa_pool.specs.Indexes.{IsIndexed};

    ghost Value = { List Automaton };

    ghost view = { λ pool. pool.autos };

    ghost invariant = { λ pool. IsDistinct pool.autos × IsIndexed pool.index pool.autos };
}

impl Pool {
    /// No automata, which takes no memory.
    pub fn new(alloc: Global) -> Pool
        ensures { result ≡ [] }
    {
        Pool {
            autos: List::new(alloc),
            index: BTreeMap::new(alloc),
        }
    }

    /// The number of automata.
    pub fn len(&self) -> usize
        ensures { result ≡ length self.now }
    {
        self.autos.len()
    }

    /// Whether there are no automata.
    pub fn is_empty(&self) -> bool
        ensures { IsTrue result ↔ (self.now ≡ []) }
    {
        self.autos.is_empty()
    }

    /// The automaton of this number.
    pub fn auto(&self, number: usize) -> &Auto
        requires { number < length self.now }
        ensures { IsNumber self.now number result.now }
    {
        self.autos.at(number)
    }

    /// Does nothing, and says what is kept: no automaton stands twice.
    pub fn known(&self)
        ensures { IsDistinct self.now }
    {
        let _autos = &self.autos;
    }

    /// The forest, kept by the numbers of its components. A component that is not there is added at the end; those that
    /// are there keep their numbers.
    ///
    /// # Errors
    ///
    /// Want of memory; the pool stays as it was.
    pub fn keep(&mut self, alloc: Global, forest: &Sound) -> Mem<Kept>
        ensures reads { IfOk result (λ kept. ReadsAs self.new kept forest.now.forest) }
        ensures within { IfOk result (IsKeptIn self.new) }
        ensures grows { OnOk result (IsGrown self.old forest.now.forest.autos self.new) }
        ensures distinct { IsDistinct self.new }
        ensures err { OnErr result (self.new ≡ self.old) }
    {
        let held = self.autos.as_slice();
        let forest = forest.forest();
        let vars = tight(alloc, forest.vars.as_slice())?;
        let data_vars = tight(alloc, forest.data_vars.as_slice())?;
        let made = number_all(alloc, held, &mut self.index, forest.autos.as_slice())?;
        let parts = tight(alloc, made.numbers.as_slice())?;
        self.autos.append(made.more)?;
        Ok(Kept {
            parts,
            vars,
            data_vars,
        })
    }

    /// The forest as which the kept one reads, each of whose parts is the number of an automaton.
    ///
    /// # Errors
    ///
    /// Want of memory.
    pub fn forest(&self, alloc: Global, kept: &Kept) -> Mem<Forest>
        requires { IsKeptIn self.now kept.now }
        ensures { IfOk result (ReadsAs self.now kept.now) }
    {
        let autos = self.autos_of(alloc, kept.parts.as_slice())?;
        let vars = kept.vars.copy(alloc)?;
        let data_vars = kept.data_vars.copy(alloc)?;
        Ok(Forest {
            autos,
            vars,
            data_vars,
        })
    }

    /// Equal automata to those of the numbers, in memory of their own. Err is want of memory.
    fn autos_of(&self, alloc: Global, numbers: &[usize]) -> Mem<List<Auto>>
        requires { Every (λ n. n < length self.now) numbers.now }
        ensures { IfOk result (Paired (IsNumber self.now) numbers.now) }
    {
        let mut autos = List::new(alloc);
        for number in numbers {
            let auto = self.auto(*number).copy(alloc)?;
            autos.push(auto)?;
        }
        Ok(autos)
    }
}
