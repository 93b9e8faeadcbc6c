// Root states listed once.

ghost use Rattle.std.specs.Prelude.{◌≡◌, ◌⊎◌, ◌↔◌, ℕ, IsTrue, IfOk, OnOk};
ghost use Rattle.fore_base.specs.Lists.{IsIn, IsDistinct};
ghost use Rattle.ta_reduce.specs.inner.Reduction.{HasRootsOnce};

use fore_base::list::{Copies, List};
use fore_base::memory::Mem;
use std::alloc::Global;
use ta_core::auto::Auto;

/// The automaton with each root state listed once.
///
/// # Errors
///
/// Want of memory.
pub fn with_roots_once(alloc: Global, auto: &Auto) -> Mem<Auto>
    ensures { IfOk result (HasRootsOnce auto.now) }
{
    let roots = each_once(alloc, auto.roots.as_slice())?;
    let rules = auto.rules.copy(alloc)?;
    Ok(Auto {
        states: auto.states,
        roots,
        rules,
    })
}

/// The states, each at its first place alone.
fn each_once(alloc: Global, states: &[u32]) -> Mem<List<u32>>
    ensures once { IfOk result IsDistinct }
    ensures same { IfOk result (λ made. (q : ℕ) → IsIn q made ↔ IsIn q states.now) }
{
    let mut made = List::new(alloc);
    for state in states {
        add_once(&mut made, *state)?;
    }
    Ok(made)
}

/// Adds the state, if it is not there.
fn add_once(made: &mut List<u32>, state: u32) -> Mem<()>
    requires { IsDistinct made.old }
    ensures once { OnOk result (IsDistinct made.new) }
    ensures same { OnOk result ((q : ℕ) → IsIn q made.new ↔ (IsIn q made.old ⊎ (q ≡ state))) }
{
    if is_one_of(made.as_slice(), state) {
        return Ok(());
    }
    made.push(state)?;
    Ok(())
}

fn is_one_of(states: &[u32], state: u32) -> bool
    ensures { IsTrue result ↔ IsIn state states.now }
{
    for other in states {
        if *other == state {
            return true;
        }
    }
    false
}
