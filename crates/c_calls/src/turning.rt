// Calls turned round: for each function those that call it.

ghost use Rattle.std.specs.Prelude.{◌≡◌, ◌<◌, ◌^◌, [], ◌∷◌, length, replicate, IfOk, OnOk};
ghost use Rattle.fore_base.specs.Lists.{Every};
ghost use Rattle.c_calls.specs.Calls.{AreCalls, AreCallers};
ghost use Rattle.c_calls.specs.inner.Turning.{Adds};

use fore_base::list::List;
use fore_base::memory::Mem;
use std::alloc::Global;

/// For each function those that call it, one as often as it does.
pub fn callers_of(alloc: Global, calls: &[List<u32>]) -> Mem<List<List<u32>>>
    requires within { AreCalls calls.now }
    requires few { length calls.now < 2 ^ 32 }
    ensures { IfOk result (AreCallers calls.now) }
{
    let mut callers = no_callers(alloc, calls.len())?;
    for (caller, called) in calls.iter().enumerate() {
        add_caller(&mut callers, caller as u32, called.as_slice())?;
    }
    Ok(callers)
}

fn no_callers(alloc: Global, count: usize) -> Mem<List<List<u32>>>
    ensures { IfOk result (λ callers. callers ≡ replicate count []) }
{
    let mut callers = List::new(alloc);
    for _function in 0..count {
        callers.push(List::new(alloc))?;
    }
    Ok(callers)
}

/// Adds the caller to those of each called function.
fn add_caller(callers: &mut List<List<u32>>, caller: u32, called: &[u32]) -> Mem<()>
    requires { Every (λ g. g < length callers.old) called.now }
    ensures { OnOk result (Adds caller called.now callers.old callers.new) }
{
    for function in called {
        add_one(callers, caller, *function)?;
    }
    Ok(())
}

fn add_one(callers: &mut List<List<u32>>, caller: u32, function: u32) -> Mem<()>
    requires { function < length callers.old }
    ensures { OnOk result (Adds caller (function ∷ []) callers.old callers.new) }
{
    let own = callers.at_mut(function as usize);
    own.push(caller)?;
    Ok(())
}
