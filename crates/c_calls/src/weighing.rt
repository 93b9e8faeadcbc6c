// What functions weigh, up to a cap, so that no sum wraps.

ghost use Rattle.std.specs.Prelude.{◌≡◌, ◌+◌, ◌<◌, length, map, min, slice_index, IfOk};
ghost use Rattle.fore_base.specs.Lists.{Every, sum_of};
ghost use Rattle.c_calls.specs.Calls.{AreCalls};
ghost use Rattle.c_calls.specs.Weights.{AreWeights};
ghost use Rattle.c_calls.specs.inner.Weighing.{AreWeightsWithin, AreNextWeights};

use fore_base::list::List;
use fore_base::memory::Mem;
use std::alloc::Global;

/// For each function what it weighs, or `cap` where that is less. It looks at each call as often as there are
/// functions.
///
/// # Errors
///
/// Want of memory.
pub fn weigh(alloc: Global, calls: &[List<u32>], statements: &[u32], cap: u32) -> Mem<List<u32>>
    requires within { AreCalls calls.now }
    requires long { length statements.now ≡ length calls.now }
    ensures { IfOk result (AreWeights statements.now calls.now cap) }
{
    let mut weights = own_weights(alloc, calls, statements, cap)?;
    for _depth in 0..calls.len() {
        weights = next_weights(alloc, calls, statements, weights.as_slice(), cap)?;
    }
    Ok(weights)
}

/// The weights of the functions where no call is followed.
fn own_weights(alloc: Global, _calls: &[List<u32>], statements: &[u32], cap: u32) -> Mem<List<u32>>
    requires { length statements.now ≡ length _calls.now }
    ensures { IfOk result (AreWeightsWithin statements.now _calls.now cap 0) }
{
    let mut weights = List::new(alloc);
    for own in statements {
        weights.push((*own).min(cap))?;
    }
    Ok(weights)
}

/// The weights of the functions, where those of the called ones are known.
fn next_weights(
    alloc: Global,
    calls: &[List<u32>],
    statements: &[u32],
    weights: &[u32],
    cap: u32,
) -> Mem<List<u32>>
    requires within { AreCalls calls.now }
    requires statements { length statements.now ≡ length calls.now }
    requires weights { length weights.now ≡ length calls.now }
    ensures { IfOk result (AreNextWeights statements.now calls.now cap weights.now) }
{
    let mut next = List::new(alloc);
    for (function, called) in calls.iter().enumerate() {
        let weight = body_weight(statements[function], called.as_slice(), weights, cap);
        next.push(weight)?;
    }
    Ok(next)
}

/// What a body of so many statements and these calls weighs, or `cap` where that is less.
fn body_weight(own: u32, called: &[u32], weights: &[u32], cap: u32) -> u32
    requires { Every (λ g. g < length weights.now) called.now }
    ensures { result ≡ min (own + sum_of (map (slice_index weights.now) called.now)) cap }
{
    let mut weight = own.min(cap);
    for function in called {
        weight = weight.saturating_add(weights[*function as usize]).min(cap);
    }
    weight
}
