// Components of forests.

ghost use Rattle.std.specs.Prelude.{◌≡◌, ◌<◌, ◌^◌, length, IfOk};
ghost use Rattle.fa_sound.specs.Components.{component_at, with_component};

use fa_core::forest::Forest;
use fore_base::list::Copies;
use fore_base::memory::Mem;
use std::alloc::{AllocError, Global};
use ta_core::auto::Auto;

/// The component of the root.
pub fn component(forest: &Forest, root: u32) -> &Auto
    requires { root < length forest.now.autos }
    ensures { result.now ≡ component_at forest.now.autos root }
{
    forest.autos.at(root as usize)
}

/// The forest with the automaton as the component of the root. Err is want of memory.
pub fn replace(alloc: Global, forest: &Forest, root: u32, auto: Auto) -> Mem<Forest>
    requires { root < length forest.now.autos }
    ensures { IfOk result (λ made. made ≡ with_component forest.now root auto) }
{
    let mut autos = forest.autos.copy(alloc)?;
    autos.set(root as usize, auto);
    let vars = forest.vars.copy(alloc)?;
    let data_vars = forest.data_vars.copy(alloc)?;
    Ok(Forest {
        autos,
        vars,
        data_vars,
    })
}

/// How many roots the forest has. Where the number does not fit 32 bits the answer is want of memory.
pub fn count_roots(forest: &Forest) -> Mem<u32>
    ensures value { IfOk result (λ count. count ≡ length forest.now.autos) }
    ensures few { IfOk result (λ count. count < 2 ^ 32) }
{
    let count = forest.autos.len();
    if count > u32::MAX as usize {
        return Err(AllocError);
    }
    Ok(count as u32)
}
