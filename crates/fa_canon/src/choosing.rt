// One rule for each root.

ghost use Rattle.std.specs.Prelude.{◌<◌, [], ◌∷◌, length, IfOk};
ghost use Rattle.fa_canon.specs.inner.Steps.{HasChosen, HaveTops, IsSplitEach};

use crate::steps::{Step, alone, on_each};
use fa_sound::{Sound, component, count_roots};
use fa_split::choose_rule;
use fore_base::list::List;
use fore_base::memory::Mem;
use std::alloc::Global;
use ta_core::single::has_one_top;

/// One rule chosen at a root. A forest that has one there is left as it is.
#[derive(Drop)]
struct Choose {
    root: u32,
}

impl Step for Choose {
    ghost use Rattle.std.specs.Prelude.{◌<◌, length};
    ghost use Rattle.fa_canon.specs.inner.Steps.{IsChosenAt};

    ghost accepts = { λ step F. step.root < length F.forest.autos };

    ghost relates = { λ step F G. IsChosenAt step.root F.forest G.forest };

    fn apply(&self, alloc: Global, forest: Sound) -> Mem<List<Sound>> {
        if has_one_top(component(forest.forest(), self.root)) {
            return alone(alloc, forest);
        }
        forest.known();
        let made = choose_rule(alloc, &forest, self.root)?;
        Ok(made)
    }
}

/// Forests in which each root has one root state with one rule: one for each way to choose a rule of each root from
/// this one on, where the roots before it have one rule. Err is want of memory.
pub fn choose_rules(alloc: Global, forest: Sound, from: u32) -> Mem<List<Sound>>
    requires { HaveTops from forest.forest }
    ensures { IfOk result (λ made. IsSplitEach (HasChosen (length forest.forest.autos)) (forest ∷ []) made) }
{
    let count = count_roots(forest.forest())?;
    let mut list = alone(alloc, forest)?;
    for root in from..count {
        list = on_each(alloc, &Choose { root }, list)?;
    }
    Ok(list)
}

/// One rule chosen at each root from this one on.
#[derive(Drop)]
pub struct ChooseFrom {
    pub from: u32,
}

impl Step for ChooseFrom {
    ghost use Rattle.std.specs.Prelude.{length};
    ghost use Rattle.fa_canon.specs.inner.Steps.{HasChosen, HaveTops};

    ghost accepts = { λ step F. HaveTops step.from F.forest };

    ghost relates = { λ step F. HasChosen (length F.forest.autos) F };

    fn apply(&self, alloc: Global, forest: Sound) -> Mem<List<Sound>> {
        choose_rules(alloc, forest, self.from)
    }
}
