// Lists of forests with one rule at a root.

ghost use Rattle.fore_base.specs.Lists.{Every};
ghost use Rattle.fa_sound.specs.Soundness.{IsSigned};

use crate::applying::Step;
use fa_sound::Sound;
use fa_split::choose_rule;
use fore_base::list::List;
use fore_base::memory::Mem;
use std::alloc::Global;

/// Each of the rules of the root chosen, alone there.
#[derive(Drop)]
pub struct Choose {
    pub root: u32,
}

impl Step for Choose {
    ghost use Rattle.std.specs.Prelude.{◌<◌, List, length};
    ghost use Rattle.fa_core.specs.Member.{RegroupsInto};
    ghost use Rattle.fa_core.specs.declared.boxes.BoxDef.{BoxDef};
    ghost use Rattle.fa_opening.specs.inner.Rounds.{IsChoiceOf};

    ghost accepts = { λ step S. step.root < length S.forest.autos };

    ghost relates = { λ step. IsChoiceOf step.root };

    ghost goes_into = { λ step S Gs. (T : List BoxDef) → RegroupsInto T S.forest Gs };

    ghost goes_on = { λ step S Gs Hs more k T d h. let w = k T d h in (w.0, more w.0 w.1, w.2) };

    fn apply(&self, alloc: Global, part: &Sound) -> Mem<List<Sound>> {
        let made = choose_rule(alloc, part, self.root)?;
        Ok(made)
    }
}

/// Does nothing, and says what each of the forests keeps.
pub fn known_each(parts: &[Sound])
    ensures { Every IsSigned parts.now }
{
    for part in parts {
        part.known();
    }
}
