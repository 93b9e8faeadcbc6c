// What is known of lists of forests: they have dressed forests.

ghost use Rattle.fore_base.specs.Lists.{Every};
ghost use Rattle.sym_step.specs.inner.Stepping.{HasDressed};

use fa_sound::Sound;

/// Does nothing, and says that each forest has a dressed forest.
pub fn are_dressed(forests: &[Sound])
    ensures { Every (λ s. HasDressed s.forest) forests.now }
{
    for forest in forests {
        is_dressed(forest);
    }
}

fn is_dressed(forest: &Sound)
    ensures { HasDressed forest.now.forest }
{
    forest.known();
}
