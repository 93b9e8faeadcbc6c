// What the components of a forest keep.

ghost use Rattle.fore_base.specs.Lists.{Every};
ghost use Rattle.ta_core.specs.Auto.{IsRanked};

use fa_core::forest::Forest;
use ta_core::auto::Auto;

/// Does nothing, and says that each component keeps its ranges.
pub fn ranked_components(forest: &Forest)
    ensures { Every IsRanked forest.now.autos }
{
    ranked_autos(forest.autos.as_slice());
}

fn ranked_autos(autos: &[Auto])
    ensures { Every IsRanked autos.now }
{
    for auto in autos {
        auto.known();
    }
}
