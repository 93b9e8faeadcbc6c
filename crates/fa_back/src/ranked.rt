// What is known of the rules of the insides of a table's boxes.

ghost use Rattle.fore_base.specs.Lists.{Every};
ghost use Rattle.ta_core.specs.Auto.{IsRanked};
ghost use Rattle.fa_back.specs.Insides.{AreRankedInsides};

use fa_core::boxes::BoxDef;
use fa_core::table::BoxTable;
use ta_core::auto::Auto;

/// Looks at each automaton once, and says that the rules of the insides have as many children as their symbols: what
/// the laws of insides ask where they lead from insides to signatures.
pub fn ranked_insides(table: &BoxTable)
    ensures { AreRankedInsides table.now.defs }
{
    for place in 0..table.len() {
        ranked_inside(table.box_def(place));
    }
}

fn ranked_inside(one: &BoxDef)
    ensures { Every IsRanked one.now.inside.autos }
{
    ranked(one.inside.autos.as_slice());
}

fn ranked(autos: &[Auto])
    ensures { Every IsRanked autos.now }
{
    for auto in autos {
        auto.known();
    }
}
