// Whether two forests look alike: what takes little time to compare.

ghost use Rattle.std.specs.Prelude.{◌↔◌, IsTrue};
ghost use Rattle.fore_base.specs.Lists.{Every, Paired};
ghost use Rattle.ta_core.specs.Single.{HasOneTop};
ghost use Rattle.fa_join.specs.inner.Differing.{LookAlike, SameTops};

use fa_core::forest::{Forest, are_same_data, are_same_targets};
use fa_split::rule_at_top;
use ta_core::auto::Auto;

/// Whether the two forests have the same targets, data and number of roots, and the same symbols at the top.
pub fn look_alike(left: &Forest, right: &Forest) -> bool
    requires left { Every HasOneTop left.now.autos }
    requires right { Every HasOneTop right.now.autos }
    ensures { IsTrue result ↔ LookAlike left.now right.now }
{
    are_same_targets(left.vars.as_slice(), right.vars.as_slice())
        && are_same_data(left.data_vars.as_slice(), right.data_vars.as_slice())
        && have_same_tops(left.autos.as_slice(), right.autos.as_slice())
}

/// Whether there are as many automata, with the same symbols at the top.
fn have_same_tops(left: &[Auto], right: &[Auto]) -> bool
    requires left { Every HasOneTop left.now }
    requires right { Every HasOneTop right.now }
    ensures { IsTrue result ↔ Paired SameTops left.now right.now }
{
    if left.len() != right.len() {
        return false;
    }
    for place in 0..left.len() {
        if !is_same_top(&left[place], &right[place]) {
            return false;
        }
    }
    true
}

fn is_same_top(left: &Auto, right: &Auto) -> bool
    requires left { HasOneTop left.now }
    requires right { HasOneTop right.now }
    ensures { IsTrue result ↔ SameTops left.now right.now }
{
    rule_at_top(left).symbol.is_same(&rule_at_top(right).symbol)
}
