// How many rules the components of kept forests have.

ghost use Rattle.std.specs.Prelude.{◌≡◌, ◌<◌, ◌-◌, ◌^◌, length, map, min};
ghost use Rattle.fore_base.specs.Lists.{Every};
ghost use Rattle.fix_core.specs.Counted.{rules_in};
ghost use Rattle.fix_core.specs.Reads.{auto_at};

use fa_pool::Pool;
use ta_core::auto::Auto;

/// How many rules the automata of these numbers have in all, or as many as can be counted.
pub fn count_rules(pool: &Pool, numbers: &[usize]) -> usize
    requires { Every (λ n. n < length pool.now) numbers.now }
    ensures { result ≡ min (rules_in (map (auto_at pool.now) numbers.now)) (2 ^ 64 - 1) }
{
    let mut rules = 0usize;
    for number in numbers {
        let more = rules_of(pool.auto(*number));
        rules = rules.saturating_add(more);
    }
    rules
}

/// How many rules the automaton has.
fn rules_of(auto: &Auto) -> usize
    ensures { result ≡ length auto.now.rules }
{
    auto.rules.len()
}
