// The keys by which automata are found.

ghost use Rattle.std.specs.Prelude.{◌≡◌};
ghost use Rattle.fa_pool.specs.Keys.{mixed, with_numbers, with_datum, with_datums, with_slot, with_slots};
ghost use Rattle.fa_pool.specs.Keys.{with_symbol, with_rule, with_rules, key_of};

use fore_base::store::Datum;
use ta_core::auto::{Auto, Rule};
use ta_core::symbol::{Slot, Symbol};

/// The key of the automaton: each part of it goes into the number in its turn.
pub fn key_of(auto: &Auto) -> u64
    ensures { result ≡ key_of auto.now }
{
    let key = with_numbers(mixed(0, auto.states as u64), auto.roots.as_slice());
    with_rules(key, auto.rules.as_slice())
}

/// The key with a number more.
pub fn mixed(key: u64, number: u64) -> u64
    ensures { result ≡ mixed key number }
{
    key.wrapping_mul(1000003).wrapping_add(number)
}

fn with_numbers(key: u64, numbers: &[u32]) -> u64
    ensures { result ≡ with_numbers key numbers.now }
{
    let mut mix = key;
    for number in numbers {
        mix = mixed(mix, *number as u64);
    }
    mix
}

fn with_datum(key: u64, datum: Datum) -> u64
    ensures { result ≡ with_datum key datum }
{
    match datum {
        Datum::Undefined => mixed(key, 0),
        Datum::Known(number) => mixed(mixed(key, 1), number as u64),
    }
}

/// The key with each of the data in its turn.
pub fn with_datums(key: u64, datums: &[Datum]) -> u64
    ensures { result ≡ with_datums key datums.now }
{
    let mut mix = key;
    for datum in datums {
        mix = with_datum(mix, *datum);
    }
    mix
}

fn with_slot(key: u64, slot: Slot) -> u64
    ensures { result ≡ with_slot key slot }
{
    match slot {
        Slot::Field(field) => mixed(mixed(key, 0), field as u64),
        Slot::Link(link) => mixed(mixed(key, 1), link as u64),
        Slot::Hook(hook) => mixed(mixed(key, 2), hook as u64),
    }
}

fn with_slots(key: u64, slots: &[Slot]) -> u64
    ensures { result ≡ with_slots key slots.now }
{
    let mut mix = key;
    for slot in slots {
        mix = with_slot(mix, *slot);
    }
    mix
}

fn with_symbol(key: u64, symbol: &Symbol) -> u64
    ensures { result ≡ with_symbol key symbol.now }
{
    match symbol {
        Symbol::Null => mixed(key, 0),
        Symbol::Uninit => mixed(key, 1),
        Symbol::Dangling => mixed(key, 2),
        Symbol::Ref(root) => mixed(mixed(key, 3), *root as u64),
        Symbol::Cell {
            shape,
            datums,
            slots,
        } => {
            let head = mixed(mixed(key, 4), *shape as u64);
            with_slots(with_datums(head, datums.as_slice()), slots.as_slice())
        }
    }
}

fn with_rule(key: u64, rule: &Rule) -> u64
    ensures { result ≡ with_rule key rule.now }
{
    let head = with_symbol(mixed(key, rule.state as u64), &rule.symbol);
    with_numbers(head, rule.children.as_slice())
}

fn with_rules(key: u64, rules: &[Rule]) -> u64
    ensures { result ≡ with_rules key rules.now }
{
    let mut mix = key;
    for rule in rules {
        mix = with_rule(mix, rule);
    }
    mix
}
