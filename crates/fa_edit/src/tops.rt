//! What stands at the top of a component with one rule there.

ghost use Rattle.std.specs.Prelude.{◌≡◌, ◌≢◌, ◌↔◌, slice_get, IsTrue, MatchOption};
ghost use Rattle.fore_base.specs.Lists.{IsIn, Every};
ghost use Rattle.ta_core.specs.Single.{HasOneTop};
ghost use Rattle.fa_core.specs.Folding.{symbol_slots};
ghost use Rattle.fa_core.specs.Member.{leaf_symbol};
ghost use Rattle.fa_core.specs.declared.forest.Target.{Target};
ghost use Rattle.fa_edit.specs.Data.{symbol_datums};
ghost use Rattle.fa_edit.specs.Fits.{symbol_shape};
ghost use Rattle.fa_edit.specs.Plain.{HasOnlyLeaf, IsOnlyLeaf, field_place};
ghost use Rattle.fa_split.specs.Split.{top_rule};

use fa_core::forest::Target;
use fa_merge::symbol_of;
use fa_split::rule_at_top;
use fore_base::store::Datum;
use ta_core::auto::{Auto, Rule};
use ta_core::symbol::{Slot, Symbol};

/// The place of the field among the children of the one rule at the top; None where that has no slot of the field.
pub fn place_of(auto: &Auto, field: u32) -> Option<usize>
    requires { HasOneTop auto.now }
    ensures { result ≡ field_place field (symbol_slots (top_rule auto.now).symbol) }
{
    field_place(slots_of(&rule_at_top(auto).symbol), field)
}

/// The struct of the cell at the top, None where that is a leaf.
pub fn shape_of(auto: &Auto) -> Option<u32>
    requires { HasOneTop auto.now }
    ensures { result ≡ symbol_shape (top_rule auto.now).symbol }
{
    match &rule_at_top(auto).symbol {
        Symbol::Cell { shape, .. } => Some(*shape),
        _ => None,
    }
}

/// The datum in this data field of the cell at the top, None where there is none.
pub fn datum_at(auto: &Auto, field: u32) -> Option<Datum>
    requires { HasOneTop auto.now }
    ensures { result ≡ slice_get (symbol_datums (top_rule auto.now).symbol) field }
{
    datums_of(&rule_at_top(auto).symbol)
        .get(field as usize)
        .copied()
}

fn datums_of(symbol: &Symbol) -> &[Datum]
    ensures { result.now ≡ symbol_datums symbol.now }
{
    match symbol {
        Symbol::Cell { datums, .. } => datums.as_slice(),
        _ => &[],
    }
}

fn slots_of(symbol: &Symbol) -> &[Slot]
    ensures { result.now ≡ symbol_slots symbol.now }
{
    match symbol {
        Symbol::Cell { slots, .. } => slots.as_slice(),
        _ => &[],
    }
}

fn field_place(slots: &[Slot], field: u32) -> Option<usize>
    ensures { result ≡ field_place field slots.now }
{
    let mut place: usize = 0;
    for slot in slots {
        match *slot {
            Slot::Field(own) => {
                if own == field {
                    return Some(place);
                }
                place += 1;
            }
            Slot::Link(_) => place += 1,
            Slot::Hook(_) => {}
        }
    }
    None
}

/// The first rule of the state.
fn first_at<'a>(rules: &'a [Rule], state: u32) -> Option<&'a Rule>
    ensures { MatchOption result (Every (λ x. x.state ≢ state) rules.entry.now)
        (λ rule. IsIn rule.now rules.entry.now × (rule.now.state ≡ state)) }
{
    for rule in rules {
        if rule.state == state {
            return Some(rule);
        }
    }
    None
}

/// The one leaf of the state.
pub fn only_leaf(rules: &[Rule], state: u32) -> Target
    requires { HasOnlyLeaf rules.now state }
    ensures { IsOnlyLeaf rules.now state result }
{
    match first_at(rules, state) {
        Some(rule) => target_of(&rule.symbol),
        None => unreachable!(),
    }
}

/// Whether each rule of the state is one leaf, and there is one.
pub fn has_only_leaf(rules: &[Rule], state: u32) -> bool
    ensures { IsTrue result ↔ HasOnlyLeaf rules.now state }
{
    match first_at(rules, state) {
        Some(rule) => are_of(rules, state, target_of(&rule.symbol)),
        None => false,
    }
}

/// Whether each rule of the state is the leaf.
fn are_of(rules: &[Rule], state: u32, leaf: Target) -> bool
    ensures { IsTrue result ↔ Every (λ x. x.state ≡ state → x.symbol ≡ leaf_symbol leaf) rules.now }
{
    for rule in rules {
        if rule.state == state && !is_leaf_of(&rule.symbol, leaf) {
            return false;
        }
    }
    true
}

fn is_leaf_of(symbol: &Symbol, leaf: Target) -> bool
    ensures { IsTrue result ↔ (symbol.now ≡ leaf_symbol leaf) }
{
    symbol.is_same(&symbol_of(leaf))
}

/// The leaf of a leaf's symbol.
fn target_of(symbol: &Symbol) -> Target
    ensures { (t : Target) → symbol.now ≡ leaf_symbol t → result ≡ t }
{
    match symbol {
        Symbol::Uninit => Target::Uninit,
        Symbol::Dangling => Target::Dangling,
        Symbol::Ref(root) => Target::At(*root),
        _ => Target::Null,
    }
}
