//! Data fields of roots.

ghost use Rattle.std.specs.Prelude.{◌≡◌, ◌<◌, List, length, slice_get, IfOk, MatchOption, OnSome};
ghost use Rattle.fore_base.specs.Lists.{Every};
ghost use Rattle.ta_core.specs.Single.{HasOneTop};
ghost use Rattle.fa_core.specs.Boxless.{HasNoBoxes};
ghost use Rattle.fa_core.specs.Canonical.{IsCanonical};
ghost use Rattle.fa_core.specs.Filled.{DatumFits};
ghost use Rattle.fa_core.specs.declared.boxes.BoxDef.{BoxDef};
ghost use Rattle.fa_edit.specs.Data.{AllHaveDatum, AllLackDatum, HasDatumField, IsDatumPut, datums_at};
ghost use Rattle.fa_edit.specs.inner.Edited.{dated, dated_at, symbol_with};
ghost use Rattle.fa_sound.specs.Components.{component_at};

use crate::tops::datum_at;
use fa_sound::{Sound, component};
use fa_split::{rule_at_top, states_of};
use fore_base::list::{Copies, List};
use fore_base::memory::Mem;
use fore_base::store::Datum;
use std::alloc::Global;
use ta_core::auto::{Auto, Rule};
use ta_core::joining::room;
use ta_core::symbol::Symbol;

/// The datum in a data field of a root that has one rule; None where the root has no such field. Takes no memory.
pub fn datum_of(forest: &Sound, root: u32, field: u32) -> Option<Datum>
    requires root { root < length forest.now.forest.autos }
    requires top { HasOneTop (component_at forest.now.forest.autos root) }
    ensures value { result ≡ slice_get (datums_at forest.now.forest root) field }
    ensures has { OnSome result (HasDatumField forest.now.forest root field) }
    ensures held { MatchOption result ((T : List BoxDef) → AllLackDatum T forest.now.forest root field)
        (λ datum. (T : List BoxDef) → AllHaveDatum T forest.now.forest root field datum) }
{
    datum_at(component(forest.forest(), root), field)
}

/// The forest with another datum in a data field of a root that has one rule. A canonical forest stays canonical. Err
/// is want of memory.
pub fn with_datum(alloc: Global, forest: &Sound, root: u32, field: u32, datum: Datum) -> Mem<Sound>
    requires root { root < length forest.now.forest.autos }
    requires top { HasOneTop (component_at forest.now.forest.autos root) }
    requires has { HasDatumField forest.now.forest root field }
    requires fits { DatumFits datum }
    ensures put { IfOk result (λ made. (T : List BoxDef) (old : Datum) → AllHaveDatum T forest.now.forest root field old
        → IsDatumPut T forest.now.forest made.forest root field old datum) }
    ensures face { IfOk result (λ made. made.face ≡ forest.now.face) }
    ensures plain { Every HasNoBoxes forest.now.forest.autos
        → IfOk result (λ made. Every HasNoBoxes made.forest.autos) }
    ensures canonical { IsCanonical forest.now.face forest.now.forest
        → IfOk result (λ made. IsCanonical made.face made.forest) }
{
    forest.known();
    let made = sound_dated(alloc, forest, root, field, datum)?;
    Ok(made)
}

fn sound_dated(alloc: Global, forest: &Sound, root: u32, field: u32, datum: Datum) -> Mem<Sound>
    requires root { root < length forest.now.forest.autos }
    requires top { HasOneTop (component_at forest.now.forest.autos root) }
    requires fits { DatumFits datum }
    ensures forest { IfOk result (λ made. made.forest ≡ dated_at forest.now.forest root field datum) }
    ensures face { IfOk result (λ made. made.face ≡ forest.now.face) }
{
    forest.known();
    let auto = dated(alloc, component(forest.forest(), root), field, datum)?;
    forest.with_component(alloc, root, auto)
}

/// The automaton with the datum in the one rule at its top, at a root state of its own. Err is want of memory.
fn dated(alloc: Global, auto: &Auto, field: u32, datum: Datum) -> Mem<Auto>
    requires { HasOneTop auto.now }
    ensures { IfOk result (λ made. made ≡ dated auto.now field datum) }
{
    auto.known();
    let states = room(auto, 1)?;
    let roots = List::filled(alloc, states_of(auto), 1)?;
    let mut rules = copied_rules(alloc, auto)?;
    rules.push(rule_with(alloc, rule_at_top(auto), states_of(auto), field, datum)?)?;
    Ok(Auto {
        states,
        roots,
        rules,
    })
}

fn copied_rules(alloc: Global, auto: &Auto) -> Mem<List<Rule>>
    ensures { IfOk result (λ made. made ≡ auto.now.rules) }
{
    auto.rules.copy(alloc)
}

/// The rule at this state, with the datum in its cell.
fn rule_with(alloc: Global, rule: &Rule, state: u32, field: u32, datum: Datum) -> Mem<Rule>
    ensures { IfOk result (λ made. made
        ≡ record { state = state; symbol = symbol_with field datum rule.now.symbol; children = rule.now.children }) }
{
    Ok(Rule {
        state,
        symbol: symbol_with(alloc, &rule.symbol, field, datum)?,
        children: rule.children.copy(alloc)?,
    })
}

/// The symbol with the datum in the data field of its cell. Err is want of memory.
fn symbol_with(alloc: Global, symbol: &Symbol, field: u32, datum: Datum) -> Mem<Symbol>
    ensures { IfOk result (λ made. made ≡ symbol_with field datum symbol.now) }
{
    match symbol {
        Symbol::Null => Ok(Symbol::Null),
        Symbol::Uninit => Ok(Symbol::Uninit),
        Symbol::Dangling => Ok(Symbol::Dangling),
        Symbol::Ref(root) => Ok(Symbol::Ref(*root)),
        Symbol::Cell {
            shape,
            datums,
            slots,
        } => {
            let mut datums = datums.copy(alloc)?;
            datums.set_within(field as usize, datum);
            let slots = slots.copy(alloc)?;
            Ok(Symbol::Cell {
                shape: *shape,
                datums,
                slots,
            })
        }
    }
}
