// A whole unit.
ghost use Rattle.std.specs.Prelude.{true, nat_lt, ◌≡◌, ◌⊎◌, Ok, Err, Some, None, IfOk, IfErr, OnOk};
ghost use Rattle.c_ast.specs.declared.items.Unit as whole;
ghost use Rattle.c_types.specs.Program.{Program, is_typed};
ghost use Rattle.c_typing.specs.Globals.{calls_of, globals_of, main_head};
ghost use Rattle.c_typing.specs.Programs.{program_in};
ghost use Rattle.c_typing.specs.ItemSites.{unit_sites};
ghost use Rattle.c_typing.specs.Sites.{Ends, Overflows};
ghost use Rattle.c_typing.specs.Typing.{IsFirstFault, TypedOf};
ghost use Rattle.c_typing.specs.Weights.{main_weight};
ghost use Rattle.c_typing.specs.declared.fault.TypeFault.{TypeFault as Fault};
ghost use Rattle.c_typing.specs.declared.fault.TypeFault.TheVariants.{Memory};
ghost use Rattle.c_typing.specs.declared.limits.TheConstants.{WEIGHT};
ghost use Rattle.c_check.specs.inner.Heavy.{heavy_at, or_fault};
ghost use Rattle.c_expressions.specs.Meeting.{met, noted};

use crate::items::all_items;
use c_ast::{Item, Unit};
use c_callees::{is_overweight, main_head};
use c_expressions::first::note_limit;
use c_expressions::noting::note_when;
use c_programs::program_in;
use c_tables::tables::Tables;
use c_types::Typed;
use c_typing::TypeFault;
use fore_base::memory::Mem;
use fore_base::place::Place;
use std::alloc::Global;

/// The program of a unit. The recursion is no deeper than the tree.
///
/// # Errors
///
/// The first fault of the unit, which is `Rule` or `Limit` at the earliest place where a rule is broken or a limit is
/// passed, on one place a rule before a limit, and then the lesser number; where there is none, `Limit` 9 at the name
/// of a `main` that weighs too much. `Memory` for want of memory.
pub fn check(alloc: Global, unit: &Unit) -> Result<Typed, TypeFault>
    ensures ok { IfOk result (TypedOf unit.now) }
    ensures err { IfErr result (λ e. (e ≡ Memory) ⊎ IsFirstFault unit.now e) }
    ensures types { (p : Program) → TypedOf unit.now p → (result ≡ Ok p) ⊎ (result ≡ Err Memory) }
    ensures finds { (e : Fault) → IsFirstFault unit.now e → (result ≡ Err e) ⊎ (result ≡ Err Memory) }
{
    answer(alloc, unit)
}

/// The end of the file, where `main` tells whether there is one.
#[tactic(auto, using(crate::proofs::ItemLemmas::sites))]
fn ends(tables: &Tables, main: bool, end: Place, found: &mut Option<TypeFault>)
    ensures { found.new ≡ noted tables.now found.old (Ends main end) }
{
    let _tables = tables;
    note_when(!main, 12, end, found);
}

/// The first token above the limit, if there is one.
#[tactic(auto, using(crate::proofs::ItemLemmas::sites))]
fn overflows(tables: &Tables, over: &Option<Place>, found: &mut Option<TypeFault>)
    ensures { found.new ≡ noted tables.now found.old (Overflows over.now) }
{
    let _tables = tables;
    match over {
        Some(at) => note_limit(found, 8, *at),
        None => {}
    }
}

/// All of a unit.
fn all_places(alloc: Global, tables: &Tables, unit: &Unit, found: &mut Option<TypeFault>) -> Mem<()>
    ensures { OnOk result (found.new ≡ met tables.now found.old (unit_sites tables.now unit.now)) }
{
    let main = all_items(alloc, tables, unit.items.as_slice(), found)?;
    ends(tables, main, unit.end, found);
    overflows(tables, &unit.over, found);
    Ok(())
}

/// That the first `main` weighs more than it may, if it does.
fn overweight(alloc: Global, tables: &Tables, items: &[Item]) -> Mem<Option<TypeFault>>
    requires { tables.now.calls ≡ calls_of items.now }
    ensures { IfOk result (λ fault. fault
        ≡ heavy_at (nat_lt WEIGHT (main_weight items.now)) (main_head items.now)) }
{
    let heavy = is_overweight(alloc, tables.graph(), items)?;
    match main_head(items) {
        Some(head) => {
            if heavy {
                let at = head.name.at;
                return Ok(Some(TypeFault::Limit { limit: 9, at }));
            }
            Ok(None)
        }
        None => Ok(None),
    }
}

/// The first fault, if there was one, or else that the first `main` weighs more than it may.
fn weighed(
    alloc: Global,
    tables: &Tables,
    items: &[Item],
    found: Option<TypeFault>,
) -> Mem<Option<TypeFault>>
    requires { tables.now.calls ≡ calls_of items.now }
    ensures { IfOk result (λ fault. fault
        ≡ or_fault found (heavy_at (nat_lt WEIGHT (main_weight items.now)) (main_head items.now))) }
{
    match found {
        Some(fault) => Ok(Some(fault)),
        None => overweight(alloc, tables, items),
    }
}

/// The first fault, if there was one, or else the program, which is made only then.
fn outcome(
    alloc: Global,
    tables: &Tables,
    items: &[Item],
    found: Option<TypeFault>,
) -> Result<Typed, TypeFault>
    requires { found ≡ None → is_typed (program_in tables.now items.now) ≡ true }
    ensures ok { IfOk result (λ typed. (found ≡ None) × (typed ≡ program_in tables.now items.now)) }
    ensures err { IfErr result (λ e. (e ≡ Memory) ⊎ (found ≡ Some e)) }
{
    match found {
        Some(fault) => Err(fault),
        None => {
            let typed = program_in(alloc, tables, items)?;
            Ok(typed)
        }
    }
}

fn answer(alloc: Global, unit: &Unit) -> Result<Typed, TypeFault>
    ensures ok { IfOk result (TypedOf unit.now) }
    ensures err { IfErr result (λ e. (e ≡ Memory) ⊎ IsFirstFault unit.now e) }
{
    let tables = Tables::of(alloc, unit.items.as_slice())?;
    answer_by(alloc, &tables, unit)
}

/// The answer by what the unit defines.
fn answer_by(alloc: Global, tables: &Tables, unit: &Unit) -> Result<Typed, TypeFault>
    requires { tables.now ≡ globals_of unit.now.items }
    ensures ok { IfOk result (TypedOf unit.now) }
    ensures err { IfErr result (λ e. (e ≡ Memory) ⊎ IsFirstFault unit.now e) }
{
    let mut found = None;
    all_places(alloc, tables, unit, &mut found)?;
    let items = unit.items.as_slice();
    let found = weighed(alloc, tables, items, found)?;
    outcome(alloc, tables, items, found)
}
