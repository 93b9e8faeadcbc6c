// Automata written as tables: for tests, examples and measurements.

ghost use Rattle.std.specs.Prelude.{◌≡◌, IfOk, SomeIff, map};
ghost use Rattle.ta_core.specs.Auto.{IsRanked};
ghost use Rattle.ta_core.specs.Tables.{cell, single, sign_symbol, line_rule, planned};

use crate::auto::{Auto, Rule};
use crate::symbol::{Slot, Symbol};
use fore_base::list::List;
use fore_base::memory::Mem;
use fore_base::store::Datum;
use std::alloc::Global;

/// A symbol in a table. Each cell is of struct 0 but where a number is given.
#[derive(Clone, Copy)]
pub enum Sign {
    Null,
    Uninit,
    Dangling,
    Ref(u32),
    /// A list cell: one pointer field.
    ListCell,
    /// A cell of a binary tree: two pointer fields.
    Fork,
    /// A cell of this struct with one datum and without slots.
    Datum(u32, Datum),
    /// A cell with two slots.
    Slots(Slot, Slot),
}

/// A rule in a table: its state, symbol and children.
#[derive(Clone, Copy)]
pub struct Line<'a>(pub u32, pub Sign, pub &'a [u32]);

/// An automaton in a table: the number of its states, its root states and its rules.
#[derive(Clone, Copy)]
pub struct Plan<'a>(pub u32, pub &'a [u32], pub &'a [Line<'a>]);

/// The automaton of the plan. None exactly where a state is not below the number of states, or a rule has more or fewer
/// children than its symbol.
///
/// # Errors
///
/// Want of memory.
pub fn automaton(alloc: Global, plan: Plan) -> Mem<Option<Auto>>
    ensures { IfOk result (λ made. SomeIff made (IsRanked (planned plan.entry)) (planned plan.entry)) }
{
    let Plan(states, roots, lines) = plan;
    let roots = List::from_vec(roots.to_vec(alloc)?);
    let rules = rules(alloc, lines)?;
    Ok(Auto::from_parts(states, roots, rules))
}

/// The rules of the lines.
///
/// # Errors
///
/// Want of memory.
pub fn rules(alloc: Global, lines: &[Line]) -> Mem<List<Rule>>
    ensures { IfOk result (λ made. made ≡ map line_rule lines.now) }
{
    let mut made = List::new(alloc);
    for line in lines {
        let rule = rule(alloc, *line)?;
        made.push(rule)?;
    }
    Ok(made)
}

/// The rule of the line.
///
/// # Errors
///
/// Want of memory.
pub fn rule(alloc: Global, line: Line) -> Mem<Rule>
    ensures { IfOk result (λ made. made ≡ line_rule line.entry) }
{
    let Line(state, sign, children) = line;
    Ok(Rule {
        state,
        symbol: symbol(alloc, sign)?,
        children: List::from_vec(children.to_vec(alloc)?),
    })
}

/// The symbol that the sign stands for.
///
/// # Errors
///
/// Want of memory.
pub fn symbol(alloc: Global, sign: Sign) -> Mem<Symbol>
    ensures { IfOk result (λ made. made ≡ sign_symbol sign) }
{
    match sign {
        Sign::Null => Ok(Symbol::Null),
        Sign::Uninit => Ok(Symbol::Uninit),
        Sign::Dangling => Ok(Symbol::Dangling),
        Sign::Ref(root) => Ok(Symbol::Ref(root)),
        Sign::ListCell => slot_cell(alloc, &[Slot::Field(0)]),
        Sign::Fork => slot_cell(alloc, &[Slot::Field(0), Slot::Field(1)]),
        Sign::Datum(shape, datum) => datum_cell(alloc, shape, datum),
        Sign::Slots(first, second) => slot_cell(alloc, &[first, second]),
    }
}

fn slot_cell(alloc: Global, slots: &[Slot]) -> Mem<Symbol>
    ensures { IfOk result (λ made. made ≡ cell slots.now) }
{
    Ok(Symbol::Cell {
        shape: 0,
        datums: List::new(alloc),
        slots: List::from_vec(slots.to_vec(alloc)?),
    })
}

fn datum_cell(alloc: Global, shape: u32, datum: Datum) -> Mem<Symbol>
    ensures { IfOk result (λ made. made ≡ single shape datum) }
{
    let mut datums = List::new(alloc);
    datums.push(datum)?;
    Ok(Symbol::Cell {
        shape,
        datums,
        slots: List::new(alloc),
    })
}
