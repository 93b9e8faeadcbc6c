// Conditions: what they break, and the formulas that they are.
ghost use Rattle.std.specs.Prelude.{◌≡◌, ◌∷◌, [], map, IfOk, OnOk};
ghost use Rattle.c_ast.specs.declared.operands.Operand.{Operand};
ghost use Rattle.c_typing.specs.Programs.{ptr_op_of, data_op_of, compares_pointers, comparison, truth, all_of, any_of};
ghost use Rattle.c_typing.specs.Programs.{test_of, unary_of, and_of, cond_of, maybe_cond};
ghost use Rattle.c_typing.specs.Sites.{compare_sites, test_sites, unary_sites, and_sites, cond_sites};
ghost use Rattle.c_typing.specs.Texts.{joined};
ghost use Rattle.c_expressions.specs.Meeting.{met};

use crate::meanings::{meaning_of_operand, place_of_operand};
use crate::operands::{operand_faults, wanted_faults};
use crate::wants::{is_pointer, want_of_left};
use c_ast::{And, Cond as Named, Operand, Test, Unary};
use c_scopes::scopes::Scope;
use c_tables::tables::Tables;
use c_types::{Atom, Cond, DataOp, PtrOp};
use c_typing::{Meaning, Spot, TypeFault};
use fore_base::boxed::Boxed;
use fore_base::list::List;
use fore_base::memory::{Mem, beside};
use std::alloc::Global;

/// What a comparison breaks.
#[tactic(auto, using(crate::proofs::MeetingLemmas::meeting))]
fn compare_faults(
    alloc: Global,
    tables: &Tables,
    scope: &Scope,
    left: &Operand,
    right: &Operand,
    found: &mut Option<TypeFault>,
) -> Mem<()>
    ensures { OnOk result
        (found.new ≡ met tables.now found.old
        (compare_sites tables.now scope.now left.now right.now)) }
{
    operand_faults(alloc, tables, scope, Spot::Elsewhere, left, found)?;
    let meaning = meaning_of_operand(alloc, tables, scope, left)?;
    let want = want_of_left(&meaning);
    wanted_faults(alloc, tables, scope, Spot::Elsewhere, want, right, found)
}

#[cycle(faults)]
#[tactic(auto, using(c_typing::proofs::ConditionLayers::condition_layers))]
fn test_faults(
    alloc: Global,
    tables: &Tables,
    scope: &Scope,
    test: &Test,
    found: &mut Option<TypeFault>,
) -> Mem<()>
    ensures { OnOk result (found.new ≡ met tables.now found.old (test_sites tables.now scope.now test.now)) }
{
    match test {
        Test::Compare { left, right, .. } => compare_faults(
            alloc, tables, scope, left, right, found,
        ),
        Test::Unary(unary) => unary_faults(alloc, tables, scope, unary, found),
    }
}

#[cycle(faults)]
#[tactic(auto, using(c_typing::proofs::ConditionLayers::condition_layers))]
fn unary_faults(
    alloc: Global,
    tables: &Tables,
    scope: &Scope,
    unary: &Unary,
    found: &mut Option<TypeFault>,
) -> Mem<()>
    ensures { OnOk result (found.new ≡ met tables.now found.old (unary_sites tables.now scope.now unary.now)) }
{
    match unary {
        Unary::Not { unary, .. } => unary_faults(alloc, tables, scope, unary.get(), found),
        Unary::Bracket { cond, .. } => cond_faults(alloc, tables, scope, cond, found),
        Unary::Operand(operand) => operand_faults(
            alloc,
            tables,
            scope,
            Spot::Condition,
            operand,
            found,
        ),
    }
}

#[cycle(faults)]
#[tactic(auto, using(c_typing::proofs::ConditionLayers::condition_layers))]
fn and_faults(
    alloc: Global,
    tables: &Tables,
    scope: &Scope,
    and: &And,
    found: &mut Option<TypeFault>,
) -> Mem<()>
    ensures { OnOk result (found.new ≡ met tables.now found.old (and_sites tables.now scope.now and.now)) }
{
    tests_faults(alloc, tables, scope, and.tests.as_slice(), found)
}

#[cycle(faults)]
fn tests_faults(
    alloc: Global,
    tables: &Tables,
    scope: &Scope,
    tests: &[Test],
    found: &mut Option<TypeFault>,
) -> Mem<()>
    ensures { OnOk result
        (found.new ≡ met tables.now found.old
        (joined (map (test_sites tables.now scope.now) tests.now))) }
{
    for test in tests {
        test_faults(alloc, tables, scope, test, found)?;
    }
    Ok(())
}

#[cycle(faults)]
fn ands_faults(
    alloc: Global,
    tables: &Tables,
    scope: &Scope,
    ands: &[And],
    found: &mut Option<TypeFault>,
) -> Mem<()>
    ensures { OnOk result
        (found.new ≡ met tables.now found.old
        (joined (map (and_sites tables.now scope.now) ands.now))) }
{
    for and in ands {
        and_faults(alloc, tables, scope, and, found)?;
    }
    Ok(())
}

/// What a condition breaks.
#[cycle(faults)]
#[tactic(auto, using(c_typing::proofs::ConditionLayers::condition_layers))]
pub fn cond_faults(
    alloc: Global,
    tables: &Tables,
    scope: &Scope,
    cond: &Named,
    found: &mut Option<TypeFault>,
) -> Mem<()>
    ensures { OnOk result (found.new ≡ met tables.now found.old (cond_sites tables.now scope.now cond.now)) }
{
    ands_faults(alloc, tables, scope, cond.ands.as_slice(), found)
}

/// A pointer in a comparison, or that is given.
pub fn ptr_op_of(meaning: Meaning) -> PtrOp
    ensures { result ≡ ptr_op_of meaning }
{
    match meaning {
        Meaning::Pointer { path, .. } => PtrOp::Path(path),
        Meaning::Datum(_)
        | Meaning::Known(_)
        | Meaning::Zero
        | Meaning::Null
        | Meaning::Call
        | Meaning::Broken => PtrOp::Null,
    }
}

/// A datum in a comparison, or that is given.
pub fn data_op_of(meaning: Meaning) -> DataOp
    ensures { result ≡ data_op_of meaning }
{
    match meaning {
        Meaning::Datum(path) => DataOp::Path(path),
        Meaning::Known(number) => DataOp::Known(number),
        Meaning::Pointer { .. } | Meaning::Zero | Meaning::Null | Meaning::Call | Meaning::Broken =>
            DataOp::Known(0),
    }
}

/// Whether a comparison of these is one of pointers.
fn compares_pointers(left: &Meaning, right: &Meaning) -> bool
    ensures { result ≡ compares_pointers left.now right.now }
{
    match left {
        Meaning::Pointer { .. } | Meaning::Null => true,
        Meaning::Zero => is_pointer(right),
        Meaning::Datum(_) | Meaning::Known(_) | Meaning::Call | Meaning::Broken => false,
    }
}

fn comparison(equal: bool, left: Meaning, right: Meaning) -> Atom
    ensures { result ≡ comparison equal left right }
{
    if compares_pointers(&left, &right) {
        Atom::Ptr {
            left: ptr_op_of(left),
            right: ptr_op_of(right),
            equal,
        }
    } else {
        Atom::Data {
            left: data_op_of(left),
            right: data_op_of(right),
            equal,
        }
    }
}

/// What stands alone as a condition.
fn truth(meaning: Meaning) -> Atom
    ensures { result ≡ truth meaning }
{
    match meaning {
        Meaning::Pointer { path, .. } => Atom::Ptr {
            left: PtrOp::Path(path),
            right: PtrOp::Null,
            equal: false,
        },
        Meaning::Datum(path) => Atom::Data {
            left: DataOp::Path(path),
            right: DataOp::Known(0),
            equal: false,
        },
        Meaning::Known(number) => Atom::Known(number != 0),
        Meaning::Zero | Meaning::Null | Meaning::Broken => Atom::Known(false),
        Meaning::Call => Atom::Choice,
    }
}

/// `&&` of these; of none it is true.
fn all_of(conds: List<Cond>) -> Cond
    ensures { result ≡ all_of conds }
{
    if conds.is_empty() {
        let atom = Atom::Known(true);
        return Cond::Atom { atom, line: 0 };
    }
    Cond::All(conds)
}

/// `||` of these; of none it is false.
fn any_of(conds: List<Cond>) -> Cond
    ensures { result ≡ any_of conds }
{
    if conds.is_empty() {
        let atom = Atom::Known(false);
        return Cond::Atom { atom, line: 0 };
    }
    Cond::Any(conds)
}

#[cycle(made)]
#[tactic(auto, using(c_typing::proofs::ConditionLayers::condition_layers))]
fn test_of(alloc: Global, tables: &Tables, scope: &Scope, test: &Test) -> Mem<Cond>
    ensures { IfOk result (λ made. made ≡ test_of tables.now scope.now test.now) }
{
    match test {
        Test::Compare { left, equal, right } => {
            let line = place_of_operand(left).line;
            let left = meaning_of_operand(alloc, tables, scope, left)?;
            let right = meaning_of_operand(alloc, tables, scope, right);
            let (left, right) = beside(left, right)?;
            let atom = comparison(*equal, left, right);
            Ok(Cond::Atom { atom, line })
        }
        Test::Unary(unary) => unary_of(alloc, tables, scope, unary),
    }
}

#[cycle(made)]
#[tactic(auto, using(c_typing::proofs::ConditionLayers::condition_layers))]
fn unary_of(alloc: Global, tables: &Tables, scope: &Scope, unary: &Unary) -> Mem<Cond>
    ensures { IfOk result (λ made. made ≡ unary_of tables.now scope.now unary.now) }
{
    match unary {
        Unary::Not { unary, .. } => {
            let inner = unary_of(alloc, tables, scope, unary.get())?;
            let inner = Boxed::new(alloc, inner)?;
            Ok(Cond::Not(inner))
        }
        Unary::Bracket { cond, .. } => cond_of(alloc, tables, scope, cond),
        Unary::Operand(operand) => {
            let meaning = meaning_of_operand(alloc, tables, scope, operand)?;
            Ok(Cond::Atom {
                atom: truth(meaning),
                line: place_of_operand(operand).line,
            })
        }
    }
}

#[cycle(made)]
#[tactic(auto, using(c_typing::proofs::ConditionLayers::condition_layers))]
fn and_of(alloc: Global, tables: &Tables, scope: &Scope, and: &And) -> Mem<Cond>
    ensures { IfOk result (λ made. made ≡ and_of tables.now scope.now and.now) }
{
    let tests = tests_of(alloc, tables, scope, and.tests.as_slice())?;
    Ok(all_of(tests))
}

#[cycle(made)]
fn tests_of(alloc: Global, tables: &Tables, scope: &Scope, tests: &[Test]) -> Mem<List<Cond>>
    ensures { IfOk result (λ made. made ≡ map (test_of tables.now scope.now) tests.now) }
{
    let mut made = List::new(alloc);
    for test in tests {
        let next = test_of(alloc, tables, scope, test)?;
        made.push(next)?;
    }
    Ok(made)
}

#[cycle(made)]
fn ands_of(alloc: Global, tables: &Tables, scope: &Scope, ands: &[And]) -> Mem<List<Cond>>
    ensures { IfOk result (λ made. made ≡ map (and_of tables.now scope.now) ands.now) }
{
    let mut made = List::new(alloc);
    for and in ands {
        let next = and_of(alloc, tables, scope, and)?;
        made.push(next)?;
    }
    Ok(made)
}

/// The formula that a condition is.
#[cycle(made)]
#[tactic(auto, using(c_typing::proofs::ConditionLayers::condition_layers))]
pub fn cond_of(alloc: Global, tables: &Tables, scope: &Scope, cond: &Named) -> Mem<Cond>
    ensures { IfOk result (λ made. made ≡ cond_of tables.now scope.now cond.now) }
{
    let ands = ands_of(alloc, tables, scope, cond.ands.as_slice())?;
    Ok(any_of(ands))
}

/// The formula of a condition that may be missing, and is true then.
pub fn maybe_cond(
    alloc: Global,
    tables: &Tables,
    scope: &Scope,
    line: u32,
    cond: &Option<Named>,
) -> Mem<Cond>
    ensures { IfOk result (λ made. made ≡ maybe_cond tables.now scope.now line cond.now) }
{
    match cond {
        None => Ok(Cond::Atom {
            atom: Atom::Known(true),
            line,
        }),
        Some(cond) => cond_of(alloc, tables, scope, cond),
    }
}
