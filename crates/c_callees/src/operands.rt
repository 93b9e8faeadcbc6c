// What operands, right sides and conditions call.
ghost use Rattle.std.specs.Prelude.{◌≡◌, map, OnOk};
ghost use Rattle.c_typing.specs.Callees.{maybe_callees, operand_callees, call_callees, rhs_callees, test_callees};
ghost use Rattle.c_typing.specs.Callees.{unary_callees, and_callees, cond_callees};
ghost use Rattle.c_typing.specs.Texts.{joined};
ghost use Rattle.c_callees.specs.inner.Calling.{called, called_one};

use c_ast::{And, Call, Cond, Operand, Rhs, Test, Unary};
use c_names::naming;
use fore_base::list::List;
use fore_base::memory::Mem;
use fore_base::names::Names;

/// A function of this name is called.
fn name_called(names: &Names, name: &[u8], found: &mut List<u32>) -> Mem<()>
    ensures { OnOk result (found.new ≡ called_one names.now found.old name.now) }
{
    match naming::find(names, name) {
        Some(number) => {
            found.push(number)?;
            Ok(())
        }
        None => Ok(()),
    }
}

/// What an operand calls.
#[cycle(operand)]
#[tactic(auto, using(c_typing::proofs::CalleeLayers::callee_layers, crate::proofs::CallingLemmas::calling))]
pub fn operand_calls(names: &Names, operand: &Operand, found: &mut List<u32>) -> Mem<()>
    ensures { OnOk result (found.new ≡ called names.now found.old (operand_callees operand.now)) }
{
    match operand {
        Operand::Call(call) => call_calls(names, call, found),
        Operand::Path(_)
        | Operand::Number(_)
        | Operand::Null { .. }
        | Operand::True { .. }
        | Operand::False { .. } => Ok(()),
    }
}

/// A call, and then what its operands call.
#[cycle(operand)]
#[tactic(auto, using(c_typing::proofs::CalleeLayers::callee_layers, crate::proofs::CallingLemmas::calling))]
pub fn call_calls(names: &Names, call: &Call, found: &mut List<u32>) -> Mem<()>
    ensures { OnOk result (found.new ≡ called names.now found.old (call_callees call.now)) }
{
    name_called(names, call.name.text.as_slice(), found)?;
    operands_calls(names, call.operands.as_slice(), found)?;
    Ok(())
}

#[cycle(operand)]
#[tactic(auto, using(crate::proofs::CallingLemmas::calling))]
fn operands_calls(names: &Names, operands: &[Operand], found: &mut List<u32>) -> Mem<()>
    ensures { OnOk result (found.new ≡ called names.now found.old (joined (map operand_callees operands.now))) }
{
    for operand in operands {
        operand_calls(names, operand, found)?;
    }
    Ok(())
}

/// What an operand calls that may be missing.
#[tactic(auto, using(crate::proofs::CallingLemmas::calling))]
pub fn maybe_operand_calls(
    names: &Names,
    operand: &Option<Operand>,
    found: &mut List<u32>,
) -> Mem<()>
    ensures { OnOk result (found.new ≡ called names.now found.old (maybe_callees operand_callees operand.now)) }
{
    match operand {
        Some(operand) => operand_calls(names, operand, found),
        None => Ok(()),
    }
}

/// What a right side calls.
#[tactic(auto, using(crate::proofs::CallingLemmas::calling))]
pub fn rhs_calls(names: &Names, rhs: &Rhs, found: &mut List<u32>) -> Mem<()>
    ensures { OnOk result (found.new ≡ called names.now found.old (rhs_callees rhs.now)) }
{
    match rhs {
        Rhs::Operand(operand) => operand_calls(names, operand, found),
        Rhs::Malloc { .. } => Ok(()),
    }
}

#[cycle(cond)]
#[tactic(auto, using(c_typing::proofs::CalleeLayers::callee_layers, crate::proofs::CallingLemmas::calling))]
fn test_calls(names: &Names, test: &Test, found: &mut List<u32>) -> Mem<()>
    ensures { OnOk result (found.new ≡ called names.now found.old (test_callees test.now)) }
{
    match test {
        Test::Compare { left, right, .. } => {
            operand_calls(names, left, found)?;
            operand_calls(names, right, found)?;
            Ok(())
        }
        Test::Unary(unary) => unary_calls(names, unary, found),
    }
}

#[cycle(cond)]
#[tactic(auto, using(c_typing::proofs::CalleeLayers::callee_layers, crate::proofs::CallingLemmas::calling))]
fn unary_calls(names: &Names, unary: &Unary, found: &mut List<u32>) -> Mem<()>
    ensures { OnOk result (found.new ≡ called names.now found.old (unary_callees unary.now)) }
{
    match unary {
        Unary::Not { unary, .. } => unary_calls(names, unary.get(), found),
        Unary::Bracket { cond, .. } => cond_calls(names, cond, found),
        Unary::Operand(operand) => operand_calls(names, operand, found),
    }
}

#[cycle(cond)]
#[tactic(auto, using(c_typing::proofs::CalleeLayers::callee_layers, crate::proofs::CallingLemmas::calling))]
fn and_calls(names: &Names, and: &And, found: &mut List<u32>) -> Mem<()>
    ensures { OnOk result (found.new ≡ called names.now found.old (and_callees and.now)) }
{
    tests_calls(names, and.tests.as_slice(), found)
}

#[cycle(cond)]
#[tactic(auto, using(crate::proofs::CallingLemmas::calling))]
fn tests_calls(names: &Names, tests: &[Test], found: &mut List<u32>) -> Mem<()>
    ensures { OnOk result (found.new ≡ called names.now found.old (joined (map test_callees tests.now))) }
{
    for test in tests {
        test_calls(names, test, found)?;
    }
    Ok(())
}

#[cycle(cond)]
#[tactic(auto, using(crate::proofs::CallingLemmas::calling))]
fn ands_calls(names: &Names, ands: &[And], found: &mut List<u32>) -> Mem<()>
    ensures { OnOk result (found.new ≡ called names.now found.old (joined (map and_callees ands.now))) }
{
    for and in ands {
        and_calls(names, and, found)?;
    }
    Ok(())
}

/// What a condition calls.
#[cycle(cond)]
#[tactic(auto, using(c_typing::proofs::CalleeLayers::callee_layers, crate::proofs::CallingLemmas::calling))]
pub fn cond_calls(names: &Names, cond: &Cond, found: &mut List<u32>) -> Mem<()>
    ensures { OnOk result (found.new ≡ called names.now found.old (cond_callees cond.now)) }
{
    ands_calls(names, cond.ands.as_slice(), found)
}

/// What a condition calls that may be missing.
#[tactic(auto, using(crate::proofs::CallingLemmas::calling))]
pub fn maybe_cond_calls(names: &Names, cond: &Option<Cond>, found: &mut List<u32>) -> Mem<()>
    ensures { OnOk result (found.new ≡ called names.now found.old (maybe_callees cond_callees cond.now)) }
{
    match cond {
        Some(cond) => cond_calls(names, cond, found),
        None => Ok(()),
    }
}
