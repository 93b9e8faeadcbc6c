//! What the steps of a call do to the store: arguments and results are given over, and variables die. They take no
//! memory.

ghost use Rattle.std.specs.Prelude.{◌≡◌, [], ◌∷◌, MatchResult};
ghost use Rattle.c_types.specs.Control.{with_result};
ghost use Rattle.c_types.specs.Steps.{give, enter, give_back, without, leave, hand, hand_over, exit};
ghost use Rattle.c_heap.specs.Sizes.{IsNoLarger};

use crate::data::{read_data_op, read_op, write_data};
use crate::paths::write;
use c_heap::heap::Heap;
use c_types::program::{Arg, DataOp, Dest, Func, PtrOp, VarRef};
use fore_base::fault::Fault;
use fore_base::store::{Datum, Value};

/// A call begins: each parameter is given the value of its argument, from the left.
pub fn enter(heap: &mut Heap, params: &[VarRef], args: &[Arg]) -> Result<(), Fault>
    ensures done { MatchResult result (λ _. enter heap.old params.now args.now ≡ Ok heap.new)
        (λ fault. enter heap.old params.now args.now ≡ Err fault) }
    ensures keeps { IsNoLarger heap.old heap.new }
{
    let (Some((param, params)), Some((arg, args))) = (params.split_first(), args.split_first())
    else {
        return Ok(());
    };
    give(heap, param, arg)?;
    enter(heap, params, args)
}

/// A function is left: its result is given what is returned, and then its local variables die.
pub fn leave(heap: &mut Heap, func: &Func, value: &Option<Arg>) -> Result<(), Fault>
    ensures done { MatchResult result
        (λ _. leave heap.old func.now.result func.now.locals value.now ≡ Ok heap.new)
        (λ fault. leave heap.old func.now.result func.now.locals value.now ≡ Err fault) }
    ensures keeps { IsNoLarger heap.old heap.new }
{
    give_back(heap, &func.result, value)?;
    end_vars(heap, func.locals.as_slice());
    Ok(())
}

/// A call ends: its target is given the result, and then the result and the parameters die.
pub fn exit(heap: &mut Heap, func: &Func, to: &Option<Dest>) -> Result<(), Fault>
    ensures done { MatchResult result (λ _. exit heap.old func.now.result func.now.params to.now ≡ Ok heap.new)
        (λ fault. exit heap.old func.now.result func.now.params to.now ≡ Err fault) }
    ensures keeps { IsNoLarger heap.old heap.new }
{
    hand_over(heap, &func.result, to)?;
    end_call(heap, &func.result, func.params.as_slice());
    Ok(())
}

/// Gives a variable the value of an operand of its own kind.
fn give(heap: &mut Heap, to: &VarRef, from: &Arg) -> Result<(), Fault>
    ensures done { MatchResult result (λ _. give heap.old to.now from.now ≡ Ok heap.new)
        (λ fault. give heap.old to.now from.now ≡ Err fault) }
    ensures keeps { IsNoLarger heap.old heap.new }
{
    match (to, from) {
        (VarRef::Ptr(var), Arg::Ptr(operand)) => give_value(heap, *var, operand),
        (VarRef::Data(var), Arg::Data(operand)) => give_datum(heap, *var, operand),
        (VarRef::Ptr(_), Arg::Data(_)) | (VarRef::Data(_), Arg::Ptr(_)) => Ok(()),
    }
}

fn give_value(heap: &mut Heap, var: u32, operand: &PtrOp) -> Result<(), Fault>
    ensures done { MatchResult result (λ _. give heap.old (VarRef.Ptr var) (Arg.Ptr operand.now) ≡ Ok heap.new)
        (λ fault. give heap.old (VarRef.Ptr var) (Arg.Ptr operand.now) ≡ Err fault) }
    ensures keeps { IsNoLarger heap.old heap.new }
{
    let value = read_op(heap, operand)?;
    heap.set_var(var, value);
    Ok(())
}

fn give_datum(heap: &mut Heap, var: u32, operand: &DataOp) -> Result<(), Fault>
    ensures done { MatchResult result (λ _. give heap.old (VarRef.Data var) (Arg.Data operand.now) ≡ Ok heap.new)
        (λ fault. give heap.old (VarRef.Data var) (Arg.Data operand.now) ≡ Err fault) }
    ensures keeps { IsNoLarger heap.old heap.new }
{
    let datum = read_data_op(heap, operand)?;
    heap.set_datum(var, datum);
    Ok(())
}

/// Gives the result of a function what is returned.
fn give_back(heap: &mut Heap, to: &Option<VarRef>, value: &Option<Arg>) -> Result<(), Fault>
    ensures done { MatchResult result (λ _. give_back heap.old to.now value.now ≡ Ok heap.new)
        (λ fault. give_back heap.old to.now value.now ≡ Err fault) }
    ensures keeps { IsNoLarger heap.old heap.new }
{
    match (to, value) {
        (Some(var), Some(operand)) => give(heap, var, operand),
        (None, _) | (Some(_), None) => Ok(()),
    }
}

/// Assigns what a variable holds to what is of its own kind.
fn hand(heap: &mut Heap, from: &VarRef, to: &Dest) -> Result<(), Fault>
    ensures done { MatchResult result (λ _. hand heap.old from.now to.now ≡ Ok heap.new)
        (λ fault. hand heap.old from.now to.now ≡ Err fault) }
    ensures keeps { IsNoLarger heap.old heap.new }
{
    match (from, to) {
        (VarRef::Ptr(var), Dest::Ptr(path)) => {
            let value = heap.var(*var);
            write(heap, path, value)
        }
        (VarRef::Data(var), Dest::Data(path)) => {
            let datum = heap.datum(*var);
            write_data(heap, path, datum)
        }
        (VarRef::Ptr(_), Dest::Data(_)) | (VarRef::Data(_), Dest::Ptr(_)) => Ok(()),
    }
}

/// Assigns the result of a function to the target of the call, if it has one.
fn hand_over(heap: &mut Heap, from: &Option<VarRef>, to: &Option<Dest>) -> Result<(), Fault>
    ensures done { MatchResult result (λ _. hand_over heap.old from.now to.now ≡ Ok heap.new)
        (λ fault. hand_over heap.old from.now to.now ≡ Err fault) }
    ensures keeps { IsNoLarger heap.old heap.new }
{
    match (from, to) {
        (Some(var), Some(target)) => hand(heap, var, target),
        (None, _) | (Some(_), None) => Ok(()),
    }
}

/// Lets the result, if there is one, and the parameters of a function die.
#[tactic(auto, using(crate::proofs::Dying::without_first))]
fn end_call(heap: &mut Heap, held: &Option<VarRef>, params: &[VarRef])
    ensures left { heap.new ≡ without (with_result held.now params.now) heap.old }
    ensures keeps { IsNoLarger heap.old heap.new }
{
    match held {
        Some(var) => {
            end_var(heap, var);
            end_vars(heap, params)
        }
        None => end_vars(heap, params),
    }
}

/// Lets these variables die.
#[tactic(auto, using(crate::proofs::Dying::without_first))]
fn end_vars(heap: &mut Heap, vars: &[VarRef])
    ensures left { heap.new ≡ without vars.now heap.old }
    ensures keeps { IsNoLarger heap.old heap.new }
{
    if let Some((var, others)) = vars.split_first() {
        end_var(heap, var);
        end_vars(heap, others)
    }
}

fn end_var(heap: &mut Heap, var: &VarRef)
    ensures left { heap.new ≡ without (var.now ∷ []) heap.old }
    ensures keeps { IsNoLarger heap.old heap.new }
{
    match var {
        VarRef::Ptr(var) => heap.set_var(*var, Value::Uninit),
        VarRef::Data(var) => heap.set_datum(*var, Datum::Undefined),
    }
}
