// Laws of runs and steps: each is the contract of a function that does nothing.

ghost use Rattle.std.specs.Prelude.{◌≡◌, ◌≤◌, ◌-◌, ◌++◌, ◌∷◌, ℕ, true, false, List, length, map};
ghost use Rattle.std.specs.Prelude.{Option, Some, slice_get};
ghost use Rattle.c_types.specs.declared.program.Arg.{Arg};
ghost use Rattle.c_types.specs.declared.program.Dest.{Dest};
ghost use Rattle.c_types.specs.declared.program.Func.{Func};
ghost use Rattle.c_types.specs.declared.program.Stmt.{Stmt};
ghost use Rattle.c_types.specs.declared.program.Stmt.TheVariants.{Call};
ghost use Rattle.c_types.specs.Control.{Items, Enter, Exit, all_before, items_by, body_within, items_of, opened};
ghost use Rattle.c_types.specs.Control.{start_of, closed_after};
ghost use Rattle.c_types.specs.Steps.{Goes, Faults, turn_of};
ghost use Rattle.c_types.specs.Losses.{loses};
ghost use Rattle.c_types.specs.Runs.{run, empty_store};
ghost use Rattle.c_types.specs.Fits.{FitsProgram, Visited, ItemsFit};
ghost use Rattle.c_types.specs.Over.{IsOver, IsStarved};
ghost use Rattle.c_types.specs.declared.mode.MallocMode.{MallocMode};
ghost use Rattle.fore_base.specs.declared.fault.Fault.{Fault as Kind};
ghost use Rattle.fore_base.specs.declared.store.Store.{Store};
ghost use Rattle.fore_base.specs.declared.fault.Fault.TheVariants.{Leak};
ghost use Rattle.fore_base.specs.Heap.{IsProper, leaks};

use crate::outcome::Outcome;
use crate::program::Typed;

/// A run that has ended, met a fault or stopped for want of a choice stays so with more steps.
pub fn over_stays(program: &Typed)
    ensures { (mode : MallocMode) (choices : List ℕ) (fewer more : ℕ) → fewer ≤ more
        → IsOver (run program.now mode choices fewer)
        → run program.now mode choices more ≡ run program.now mode choices fewer }
{
    let _program = program;
}

/// The run of as many steps as the number of the faulty step meets the same fault.
pub fn fault_at_its_step(program: &Typed)
    ensures { (mode : MallocMode) (choices : List ℕ) (steps : ℕ) (kind : Kind) (line step : ℕ)
        → run program.now mode choices steps
        ≡ Outcome.Fault kind line step → (step ≤ steps)
        × (run program.now mode choices step ≡ Outcome.Fault kind line step) }
{
    let _program = program;
}

/// More choices than a run needs change nothing.
pub fn more_choices_are_ignored(program: &Typed)
    ensures { (mode : MallocMode) (choices more : List ℕ) (steps : ℕ)
        → (IsStarved (run program.now mode choices steps) → ⊥)
        → run program.now mode (choices ++ more) steps ≡ run program.now mode choices steps }
{
    let _program = program;
}

/// A run with too few choices is starved at the step that needs the missing one: with any more choices it gets there,
/// and this step reads the first of them, which no step before it does.
pub fn starved_where_needed(program: &Typed)
    ensures { (mode : MallocMode) (choices : List ℕ) (steps step : ℕ) → run program.now mode choices steps
        ≡ Outcome.Starved step → (1 ≤ step)
        × (step ≤ steps) × ((more : List ℕ) → run program.now mode (choices ++ more) (step - 1) ≡ Outcome.StillRunning)
        × ((more : List ℕ) (bad later : ℕ) → 2 ≤ bad → step ≤ later → run program.now mode (choices ++ bad ∷ more) later
        ≡ Outcome.BadChoice (length choices)) }
{
    let _program = program;
}

/// A run begins with a store that is proper and fits the program, and each step keeps both. So every store that a run
/// visits is proper and fits.
pub fn steps_keep_stores(program: &Typed)
    ensures begins { ItemsFit program.now (start_of program.now)
        × IsProper (empty_store (length program.now.vars) (length program.now.data_vars))
        × FitsProgram program.now (empty_store (length program.now.vars) (length program.now.data_vars)) }
    ensures keeps { (mode : MallocMode) (is js : Items) (s t : Store) (choice : ℕ) → ItemsFit program.now is
        → IsProper s
        → FitsProgram program.now s
        → turn_of program.now.shapes.structs mode (opened is) s choice ≡ Goes js t → ItemsFit program.now js
        × IsProper t
        × FitsProgram program.now t }
    ensures visited { (mode : MallocMode) (is : Items) (s : Store) → Visited program.now mode is s → IsProper s
        × FitsProgram program.now s }
{
    let _body = &program.body;
}

/// The items of a call are its Enter, those of the statements of its function's body, and its Exit: no function leads
/// to itself by calls, so to follow calls deeper than there are functions changes nothing. With a `break` or `continue`
/// before a call no variable dies of what it would close.
pub fn calls_end(program: &Typed)
    ensures deeper { (depth : ℕ) (s : Stmt) (r : Items) → length program.now.funcs ≤ depth
        → items_by program.now.funcs (body_within program.now.funcs depth) s r ≡ items_of program.now.funcs s r }
    ensures called { (f : ℕ) (g : Func) (args : List Arg) (target : Option Dest) (line : ℕ) (r : Items)
        → slice_get program.now.funcs f ≡ Some g
        → items_of program.now.funcs (Call f args target line) r
        ≡ Enter g.params args line
        (all_before (map (items_of program.now.funcs) g.body) (Exit g.result g.params target line r)) }
    ensures hides { (own : List ℕ → List ℕ → List ℕ) (f : ℕ) (args : List Arg) (target : Option Dest) (line : ℕ)
        (r : Items) → closed_after own 0 (items_of program.now.funcs (Call f args target line) r)
        ≡ closed_after own 0 r }
{
    let _body = &program.body;
}

/// A step that takes no reference to a cell away (no variable or field that held a cell is overwritten or dies, no cell
/// is freed, and none is made) leaks exactly if the store had leaked before it.
pub fn leaks_by_losses_alone(program: &Typed)
    ensures kept { (mode : MallocMode) (is : Items) (s : Store) (choice : ℕ) → loses (opened is) s ≡ false → leaks s
        ≡ false
        → turn_of program.now.shapes.structs mode (opened is) s choice ≡ Faults Leak → ⊥ }
    ensures stays { (mode : MallocMode) (is js : Items) (s t : Store) (choice : ℕ) → loses (opened is) s ≡ false
        → leaks s ≡ true
        → turn_of program.now.shapes.structs mode (opened is) s choice ≡ Goes js t → ⊥ }
{
    let _body = &program.body;
}
