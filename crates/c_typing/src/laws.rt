// What holds of names, types and limits: each law is the contract of a function that does nothing.

ghost use Rattle.std.specs.Prelude.{◌≡◌, ◌⊎◌, ◌&&◌, true, not, List, []};
ghost use Rattle.std.specs.List.{list_all};
ghost use Rattle.c_ast.specs.declared.items.Unit as whole;
ghost use Rattle.c_ast.specs.declared.statements.Block.{Block};
ghost use Rattle.c_types.specs.Bodies.{all_different, body_declares};
ghost use Rattle.c_types.specs.Program.{Program, is_typed};
ghost use Rattle.c_typing.specs.Globals.{Globals};
ghost use Rattle.c_typing.specs.Programs.{block_stmts, program_of};
ghost use Rattle.c_typing.specs.Scopes.{Scope, is_declared, past_block};
ghost use Rattle.c_typing.specs.Typing.{breaches, Breaks, IsFirstFault, TypedOf};
ghost use Rattle.c_typing.specs.declared.fault.TypeFault.{TypeFault as Broken};

/// A file has at most one program, and none where it breaks a rule.
pub fn programs_are_unique()
    ensures unique { (u : whole.Unit) (p q : Program) → TypedOf u p → TypedOf u q → p ≡ q }
    ensures unbroken { (u : whole.Unit) (p : Program) (e : Broken) → TypedOf u p → Breaks u e → ⊥ }
{}

/// A file that breaks a rule has exactly one first fault.
pub fn first_faults_are_unique()
    ensures unique { (u : whole.Unit) (d e : Broken) → IsFirstFault u d → IsFirstFault u e → d ≡ e }
    ensures there { (u : whole.Unit) → (breaches u ≡ []) ⊎ ((e : Broken) × IsFirstFault u e) }
{}

/// The variables that a body declares are all different, and were not declared before it.
pub fn declared_variables_are_new()
    ensures different { (g : Globals) (b : Block) (scope : Scope)
        → all_different (body_declares (block_stmts g b scope)) ≡ true }
    ensures new { (g : Globals) (b : Block) (scope : Scope)
        → list_all (λ v. not (is_declared scope v) && is_declared (past_block g b scope) v)
        (body_declares (block_stmts g b scope)) ≡ true }
{}

/// The program of a file that breaks no rule is well typed: it keeps what a `Typed` keeps.
pub fn unbroken_files_are_typed()
    ensures { (u : whole.Unit) → breaches u ≡ [] → is_typed (program_of u) ≡ true }
{}
