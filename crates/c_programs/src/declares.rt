// The variables that the groups of statements declare.
ghost use Rattle.std.specs.Prelude.{◌≡◌, ◌++◌, map, IfOk, OnOk};
ghost use Rattle.c_types.specs.Bodies.{body_declares, stmt_declares};
ghost use Rattle.c_types.specs.declared.program.VarRef.TheVariants.{Ptr as PtrVar, Data as DatumVar};

use c_types::{Stmt, VarRef};
use fore_base::list::List;
use fore_base::memory::Mem;
use std::alloc::Global;

/// Adds the pointers of these numbers.
fn add_ptrs(ptrs: &[u32], found: &mut List<VarRef>) -> Mem<()>
    ensures { OnOk result (found.new ≡ found.old ++ map (λ x. PtrVar x) ptrs.now) }
{
    for ptr in ptrs {
        found.push(VarRef::Ptr(*ptr))?;
    }
    Ok(())
}

/// Adds the data of these numbers.
fn add_datums(datums: &[u32], found: &mut List<VarRef>) -> Mem<()>
    ensures { OnOk result (found.new ≡ found.old ++ map (λ x. DatumVar x) datums.now) }
{
    for datum in datums {
        found.push(VarRef::Data(*datum))?;
    }
    Ok(())
}

/// Adds what statements declare.
#[cycle(declares)]
fn add_body(stmts: &[Stmt], found: &mut List<VarRef>) -> Mem<()>
    ensures { OnOk result (found.new ≡ found.old ++ body_declares stmts.now) }
{
    for stmt in stmts {
        add_stmt(stmt, found)?;
    }
    Ok(())
}

/// Adds what a statement declares.
#[cycle(declares)]
#[tactic(auto, using(crate::proofs::DeclareLayers::declare_layers))]
fn add_stmt(stmt: &Stmt, found: &mut List<VarRef>) -> Mem<()>
    ensures { OnOk result (found.new ≡ found.old ++ stmt_declares stmt.now) }
{
    match stmt {
        Stmt::Do { .. } | Stmt::Call { .. } => Ok(()),
        Stmt::Branch { yes, no, .. } => {
            add_body(yes.as_slice(), found)?;
            add_body(no.as_slice(), found)
        }
        Stmt::While { body, .. } | Stmt::DoWhile { body, .. } => add_body(body.as_slice(), found),
        Stmt::For { next, body, .. } => {
            add_body(next.as_slice(), found)?;
            add_body(body.as_slice(), found)
        }
        Stmt::Group {
            body,
            ptrs,
            datums,
            ..
        } => {
            add_ptrs(ptrs.as_slice(), found)?;
            add_datums(datums.as_slice(), found)?;
            add_body(body.as_slice(), found)
        }
    }
}

/// What statements declare.
pub fn declared_in(alloc: Global, stmts: &[Stmt]) -> Mem<List<VarRef>>
    ensures { IfOk result (λ variables. variables ≡ body_declares stmts.now) }
{
    let mut found = List::new(alloc);
    add_body(stmts, &mut found)?;
    Ok(found)
}
