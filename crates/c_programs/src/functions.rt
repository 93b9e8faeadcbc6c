// Functions of the program.
ghost use Rattle.std.specs.Prelude.{◌≡◌, [], IfOk, OnOk};
ghost use Rattle.c_types.specs.Bodies.{body_declares};
ghost use Rattle.c_typing.specs.Globals.{params_of};
ghost use Rattle.c_typing.specs.Programs.{block_stmts, func_of, param_refs, result_ref};
ghost use Rattle.c_typing.specs.Scopes.{begun, opened, outside, past_block, past_head, past_result, result_of};

use crate::declares::declared_in;
use c_ast::{Block, Head};
use c_making::block_stmts;
use c_scopes::heads::{begin_result, declare_params};
use c_scopes::scopes::Scope;
use c_tables::functions::params_of;
use c_tables::tables::Tables;
use c_types::{Func, Stmt, VarRef};
use fore_base::list::{Copies, List};
use fore_base::memory::{Mem, beside};
use fore_base::text::Text;
use std::alloc::Global;

/// The variables that the head of a function declares.
#[derive(Drop)]
struct Signature {
    params: List<VarRef>,
    result: Option<VarRef>,
}

/// What the block of a function is, and the variables that it declares.
#[derive(Drop)]
struct Body {
    stmts: List<Stmt>,
    locals: List<VarRef>,
}

/// A function begins, and its result and parameters are declared.
fn declare_head(alloc: Global, tables: &Tables, scope: &mut Scope, head: &Head) -> Mem<Signature>
    requires { scope.old.blocks ≡ [] }
    ensures past { OnOk result (scope.new ≡ past_head tables.now head.now scope.old) }
    ensures params { IfOk result (λ s. s.params
        ≡ param_refs tables.now (params_of head.now.params) (opened (past_result tables.now head.now scope.old))) }
    ensures result { IfOk result (λ s. s.result
        ≡ result_ref (result_of tables.now head.now) (begun tables.now head.now scope.old)) }
{
    let result = begin_result(alloc, tables, scope, head)?;
    let params = declare_params(alloc, tables, scope, params_of(&head.params));
    let (result, params) = beside(result, params)?;
    Ok(Signature { params, result })
}

/// The statements of a block, with the variables that they declare.
fn with_locals(alloc: Global, stmts: List<Stmt>) -> Mem<Body>
    ensures stmts { IfOk result (λ body. body.stmts ≡ stmts) }
    ensures locals { IfOk result (λ body. body.locals ≡ body_declares stmts) }
{
    let locals = declared_in(alloc, stmts.as_slice());
    let (stmts, locals) = beside(stmts, locals)?;
    Ok(Body { stmts, locals })
}

/// What the block of a function is.
fn body_of(alloc: Global, tables: &Tables, scope: &mut Scope, body: &Block) -> Mem<Body>
    ensures past { OnOk result (scope.new ≡ past_block tables.now body.now scope.old) }
    ensures blocks { OnOk result (scope.new.blocks ≡ scope.old.blocks) }
    ensures stmts { IfOk result (λ made. made.stmts ≡ block_stmts tables.now body.now scope.old) }
    ensures locals { IfOk result (λ made. made.locals ≡ body_declares (block_stmts tables.now body.now scope.old)) }
{
    let stmts = block_stmts(alloc, tables, scope, body)?;
    with_locals(alloc, stmts)
}

/// A function of these parts.
fn made(alloc: Global, name: &Text, signature: Signature, body: Body) -> Mem<Func>
    ensures { IfOk result (λ func. func
        ≡ record {
          name = name.now;
          params = signature.params;
          locals = body.locals;
          result = signature.result;
          body = body.stmts;
        }) }
{
    let (signature, name) = beside(signature, name.copy(alloc))?;
    let Signature { params, result } = signature;
    let Body { stmts, locals } = body;
    Ok(Func {
        name,
        params,
        locals,
        result,
        body: stmts,
    })
}

/// The function of this head and body.
pub fn func_of(
    alloc: Global,
    tables: &Tables,
    scope: &mut Scope,
    head: &Head,
    body: &Block,
) -> Mem<Func>
    requires { scope.old.blocks ≡ [] }
    ensures past { OnOk result
        (scope.new ≡ outside (past_block tables.now body.now (past_head tables.now head.now scope.old))) }
    ensures func { IfOk result (λ func. func ≡ func_of tables.now head.now body.now scope.old) }
{
    let signature = declare_head(alloc, tables, scope, head)?;
    let body = body_of(alloc, tables, scope, body);
    let (signature, body) = beside(signature, body)?;
    let func = made(alloc, &head.name.text, signature, body)?;
    scope.leave();
    scope.move_to(None);
    Ok(func)
}
