// How deep a tree is. The recursion goes no deeper than the tree: what the depth does not count is gone through by
// loops.
ghost use Rattle.std.specs.Prelude.{◌≡◌, ◌<◌, ◌^◌, max, min, suc, map};
ghost use Rattle.c_ast.specs.Depths.{deepest, depth_of_option, depth_of_argument, depth_of_call, depth_of_operand};
ghost use Rattle.c_ast.specs.Depths.{depth_of_rhs, depth_of_simple, depth_of_test, depth_of_unary, depth_of_and};
ghost use Rattle.c_ast.specs.Depths.{depth_of_cond, depth_of_declarator, depth_of_declare, depth_of_first};
ghost use Rattle.c_ast.specs.Depths.{depth_of_part, depth_of_stmt, depth_of_block, depth_of_item, depth_of_items};
ghost use Rattle.c_ast.specs.Depths.{depth_of_unit};

use crate::conditions::{And, Cond, Test, Unary};
use crate::items::{Item, Unit};
use crate::operands::{Call, Operand};
use crate::simples::{Rhs, Simple};
use crate::statements::{Block, Declarator, Declare, First, Part, Stmt};
use fore_base::boxed::Boxed;

/// The greater of two numbers.
fn greater(left: u32, right: u32) -> u32
    ensures { result ≡ max left right }
{
    if left < right { right } else { left }
}

/// One level more; the greatest number stays.
fn inside(depth: u32) -> u32
    ensures { result ≡ min (suc depth) 4294967295 }
{
    depth.saturating_add(1)
}

#[cycle(operand)]
#[tactic(auto, using(crate::proofs::DepthLemmas::layers))]
fn argument_depth(operand: &Operand) -> u32
    ensures { result ≡ min (depth_of_argument operand.now) 4294967295 }
{
    match operand {
        Operand::Call(call) => inside(call_depth(call)),
        _ => 0,
    }
}

#[cycle(operand)]
#[tactic(auto, using(crate::proofs::DepthLemmas::layers))]
fn call_depth(call: &Call) -> u32
    ensures { result ≡ min (depth_of_call call.now) 4294967295 }
{
    arguments_depth(call.operands.as_slice())
}

#[cycle(operand)]
#[tactic(auto, using(crate::proofs::DepthLemmas::layers))]
fn arguments_depth(operands: &[Operand]) -> u32
    ensures { result ≡ min (deepest (map depth_of_argument operands.now)) 4294967295 }
{
    let mut most = 0;
    for operand in operands {
        most = greater(most, argument_depth(operand));
    }
    most
}

#[tactic(auto, using(crate::proofs::DepthLemmas::layers))]
fn operand_depth(operand: &Operand) -> u32
    ensures { result ≡ min (depth_of_operand operand.now) 4294967295 }
{
    match operand {
        Operand::Call(call) => call_depth(call),
        _ => 0,
    }
}

fn rhs_depth(rhs: &Rhs) -> u32
    ensures { result ≡ min (depth_of_rhs rhs.now) 4294967295 }
{
    match rhs {
        Rhs::Operand(operand) => operand_depth(operand),
        Rhs::Malloc { .. } => 0,
    }
}

fn simple_depth(simple: &Simple) -> u32
    ensures { result ≡ min (depth_of_simple simple.now) 4294967295 }
{
    match simple {
        Simple::Assign { from, .. } => rhs_depth(from),
        Simple::Call(call) => call_depth(call),
        Simple::Free { .. } => 0,
    }
}

#[cycle(cond)]
#[tactic(auto, using(crate::proofs::DepthLemmas::layers))]
fn test_depth(test: &Test) -> u32
    ensures { result ≡ min (depth_of_test test.now) 4294967295 }
{
    match test {
        Test::Compare { left, right, .. } => greater(operand_depth(left), operand_depth(right)),
        Test::Unary(unary) => unary_depth(unary),
    }
}

#[cycle(cond)]
#[tactic(auto, using(crate::proofs::DepthLemmas::layers))]
fn unary_depth(unary: &Unary) -> u32
    ensures { result ≡ min (depth_of_unary unary.now) 4294967295 }
{
    match unary {
        Unary::Not { unary, .. } => inside(unary_depth(unary.get())),
        Unary::Bracket { cond, .. } => inside(cond_depth(cond)),
        Unary::Operand(operand) => operand_depth(operand),
    }
}

#[cycle(cond)]
#[tactic(auto, using(crate::proofs::DepthLemmas::layers))]
fn and_depth(and: &And) -> u32
    ensures { result ≡ min (depth_of_and and.now) 4294967295 }
{
    tests_depth(and.tests.as_slice())
}

#[cycle(cond)]
#[tactic(auto, using(crate::proofs::DepthLemmas::layers))]
fn tests_depth(tests: &[Test]) -> u32
    ensures { result ≡ min (deepest (map depth_of_test tests.now)) 4294967295 }
{
    let mut most = 0;
    for test in tests {
        most = greater(most, test_depth(test));
    }
    most
}

#[cycle(cond)]
#[tactic(auto, using(crate::proofs::DepthLemmas::layers))]
fn cond_depth(cond: &Cond) -> u32
    ensures { result ≡ min (depth_of_cond cond.now) 4294967295 }
{
    ands_depth(cond.ands.as_slice())
}

#[cycle(cond)]
#[tactic(auto, using(crate::proofs::DepthLemmas::layers))]
fn ands_depth(ands: &[And]) -> u32
    ensures { result ≡ min (deepest (map depth_of_and ands.now)) 4294967295 }
{
    let mut most = 0;
    for and in ands {
        most = greater(most, and_depth(and));
    }
    most
}

fn maybe_rhs_depth(rhs: &Option<Rhs>) -> u32
    ensures { result ≡ min (depth_of_option depth_of_rhs rhs.now) 4294967295 }
{
    match rhs {
        Some(rhs) => rhs_depth(rhs),
        None => 0,
    }
}

fn declarators_depth(vars: &[Declarator]) -> u32
    ensures { result ≡ min (deepest (map depth_of_declarator vars.now)) 4294967295 }
{
    let mut most = 0;
    for var in vars {
        most = greater(most, maybe_rhs_depth(&var.from));
    }
    most
}

fn declare_depth(declare: &Declare) -> u32
    ensures { result ≡ min (depth_of_declare declare.now) 4294967295 }
{
    match declare {
        Declare::Pointers { vars, .. } => declarators_depth(vars.as_slice()),
        Declare::Datums { vars, .. } => declarators_depth(vars.as_slice()),
    }
}

fn first_depth(first: &First) -> u32
    ensures { result ≡ min (depth_of_first first.now) 4294967295 }
{
    match first {
        First::Declare(declare) => declare_depth(declare),
        First::Simple(simple) => simple_depth(simple),
        First::Nothing => 0,
    }
}

fn maybe_cond_depth(cond: &Option<Cond>) -> u32
    ensures { result ≡ min (depth_of_option depth_of_cond cond.now) 4294967295 }
{
    match cond {
        Some(cond) => cond_depth(cond),
        None => 0,
    }
}

fn maybe_simple_depth(simple: &Option<Boxed<Simple>>) -> u32
    ensures { result ≡ min (depth_of_option depth_of_simple simple.now) 4294967295 }
{
    match simple {
        Some(simple) => simple_depth(simple.get()),
        None => 0,
    }
}

fn maybe_operand_depth(operand: &Option<Operand>) -> u32
    ensures { result ≡ min (depth_of_option depth_of_operand operand.now) 4294967295 }
{
    match operand {
        Some(operand) => operand_depth(operand),
        None => 0,
    }
}

#[cycle(stmt)]
#[tactic(auto, using(crate::proofs::DepthLemmas::layers))]
fn block_depth(block: &Block) -> u32
    ensures { result ≡ min (depth_of_block block.now) 4294967295 }
{
    parts_depth(block.parts.as_slice())
}

#[cycle(stmt)]
#[tactic(auto, using(crate::proofs::DepthLemmas::layers))]
fn parts_depth(parts: &[Part]) -> u32
    ensures { result ≡ min (deepest (map depth_of_part parts.now)) 4294967295 }
{
    let mut most = 0;
    for part in parts {
        most = greater(most, part_depth(part));
    }
    most
}

#[cycle(stmt)]
#[tactic(auto, using(crate::proofs::DepthLemmas::layers))]
fn part_depth(part: &Part) -> u32
    ensures { result ≡ min (depth_of_part part.now) 4294967295 }
{
    match part {
        Part::Declare(declare) => declare_depth(declare),
        Part::Stmt(stmt) => stmt_depth(stmt),
    }
}

#[cycle(stmt)]
#[tactic(auto, using(crate::proofs::DepthLemmas::layers))]
fn stmt_depth(stmt: &Stmt) -> u32
    ensures { result ≡ min (depth_of_stmt stmt.now) 4294967295 }
{
    match stmt {
        Stmt::Block(block) => inside(block_depth(block)),
        Stmt::Simple(simple) => simple_depth(simple.get()),
        Stmt::If {
            cond,
            then,
            other,
            ..
        } => inside(greater(
            cond_depth(cond),
            greater(stmt_depth(then.get()), else_depth(other)),
        )),
        Stmt::While { cond, body, .. } => inside(greater(cond_depth(cond), stmt_depth(body.get()))),
        Stmt::Do { body, cond, .. } => inside(greater(stmt_depth(body.get()), cond_depth(cond))),
        Stmt::For {
            first,
            cond,
            next,
            body,
            ..
        } => {
            let head = greater(first_depth(first.get()), maybe_cond_depth(cond));
            inside(greater(
                head,
                greater(maybe_simple_depth(next), stmt_depth(body.get())),
            ))
        }
        Stmt::Return { operand, .. } => maybe_operand_depth(operand),
        Stmt::Assert { cond, .. } => cond_depth(cond),
        Stmt::Empty { .. } | Stmt::Break { .. } | Stmt::Continue { .. } => 0,
    }
}

#[cycle(stmt)]
#[tactic(auto, using(crate::proofs::DepthLemmas::layers))]
fn else_depth(other: &Option<Boxed<Stmt>>) -> u32
    ensures { result ≡ min (depth_of_option depth_of_stmt other.now) 4294967295 }
{
    match other {
        Some(stmt) => stmt_depth(stmt.get()),
        None => 0,
    }
}

fn item_depth(item: &Item) -> u32
    ensures { result ≡ min (depth_of_item item.now) 4294967295 }
{
    match item {
        Item::Function { body, .. } => inside(block_depth(body)),
        Item::Declare(declare) => declare_depth(declare),
        Item::Struct { .. } | Item::Enum { .. } | Item::Proto { .. } => 0,
    }
}

fn items_depth(items: &[Item]) -> u32
    ensures { result ≡ min (depth_of_items items.now) 4294967295 }
{
    let mut most = 0;
    for item in items {
        most = greater(most, item_depth(item));
    }
    most
}

impl Unit {
    /// How many levels are open at once where most are: blocks, `if`, `while`, `do` and `for` statements, calls in
    /// calls, negations and
    /// bracketed conditions. An `else` is inside its `if`.
    pub fn depth(&self) -> u32
        requires { depth_of_unit self.now < 2 ^ 32 }
        ensures { result ≡ depth_of_unit self.now }
    {
        items_depth(self.items.as_slice())
    }
}
