// How many statements and declarations a body has, and which is the first beyond a limit.
ghost use Rattle.std.specs.Prelude.{◌≡◌, ◌∷◌, ◌++◌, [], None, length, map, slice_get, IfOk};
ghost use Rattle.c_typing.specs.BodySites.{data_place, simple_place, declare_place, first_places, part_places};
ghost use Rattle.c_typing.specs.BodySites.{stmt_places, block_places, other_places};
ghost use Rattle.c_typing.specs.Texts.{joined};
ghost use Rattle.c_callees.specs.inner.Counting.{passed, all_passed};

use c_ast::{Block, Data, Declare, First, Part, Simple, Stmt};
use fore_base::boxed::Boxed;
use fore_base::memory::Mem;
use fore_base::place::Place;
use std::alloc::AllocError;

/// How many places more may come, and the first one beyond them.
#[derive(Clone, Copy)]
struct Count {
    left: u32,
    beyond: Option<Place>,
}

/// One place more.
fn pass(count: &mut Count, at: Place)
    ensures { count.new ≡ passed count.old at }
{
    if count.beyond.is_none() {
        if count.left == 0 {
            count.beyond = Some(at);
        } else {
            count.left -= 1;
        }
    }
}

fn data_place(data: &Data) -> Place
    ensures { result ≡ data_place «data».now }
{
    match data {
        Data::Int { at } | Data::Enum { at, .. } => *at,
    }
}

fn declare_place(declare: &Declare) -> Place
    ensures { result ≡ declare_place declare.now }
{
    match declare {
        Declare::Pointers { at, .. } => *at,
        Declare::Datums { data, .. } => data_place(data),
    }
}

fn simple_place(simple: &Simple) -> Place
    ensures { result ≡ simple_place simple.now }
{
    match simple {
        Simple::Assign { to, .. } => to.head.at,
        Simple::Call(call) => call.name.at,
        Simple::Free { at, .. } => *at,
    }
}

/// A declaration in the head of a `for`.
#[tactic(auto, using(crate::proofs::CountingLemmas::counting))]
fn pass_first(count: &mut Count, first: &First)
    ensures { count.new ≡ all_passed count.old (first_places first.now) }
{
    if let First::Declare(declare) = first {
        pass(count, declare_place(declare));
    }
}

#[cycle(count)]
#[tactic(auto, using(c_typing::proofs::PlaceLayers::place_layers, crate::proofs::CountingLemmas::counting))]
fn pass_block(count: &mut Count, block: &Block)
    ensures { count.new ≡ all_passed count.old (block_places block.now).within }
{
    pass_parts(count, block.parts.as_slice());
}

#[cycle(count)]
#[tactic(auto, using(crate::proofs::CountingLemmas::counting))]
fn pass_parts(count: &mut Count, parts: &[Part])
    ensures { count.new ≡ all_passed count.old (joined (map part_places parts.now)) }
{
    for part in parts {
        pass_part(count, part);
    }
}

#[cycle(count)]
#[tactic(auto, using(c_typing::proofs::PlaceLayers::place_layers, crate::proofs::CountingLemmas::counting))]
fn pass_part(count: &mut Count, part: &Part)
    ensures { count.new ≡ all_passed count.old (part_places part.now) }
{
    match part {
        Part::Declare(declare) => pass(count, declare_place(declare)),
        Part::Stmt(stmt) => pass_stmt(count, stmt),
    }
}

#[cycle(count)]
#[tactic(auto, using(c_typing::proofs::PlaceLayers::place_layers, crate::proofs::CountingLemmas::counting))]
fn pass_stmt(count: &mut Count, stmt: &Stmt)
    ensures { count.new ≡ all_passed count.old (stmt_places stmt.now) }
{
    match stmt {
        Stmt::Block(block) => {
            pass(count, block.at);
            pass_block(count, block);
        }
        Stmt::Simple(simple) => pass(count, simple_place(simple.get())),
        Stmt::If {
            at,
            then,
            other,
            ..
        } => {
            pass(count, *at);
            pass_stmt(count, then.get());
            pass_other(count, other);
        }
        Stmt::While { at, body, .. } | Stmt::Do { at, body, .. } => {
            pass(count, *at);
            pass_stmt(count, body.get());
        }
        Stmt::For {
            at,
            first,
            body,
            ..
        } => {
            pass(count, *at);
            pass_first(count, first.get());
            pass_stmt(count, body.get());
        }
        Stmt::Empty { at }
        | Stmt::Return { at, .. }
        | Stmt::Break { at }
        | Stmt::Continue { at }
        | Stmt::Assert { at, .. } => pass(count, *at),
    }
}

#[cycle(count)]
#[tactic(auto, using(crate::proofs::CountingLemmas::counting))]
fn pass_other(count: &mut Count, other: &Option<Boxed<Stmt>>)
    ensures { count.new ≡ all_passed count.old (other_places other.now) }
{
    if let Some(stmt) = other {
        pass_stmt(count, stmt.get());
    }
}

/// Passes all of a body, of which so many may come.
fn passed_body(most: u32, block: &Block) -> Count
    ensures { result ≡ all_passed (record { left = most; beyond = None }) (block_places block.now).within }
{
    let mut count = Count {
        left: most,
        beyond: None,
    };
    pass_block(&mut count, block);
    count
}

/// The first statement or declaration of a body behind so many.
pub fn place_behind(most: u32, block: &Block) -> Option<Place>
    ensures { result ≡ slice_get (block_places block.now).within most }
{
    passed_body(most, block).beyond
}

/// How many statements and declarations a body has, those in the head of a `for` with them. Past 32 bits it is want of
/// memory.
pub fn statements_within(block: &Block) -> Mem<u32>
    ensures { IfOk result (λ n. n ≡ length (block_places block.now).within) }
{
    let count = passed_body(u32::MAX, block);
    match count.beyond {
        Some(_) => Err(AllocError),
        None => Ok(u32::MAX - count.left),
    }
}
