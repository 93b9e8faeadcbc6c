// The calls of a file.
ghost use Rattle.std.specs.Prelude.{◌≡◌, ◌≤◌, map, length, IfOk};
ghost use Rattle.c_calls.specs.Calls.{AreCalls, leads_within};
ghost use Rattle.c_callees.specs.Leading.{AreLeading};
ghost use Rattle.c_typing.specs.Globals.{body_callees, body_named, calls_of, numbers_among};

use crate::bodies::body_named;
use crate::functions::Functions;
use crate::statements::block_calls;
use c_ast::Item;
use c_calls::CallGraph;
use c_typing::limits::FUNCTIONS;
use fore_base::list::List;
use fore_base::marks::is_marked;
use fore_base::memory::{Mem, beside};
use fore_base::names::Names;
use fore_base::text::Text;
use std::alloc::{AllocError, Global};
use std::marker::Model;

/// What the body of the function of this name calls.
fn calls_in(alloc: Global, names: &Names, name: &[u8], items: &[Item]) -> Mem<List<u32>>
    ensures { IfOk result (λ called. called ≡ numbers_among names.now (body_callees (body_named name.now items.now))) }
{
    let mut called = List::new(alloc);
    if let Some(body) = body_named(name, items) {
        block_calls(names, body, &mut called)?;
    }
    Ok(called)
}

fn all_calls(alloc: Global, names: &Names, texts: &[Text], items: &[Item]) -> Mem<List<List<u32>>>
    ensures { IfOk result (λ calls. calls
        ≡ map (λ x. numbers_among names.now (body_callees (body_named x items.now))) texts.now) }
{
    let mut calls = List::new(alloc);
    for text in texts {
        let called = calls_in(alloc, names, text.as_slice(), items)?;
        calls.push(called)?;
    }
    Ok(calls)
}

/// For each function besides `main`, in order of their first definitions, and for `main` after them: the functions that
/// its body calls, by their numbers, in the order of the text, each as often as it is called. A function that is
/// defined twice counts by its first body. A name that is no function of the file counts for nothing.
///
/// # Errors
///
/// Want of memory.
pub fn calls_of(alloc: Global, items: &[Item]) -> Mem<List<List<u32>>>
    ensures { IfOk result (λ calls. calls ≡ calls_of items.now) }
{
    let functions = Functions::of(alloc, items)?;
    let calls = all_calls(alloc, &functions.names, functions.texts.as_slice(), items)?;
    Ok(calls)
}

/// The graph of calls that are known to be of functions of the file.
fn graph_of(alloc: Global, calls: List<List<u32>>) -> Mem<CallGraph>
    requires { AreCalls calls }
    ensures { IfOk result (λ graph. graph ≡ calls) }
{
    if calls.len() >= 4294967296 {
        return Err(AllocError);
    }
    CallGraph::new(alloc, calls)
}

/// The graph of the calls that `calls_of` has.
///
/// # Errors
///
/// Want of memory, also past 32 bits.
pub fn call_graph(alloc: Global, items: &[Item]) -> Mem<CallGraph>
    ensures { IfOk result (λ graph. graph ≡ calls_of items.now) }
{
    let calls = calls_of(alloc, items)?;
    let graph = graph_of(alloc, calls)?;
    Ok(graph)
}

/// The calls of a file, asked often. Contracts see them as `calls_of` has them.
#[derive(Drop)]
pub struct Calls {
    graph: CallGraph,
    count: usize,
    leading: List<List<bool>>,
}

impl Model for Calls {
    ghost use Rattle.std.specs.Prelude.{◌≡◌, List, ℕ, length};
    ghost use Rattle.std.specs.Coded.{coded_list, coded_ℕ};
    ghost use Rattle.c_callees.specs.Leading.{AreLeading};

    ghost Value = { List (List ℕ) };

    ghost coded = { coded_list (coded_list coded_ℕ) };

    ghost view = { λ calls. calls.graph };

    ghost invariant = { λ calls. (calls.count ≡ length calls.graph) × AreLeading calls.graph calls.leading };
}

/// For each of the first functions, so many, which functions lead to it.
fn all_leading(alloc: Global, graph: &CallGraph, count: usize) -> Mem<List<List<bool>>>
    requires { count ≤ length graph.now }
    ensures { IfOk result (AreLeading graph.now) }
{
    graph.known();
    let mut leading = List::new(alloc);
    for to in 0..count {
        let marks = graph.leading_to(alloc, to as u32)?;
        leading.push(marks)?;
    }
    Ok(leading)
}

/// Whether one leads to the other, neither of which need be a function of the graph.
fn lead_in(alloc: Global, graph: &CallGraph, count: usize, from: u32, to: u32) -> Mem<bool>
    requires { count ≡ length graph.now }
    ensures { IfOk result (λ yes. yes ≡ leads_within graph.now (length graph.now) from to) }
{
    graph.known();
    if to as usize >= count {
        return Ok(false);
    }
    let yes = graph.leads_to(alloc, from, to)?;
    Ok(yes)
}

/// How many functions are told which lead to them once for all: as many as a program may have.
fn most(count: usize) -> usize
    ensures { result ≤ count }
{
    count.min(FUNCTIONS)
}

impl Calls {
    /// The calls of the items.
    ///
    /// # Errors
    ///
    /// Want of memory, also past 32 bits.
    pub fn of(alloc: Global, items: &[Item]) -> Mem<Calls>
        ensures { IfOk result (λ calls. calls ≡ calls_of items.now) }
    {
        let calls = calls_of(alloc, items)?;
        let count = calls.len();
        let graph = graph_of(alloc, calls)?;
        let leading = all_leading(alloc, &graph, most(count));
        let (graph, leading) = beside(graph, leading)?;
        Ok(Calls {
            graph,
            count,
            leading,
        })
    }

    /// Their graph.
    pub fn graph(&self) -> &CallGraph
        ensures { result.now ≡ self.now }
    {
        &self.graph
    }

    /// Whether `from` leads to `to`, by one call or more; no number past the functions leads anywhere, or is led to.
    ///
    /// # Errors
    ///
    /// Want of memory.
    pub fn lead(&self, alloc: Global, from: u32, to: u32) -> Mem<bool>
        ensures { IfOk result (λ yes. yes ≡ leads_within self.now (length self.now) from to) }
    {
        match self.leading.get(to as usize) {
            Some(marks) => Ok(is_marked(marks.as_slice(), from)),
            None => lead_in(alloc, &self.graph, self.count, from, to),
        }
    }
}
