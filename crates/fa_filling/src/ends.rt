// What may stand at the ends of the slots of cells, whichever structs stand at the tops of the roots.

ghost use Rattle.std.specs.Prelude.{◌≡◌, ◌↔◌, IsTrue};
ghost use Rattle.std.specs.Option.{option_copied};
ghost use Rattle.fore_base.specs.Lists.{Every};
ghost use Rattle.fa_filling.specs.Ruled.{IsAlone, FieldAlways, LinkAlways, OutputAlways, BoxAlways};
ghost use Rattle.fa_filling.specs.Ruled.{EndAlways, RuleAlways, EdgeAlways, HookAlways, SlotAlways};

use crate::fields::target_of;
use fa_core::faces::{BoxFace, Face};
use fore_base::list::List;
use ta_core::auto::Rule;
use ta_core::symbol::{Slot, Symbol};

/// Whether what stands at each edge ends it as its slot allows.
pub fn are_ends_right(
    face: &Face,
    topss: &[List<u32>],
    rules: &[Rule],
    shape: u32,
    edges: &[(Slot, u32)],
) -> bool
    ensures { IsTrue result ↔ Every (EdgeAlways face.now topss.now rules.now shape) edges.now }
{
    for edge in edges {
        if !is_edge_right(face, topss, rules, shape, *edge) {
            return false;
        }
    }
    true
}

/// Whether each rule of the edge's state ends its slot as it allows.
fn is_edge_right(
    face: &Face,
    topss: &[List<u32>],
    rules: &[Rule],
    shape: u32,
    edge: (Slot, u32),
) -> bool
    ensures { IsTrue result ↔ EdgeAlways face.now topss.now rules.now shape edge }
{
    for rule in rules {
        if !is_rule_right(face, topss, shape, edge, rule) {
            return false;
        }
    }
    true
}

fn is_rule_right(
    face: &Face,
    topss: &[List<u32>],
    shape: u32,
    edge: (Slot, u32),
    rule: &Rule,
) -> bool
    ensures { IsTrue result ↔ RuleAlways face.now topss.now shape edge rule.now }
{
    rule.state != edge.1 || is_end_right(face, topss, shape, edge.0, &rule.symbol)
}

/// Whether the symbol ends the slot as it allows.
fn is_end_right(face: &Face, topss: &[List<u32>], shape: u32, slot: Slot, symbol: &Symbol) -> bool
    ensures { IsTrue result ↔ EndAlways face.now topss.now shape slot symbol.now }
{
    match slot {
        Slot::Field(field) => match target_of(face.shapes.structs.as_slice(), shape, field) {
            Some(target) => is_field_right(topss, target, symbol),
            None => false,
        },
        Slot::Link(number) => {
            is_box_right(
                topss,
                shape,
                face.boxes.as_slice().get(number as usize),
                symbol,
            )
        }
        Slot::Hook(_) => false,
    }
}

/// Whether the symbol may stand at the end of a Link of the box at a cell of this struct.
fn is_box_right(topss: &[List<u32>], shape: u32, face: Option<&BoxFace>, symbol: &Symbol) -> bool
    ensures { IsTrue result ↔ BoxAlways topss.now shape (option_copied face.entry) symbol.now }
{
    match face {
        Some(face) => {
            face.input == shape
                && is_output_right(topss, face.gives_out.as_slice(), face.output, symbol)
        }
        None => false,
    }
}

/// Whether the symbol may stand at the end of a Link of a box with this output, which gives these fields there.
fn is_output_right(topss: &[List<u32>], gives: &[u32], output: Option<u32>, symbol: &Symbol) -> bool
    ensures { IsTrue result ↔ OutputAlways topss.now gives.now output symbol.now }
{
    match output {
        Some(target) => is_link_right(topss, target, gives, symbol),
        None => false,
    }
}

/// Whether the symbol may stand at the end of a Link to this struct.
fn is_link_right(topss: &[List<u32>], target: u32, gives: &[u32], symbol: &Symbol) -> bool
    ensures { IsTrue result ↔ LinkAlways topss.now target gives.now symbol.now }
{
    match symbol {
        Symbol::Dangling => gives.is_empty(),
        Symbol::Ref(root) => is_alone(target, topss.get(*root as usize)),
        Symbol::Cell { shape, .. } => *shape == target,
        _ => false,
    }
}

/// Whether the symbol may stand at the end of a field to this struct.
fn is_field_right(topss: &[List<u32>], target: u32, symbol: &Symbol) -> bool
    ensures { IsTrue result ↔ FieldAlways topss.now target symbol.now }
{
    match symbol {
        Symbol::Ref(root) => is_alone(target, topss.get(*root as usize)),
        Symbol::Cell { shape, .. } => *shape == target,
        _ => true,
    }
}

/// Whether the root is there, and this struct alone may stand at its top.
fn is_alone(shape: u32, tops: Option<&List<u32>>) -> bool
    ensures { IsTrue result ↔ IsAlone shape (option_copied tops.entry) }
{
    match tops {
        Some(tops) => are_all(shape, tops.as_slice()),
        None => false,
    }
}

fn are_all(number: u32, numbers: &[u32]) -> bool
    ensures { IsTrue result ↔ Every (λ t. t ≡ number) numbers.now }
{
    for other in numbers {
        if *other != number {
            return false;
        }
    }
    true
}

/// Whether each slot without a child is one that a cell of this struct may have.
pub fn are_hooks_right(face: &Face, shape: u32, slots: &[Slot]) -> bool
    ensures { IsTrue result ↔ Every (SlotAlways face.now shape) slots.now }
{
    for slot in slots {
        if !is_slot_right(face, shape, *slot) {
            return false;
        }
    }
    true
}

fn is_slot_right(face: &Face, shape: u32, slot: Slot) -> bool
    ensures { IsTrue result ↔ SlotAlways face.now shape slot }
{
    match slot {
        Slot::Hook(number) => is_hook_right(shape, face.boxes.as_slice().get(number as usize)),
        _ => true,
    }
}

/// Whether the box is there, is one of cells of this struct, and has no output.
fn is_hook_right(shape: u32, face: Option<&BoxFace>) -> bool
    ensures { IsTrue result ↔ HookAlways shape (option_copied face.entry) }
{
    match face {
        Some(face) => face.input == shape && face.output.is_none(),
        None => false,
    }
}
