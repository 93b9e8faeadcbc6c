// Where the edge stands that gives a field to a root: in which component, and by which slots.

ghost use Rattle.std.specs.Prelude.{◌≡◌, ◌↔◌, ◌<◌, ℕ, true, length, IsTrue, IfOk, MatchOption};
ghost use Rattle.std.specs.Option.{option_copied};
ghost use Rattle.fore_base.specs.Lists.{IsIn};
ghost use Rattle.fa_core.specs.Ways.{fields_out, has};
ghost use Rattle.fa_sound.specs.Components.{component_at};
ghost use Rattle.fa_lift.specs.Lift.{IsProvider, MayRefer, Provides, slot_gives};
ghost use Rattle.fa_lift.specs.inner.Lifting.{MarksProvide};

use fa_core::cells::has;
use fa_core::faces::BoxFace;
use fa_core::signature::RefMark;
use fa_sound::{Sound, component, count_roots};
use fa_split::roots_of;
use fore_base::memory::Mem;
use ta_core::auto::Rule;
use ta_core::symbol::{Slot, Symbol};

/// The first component of which an edge gives the field to the root, if there is one. Err is want of memory.
pub fn provider(forest: &Sound, root: u32, field: u32) -> Mem<Option<u32>>
    ensures { IfOk result (λ found. MatchOption found
        ((t : ℕ) → IsProvider forest.now.face.boxes forest.now.forest root field t → ⊥)
        (λ t. IsProvider forest.now.face.boxes forest.now.forest root field t)) }
{
    let count = count_roots(forest.forest())?;
    for from in 0..count {
        if provides(forest, from, root, field) {
            return Ok(Some(from));
        }
    }
    Ok(None)
}

/// Whether an edge of some tree of the component gives the field to the root.
fn provides(forest: &Sound, from: u32, root: u32, field: u32) -> bool
    requires { from < length forest.now.forest.autos }
    ensures { IsTrue result
        ↔ Provides forest.now.face.boxes root field (component_at forest.now.forest.autos from) }
{
    forest.known();
    let auto = component(forest.forest(), from);
    auto.known();
    let states = roots_of(auto);
    for state in states {
        let signature = forest.signature(from, *state);
        if do_provide(signature.refs.as_slice(), root, field) {
            return true;
        }
    }
    false
}

/// Whether a mark of the root provides the field.
fn do_provide(marks: &[RefMark], root: u32, field: u32) -> bool
    ensures { IsTrue result ↔ MarksProvide root field marks.now }
{
    for mark in marks {
        if mark.root == root && has(field, mark.provided.as_slice()) {
            return true;
        }
    }
    false
}

/// Whether the slot gives the field to the cell at its end.
pub fn slot_gives(boxes: &[BoxFace], field: u32, slot: Slot) -> bool
    ensures { result ≡ slot_gives boxes.now field slot }
{
    match slot {
        Slot::Link(number) => face_gives(boxes.get(number as usize), field),
        _ => false,
    }
}

fn face_gives(face: Option<&BoxFace>, field: u32) -> bool
    ensures { result ≡ has field (fields_out (option_copied face.entry)) }
{
    match face {
        Some(face) => has(field, face.gives_out.as_slice()),
        None => false,
    }
}

/// Whether the state may be a reference to the root.
pub fn may_refer(rules: &[Rule], root: u32, state: u32) -> bool
    ensures { IsTrue result ↔ MayRefer rules.now root state }
{
    for rule in rules {
        if rule.state == state && is_ref(&rule.symbol, root) {
            return true;
        }
    }
    false
}

fn is_ref(symbol: &Symbol, root: u32) -> bool
    ensures { IsTrue result ↔ (symbol.now ≡ Symbol.Ref root) }
{
    match symbol {
        Symbol::Ref(other) => *other == root,
        _ => false,
    }
}
