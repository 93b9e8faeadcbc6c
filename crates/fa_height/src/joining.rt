// A component in which the inner states that agree to a height and have equal signatures are joined.

ghost use Rattle.std.specs.Prelude.{◌≡◌, ◌↔◌, ◌<◌, List, length, Some, slice_get, IsTrue, IfOk};
ghost use Rattle.fore_base.specs.Lists.{IsIn};
ghost use Rattle.ta_core.specs.Auto.{Automaton};
ghost use Rattle.ta_core.specs.Language.{IsTrim};
ghost use Rattle.fa_core.specs.declared.signature.Signature.{Signature};
ghost use Rattle.fa_height.specs.Quotients.{IsQuotient};
ghost use Rattle.ta_classes.specs.Classes.{AreClasses};
ghost use Rattle.fa_height.specs.inner.Joining.{AreJoined, AreMarksEach, HasStates, IsJoined, marks_at};

use crate::agreeing::agreement;
use fa_core::signature::RefMark;
use fa_sound::{Sound, are_same};
use fore_base::list::{Copies, List};
use fore_base::memory::Mem;
use std::alloc::Global;
use ta_classes::{Classes, Likeness, classes_of};
use ta_core::auto::Auto;
use ta_core::renumbering::{number_of, renumber};

/// The quotient of a component by a height. Err is want of memory.
pub fn quotient(alloc: Global, forest: &Sound, root: u32, height: u32) -> Mem<Auto>
    requires below { root < length forest.now.forest.autos }
    requires trim { (a : Automaton) → slice_get forest.now.forest.autos root ≡ Some a → IsTrim a }
    ensures { IfOk result (λ made. (a : Automaton) → slice_get forest.now.forest.autos root ≡ Some a
        → IsQuotient forest.now.face.boxes height a made) }
{
    forest.known();
    let auto = forest.forest().autos.at(root as usize);
    auto.known();
    let classes = agreement(alloc, auto, height)?;
    let marks = marks_each(alloc, forest, root, auto.states)?;
    let joined = joined(alloc, auto, classes.as_slice(), marks.as_slice())?;
    let Classes { numbers, firsts } = joined;
    renumber(alloc, auto, numbers.as_slice(), firsts.len() as u32)
}

/// Whether two states are joined.
#[derive(Clone, Copy)]
struct Joining<'a> {
    roots: &'a [u32],
    classes: &'a [u32],
    marks: &'a [List<RefMark>],
}

impl Likeness for Joining<'_> {
    ghost use Rattle.fa_height.specs.inner.Joining.{IsJoined};

    ghost alike = { λ s. IsJoined s.roots.now s.classes.now s.marks.now };

    fn are_alike(&self, left: u32, right: u32) -> bool {
        left == right || are_joined(self.roots, self.classes, self.marks, left, right)
    }
}

/// The classes of states that are joined.
fn joined(alloc: Global, auto: &Auto, classes: &[u32], marks: &[List<RefMark>]) -> Mem<Classes>
    ensures { IfOk result
        (λ made. AreClasses (IsJoined auto.now.roots classes.now marks.now) auto.now.states made.numbers
        made.firsts) }
{
    let likeness = Joining {
        roots: auto.roots.as_slice(),
        classes,
        marks,
    };
    classes_of(alloc, &likeness, auto.states)
}

/// Whether both states are no root states, have one class and have the same marks.
fn are_joined(
    roots: &[u32],
    classes: &[u32],
    marks: &[List<RefMark>],
    left: u32,
    right: u32,
) -> bool
    ensures { IsTrue result ↔ AreJoined roots.now classes.now marks.now left right }
{
    !is_one_of(roots, left)
        && !is_one_of(roots, right)
        && number_of(classes, left) == number_of(classes, right)
        && are_same(marks_at(marks, left), marks_at(marks, right))
}

fn is_one_of(states: &[u32], state: u32) -> bool
    ensures { IsTrue result ↔ IsIn state states.now }
{
    for other in states {
        if *other == state {
            return true;
        }
    }
    false
}

/// The marks of the state.
fn marks_at(marks: &[List<RefMark>], state: u32) -> &[RefMark]
    ensures { result.now ≡ marks_at marks.now state }
{
    match marks.get(state as usize) {
        Some(own) => own.as_slice(),
        None => &[],
    }
}

/// The marks of each state of the component.
fn marks_each(alloc: Global, forest: &Sound, root: u32, states: u32) -> Mem<List<List<RefMark>>>
    requires { HasStates (slice_get forest.now.forest.autos root) states }
    ensures { IfOk result (λ made. (list : List Signature) → slice_get forest.now.signatures root ≡ Some list
        → AreMarksEach list states made) }
{
    let mut made = List::new(alloc);
    for state in 0..states {
        let marks = forest.signature(root, state).refs.copy(alloc)?;
        made.push(marks)?;
    }
    Ok(made)
}
