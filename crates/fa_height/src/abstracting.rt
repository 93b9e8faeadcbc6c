// Forests abstracted by height.

ghost use Rattle.std.specs.Prelude.{◌≡◌, ◌≤◌, List, IfOk};
ghost use Rattle.fore_base.specs.Lists.{Every, Paired};
ghost use Rattle.fore_base.specs.declared.shape.Shape.{Shape};
ghost use Rattle.fore_base.specs.declared.store.Store.{Store};
ghost use Rattle.ta_core.specs.Auto.{IsRanked};
ghost use Rattle.ta_core.specs.Language.{IsTrim};
ghost use Rattle.fa_core.specs.Boxless.{HasNoBoxes};
ghost use Rattle.fa_core.specs.Member.{Stands};
ghost use Rattle.fa_core.specs.declared.boxes.BoxDef.{BoxDef};
ghost use Rattle.fa_height.specs.Quotients.{IsQuotient, Quotient};
ghost use Rattle.fa_height.specs.Structs.{HasOneStruct};

use crate::joining::quotient;
use fa_core::forest::Forest;
use fa_core::laws::covered_members;
use fa_sound::{Sound, count_roots};
use fore_base::list::{Copies, List};
use fore_base::memory::Mem;
use std::alloc::Global;
use ta_core::auto::Auto;

/// The quotient of the forest by the height: in each component exactly the inner states that agree to the height and
/// have equal signatures are joined. A root state is joined with none, also where it stands inside. Targets and data
/// stay, and each member of the forest is one of the result. The height is at least 1, each state takes part in an
/// accepted tree of its component, and cells of one struct stand at the tops of a component's trees.
///
/// # Errors
///
/// Want of memory.
pub fn abstract_height(alloc: Global, forest: &Sound, height: u32) -> Mem<Sound>
    requires trim { Every IsTrim forest.now.forest.autos }
    requires structs { Every HasOneStruct forest.now.forest.autos }
    requires height { 1 ≤ height }
    ensures quotient { IfOk result (λ made. Quotient forest.now.face.boxes forest.now.forest height made.forest) }
    ensures members { IfOk result
        (λ made. (hs : List Shape) (T : List BoxDef) (s : Store) → Stands hs T forest.now.forest s
        → Stands hs T made.forest s) }
    ensures face { IfOk result (λ made. made.face ≡ forest.now.face) }
    ensures plain { Every HasNoBoxes forest.now.forest.autos
        → IfOk result (λ made. Every HasNoBoxes made.forest.autos) }
    ensures vars { IfOk result (λ made. made.forest.vars ≡ forest.now.forest.vars) }
    ensures data { IfOk result (λ made. made.forest.data_vars ≡ forest.now.forest.data_vars) }
{
    covered_members();
    forest.known();
    let autos = quotients(alloc, forest, height)?;
    let vars = forest.forest().vars.copy(alloc)?;
    let data_vars = forest.forest().data_vars.copy(alloc)?;
    let made = Forest {
        autos,
        vars,
        data_vars,
    };
    Sound::of(alloc, made, forest.face())
}

/// The quotient of each component.
fn quotients(alloc: Global, forest: &Sound, height: u32) -> Mem<List<Auto>>
    requires { Every IsTrim forest.now.forest.autos }
    ensures quotients { IfOk result (λ made.
        Paired (IsQuotient forest.now.face.boxes height) forest.now.forest.autos made) }
    ensures ranked { IfOk result (λ made. Every IsRanked made) }
{
    let count = count_roots(forest.forest())?;
    let mut made = List::new(alloc);
    for root in 0..count {
        let auto = quotient(alloc, forest, root, height)?;
        auto.known();
        made.push(auto)?;
    }
    Ok(made)
}
