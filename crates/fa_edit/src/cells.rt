//! New cells.

ghost use Rattle.std.specs.Prelude.{◌≡◌, ◌<◌, List, length, IfOk};
ghost use Rattle.fore_base.specs.Lists.{Every};
ghost use Rattle.fa_core.specs.Boxless.{HasNoBoxes};
ghost use Rattle.fa_core.specs.declared.boxes.BoxDef.{BoxDef};
ghost use Rattle.fa_edit.specs.Cells.{IsNewed};
ghost use Rattle.fa_edit.specs.inner.News.{blank, blank_rule, field_slots, newed, uninit_rule};

use fa_core::forest::{Forest, Target};
use fa_filling::fields::{count_targets, datums_of};
use fa_sound::{Sound, count_roots};
use fore_base::list::{Copies, List};
use fore_base::memory::Mem;
use fore_base::shape::Shape;
use fore_base::store::Datum;
use std::alloc::{AllocError, Global};
use ta_core::auto::{Auto, Rule};
use ta_core::symbol::{Slot, Symbol};

/// The forest with a new cell of the struct as its last root, at which variable `to` is. Its pointers are
/// uninitialised, and its data undefined (`malloc`, ISO/IEC 9899:2011, 7.22.3.4). Err is want of memory.
pub fn with_cell(alloc: Global, forest: &Sound, to: u32, shape: u32) -> Mem<Sound>
    requires to { to < length forest.now.forest.vars }
    requires shape { shape < length forest.now.face.shapes.structs }
    ensures newed { IfOk result (λ made. (T : List BoxDef)
        → IsNewed forest.now.face.shapes.structs T forest.now.forest made.forest to shape) }
    ensures face { IfOk result (λ made. made.face ≡ forest.now.face) }
    ensures plain { Every HasNoBoxes forest.now.forest.autos
        → IfOk result (λ made. Every HasNoBoxes made.forest.autos) }
    ensures vars { IfOk result (λ made. length made.forest.vars ≡ length forest.now.forest.vars) }
    ensures data_vars { IfOk result (λ made. made.forest.data_vars ≡ forest.now.forest.data_vars) }
{
    forest.known();
    let made = sound_newed(alloc, forest, to, shape)?;
    Ok(made)
}

fn sound_newed(alloc: Global, forest: &Sound, to: u32, shape: u32) -> Mem<Sound>
    requires to { to < length forest.now.forest.vars }
    requires shape { shape < length forest.now.face.shapes.structs }
    ensures forest { IfOk result (λ made. made.forest
        ≡ newed forest.now.face.shapes.structs forest.now.forest to shape) }
    ensures face { IfOk result (λ made. made.face ≡ forest.now.face) }
{
    forest.known();
    let structs = forest.face().shapes.structs.as_slice();
    let made = newed(alloc, structs, forest.forest(), to, shape)?;
    Sound::of(alloc, made, forest.face())
}

/// The forest with the component of a new cell as its last. Err is want of memory.
fn newed(alloc: Global, structs: &[Shape], forest: &Forest, to: u32, shape: u32) -> Mem<Forest>
    requires { to < length forest.now.vars }
    ensures { IfOk result (λ made. made ≡ newed structs.now forest.now to shape) }
{
    let root = count_roots(forest)?;
    let mut autos = forest.autos.copy(alloc)?;
    autos.push(blank(alloc, structs, shape)?)?;
    let mut vars = forest.vars.copy(alloc)?;
    vars.set(to as usize, Target::At(root));
    let data_vars = forest.data_vars.copy(alloc)?;
    Ok(Forest {
        autos,
        vars,
        data_vars,
    })
}

/// The component of a new cell. Err is want of memory.
fn blank(alloc: Global, structs: &[Shape], shape: u32) -> Mem<Auto>
    ensures { IfOk result (λ made. made ≡ blank structs.now shape) }
{
    let roots = List::filled(alloc, 0, 1)?;
    let mut rules = List::new(alloc);
    rules.push(blank_rule(alloc, structs, shape)?)?;
    rules.push(uninit_rule(alloc))?;
    Ok(Auto {
        states: 2,
        roots,
        rules,
    })
}

fn uninit_rule(alloc: Global) -> Rule
    ensures { result ≡ uninit_rule }
{
    Rule {
        state: 1,
        symbol: Symbol::Uninit,
        children: List::new(alloc),
    }
}

fn blank_rule(alloc: Global, structs: &[Shape], shape: u32) -> Mem<Rule>
    ensures { IfOk result (λ made. made ≡ blank_rule structs.now shape) }
{
    let targets = count_targets(structs, shape);
    let datums = List::filled(alloc, Datum::Undefined, datums_of(structs, shape))?;
    let slots = field_slots(alloc, targets)?;
    let children = List::filled(alloc, 1, targets)?;
    Ok(Rule {
        state: 0,
        symbol: Symbol::Cell {
            shape,
            datums,
            slots,
        },
        children,
    })
}

/// The slots of so many fields. Where their numbers do not fit 32 bits the answer is want of memory.
fn field_slots(alloc: Global, count: usize) -> Mem<List<Slot>>
    ensures { IfOk result (λ slots. slots ≡ field_slots 0 count) }
{
    let mut slots = List::new(alloc);
    for place in 0..count {
        slots.push(Slot::Field(number_of(place)?))?;
    }
    Ok(slots)
}

fn number_of(place: usize) -> Mem<u32>
    ensures { IfOk result (λ number. number ≡ place) }
{
    if place > u32::MAX as usize {
        return Err(AllocError);
    }
    Ok(place as u32)
}
