// The forest after a fold, made of the forest with its roots in the order of those that are kept.

ghost use Rattle.std.specs.Prelude.{◌≡◌, ◌≢◌, ◌++◌, [], ◌∷◌, length, IfOk, OnOk};
ghost use Rattle.ta_core.specs.Auto.{IsRanked};
ghost use Rattle.ta_core.specs.Single.{HasOneTop};
ghost use Rattle.fa_core.specs.Filled.{IsSound};
ghost use Rattle.fa_core.specs.Folding.{number_without};
ghost use Rattle.fa_part.specs.Ports.{ports_of};
ghost use Rattle.fa_folding.specs.Made.{AreFoldable, IsFoldable, folded_autos, folded_component, folded_forest};
ghost use Rattle.fa_folding.specs.Made.{kept_first, kept_of, new_output, other_auto};
ghost use Rattle.fa_merge.specs.Reordered.{IsOrderOf, counted, reordered};

use fa_core::cells::has;
use fa_core::faces::{BoxFace, Face};
use fa_core::forest::Forest;
use fa_folding::gaining::{input_auto, output_auto};
use fa_merge::reorder;
use fa_part::{Port, taken_at};
use fa_sound::{Sound, count_roots};
use fore_base::list::{Copies, List};
use fore_base::memory::Mem;
use std::alloc::Global;
use ta_core::auto::Auto;

/// The number of the root once the inner roots are taken away.
fn number_without(inner: &[u32], root: u32) -> u32
    ensures { result ≡ number_without inner.now root }
{
    let mut number = root;
    for other in inner {
        if *other < root {
            number = number.saturating_sub(1);
        }
    }
    number
}

/// The output's number once the inner roots are taken away.
fn new_output(inner: &[u32], output: Option<u32>) -> Option<u32>
    ensures { result ≡ new_output inner.now output }
{
    match output {
        None => None,
        Some(root) => Some(number_without(inner, root)),
    }
}

/// The roots that are none of the inner roots. Err is want of memory, also where their number does not fit 32 bits.
fn kept_roots(alloc: Global, forest: &Forest, inner: &[u32]) -> Mem<List<u32>>
    ensures { IfOk result (λ made. made ≡ kept_of inner.now (counted 0 (length forest.now.autos))) }
{
    let count = count_roots(forest)?;
    let made = kept_below(alloc, count, inner)?;
    Ok(made)
}

fn kept_below(alloc: Global, count: u32, inner: &[u32]) -> Mem<List<u32>>
    ensures { IfOk result (λ made. made ≡ kept_of inner.now (counted 0 count)) }
{
    let mut made = List::new(alloc);
    for root in 0..count {
        add_kept(&mut made, inner, root)?;
    }
    Ok(made)
}

/// Adds the root where it is none of the inner roots.
fn add_kept(made: &mut List<u32>, inner: &[u32], root: u32) -> Mem<()>
    ensures { OnOk result (made.new ≡ made.old ++ kept_of inner.now (root ∷ [])) }
{
    if has(root, inner) {
        return Ok(());
    }
    made.push(root)?;
    Ok(())
}

/// A component that is not the input's. Err is want of memory.
fn other_auto(alloc: Global, boxes: &[BoxFace], auto: &Auto, fields: &[u32]) -> Mem<Auto>
    requires top { fields.now ≢ [] → HasOneTop auto.now }
    requires ranked { IsRanked (other_auto boxes.now fields.now auto.now) }
    ensures { IfOk result (λ made. made ≡ other_auto boxes.now fields.now auto.now) }
{
    if fields.is_empty() {
        auto.copy(alloc)
    } else {
        output_auto(alloc, boxes, auto, fields)
    }
}

/// The component of the root after the fold. Err is want of memory.
fn folded_component(
    alloc: Global,
    boxes: &[BoxFace],
    ports: &[Port],
    box_no: u32,
    input: u32,
    output: Option<u32>,
    root: u32,
    auto: &Auto,
) -> Mem<Auto>
    requires { IsFoldable boxes.now (ports_of ports.now) box_no input output root auto.now }
    ensures { IfOk result
        (λ made. made ≡ folded_component boxes.now (ports_of ports.now) box_no input output root auto.now) }
{
    let fields = taken_at(alloc, ports, root)?;
    if input == root {
        input_auto(alloc, boxes, auto, fields.as_slice(), box_no, output)
    } else {
        other_auto(alloc, boxes, auto, fields.as_slice())
    }
}

/// The components of these roots after the fold. Err is want of memory.
fn folded_autos(
    alloc: Global,
    boxes: &[BoxFace],
    ports: &[Port],
    box_no: u32,
    input: u32,
    output: Option<u32>,
    roots: &[u32],
    autos: &[Auto],
) -> Mem<List<Auto>>
    requires { AreFoldable boxes.now (ports_of ports.now) box_no input output roots.now autos.now }
    ensures { IfOk result
        (λ made. made ≡ folded_autos boxes.now (ports_of ports.now) box_no input output roots.now autos.now) }
{
    let mut made = List::new(alloc);
    if let Some((root, others)) = roots.split_first() {
        if let Some((auto, more)) = autos.split_first() {
            let first = folded_component(alloc, boxes, ports, box_no, input, output, *root, auto)?;
            let rest = folded_autos(alloc, boxes, ports, box_no, input, output, others, more)?;
            made.push(first)?;
            made.append(rest)?;
        }
    }
    Ok(made)
}

/// The forest after the fold of the part at these ports, with these inner roots. Err is want of memory, also where
/// numbers of states and roots do not fit 32 bits.
pub fn fold_at(
    alloc: Global,
    forest: &Sound,
    face: &Face,
    ports: &[Port],
    inner: &List<u32>,
    box_no: u32,
    input: u32,
    output: Option<u32>,
) -> Mem<Sound>
    requires face { face.now ≡ forest.now.face }
    requires order { IsOrderOf forest.now.forest (kept_first forest.now.forest inner.now) }
    requires each { AreFoldable face.now.boxes (ports_of ports.now) box_no input (new_output inner.now output)
        (kept_of inner.now (counted 0 (length forest.now.forest.autos)))
        (reordered (kept_first forest.now.forest inner.now) forest.now.forest).autos }
    requires sound { IsSound face.now (reordered (kept_first forest.now.forest inner.now) forest.now.forest)
        → IsSound face.now (folded_forest face.now.boxes (ports_of ports.now) box_no input
        (new_output inner.now output) (kept_of inner.now (counted 0 (length forest.now.forest.autos)))
        (reordered (kept_first forest.now.forest inner.now) forest.now.forest)) }
    ensures value { IfOk result (λ made. made.forest ≡ folded_forest face.now.boxes (ports_of ports.now) box_no input
        (new_output inner.now output) (kept_of inner.now (counted 0 (length forest.now.forest.autos)))
        (reordered (kept_first forest.now.forest inner.now) forest.now.forest)) }
    ensures face { IfOk result (λ made. made.face ≡ face.now) }
{
    let kept = kept_roots(alloc, forest.forest(), inner.as_slice())?;
    let order = order_of(alloc, &kept, inner)?;
    let placed = reorder(alloc, forest, order.as_slice())?;
    placed.known();
    let end = new_output(inner.as_slice(), output);
    let boxes = face.boxes.as_slice();
    let made = folded_forest(
        alloc,
        boxes,
        placed.forest(),
        ports,
        box_no,
        input,
        end,
        &kept,
    )?;
    Sound::of(alloc, made, face)
}

/// The kept roots, and the inner ones behind them. Err is want of memory.
fn order_of(alloc: Global, kept: &List<u32>, inner: &List<u32>) -> Mem<List<u32>>
    ensures { IfOk result (λ order. order ≡ kept.now ++ inner.now) }
{
    let mut order = kept.copy(alloc)?;
    order.append(inner.copy(alloc)?)?;
    Ok(order)
}

fn folded_forest(
    alloc: Global,
    boxes: &[BoxFace],
    forest: &Forest,
    ports: &[Port],
    box_no: u32,
    input: u32,
    output: Option<u32>,
    roots: &List<u32>,
) -> Mem<Forest>
    requires { AreFoldable boxes.now (ports_of ports.now) box_no input output roots.now forest.now.autos }
    ensures { IfOk result
        (λ made. made ≡ folded_forest boxes.now (ports_of ports.now) box_no input output roots.now forest.now) }
{
    let autos = folded_autos(
        alloc,
        boxes,
        ports,
        box_no,
        input,
        output,
        roots.as_slice(),
        forest.autos.as_slice(),
    )?;
    Ok(Forest {
        autos,
        vars: forest.vars.copy(alloc)?,
        data_vars: forest.data_vars.copy(alloc)?,
    })
}
