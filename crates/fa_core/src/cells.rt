// The signature of a tree from its symbol and what stands below it.

ghost use Rattle.std.specs.Prelude.{◌≡◌, ◌++◌, ◌∷◌, [], false, filter, IfOk, OnOk};
ghost use Rattle.std.specs.Option.{option_copied};
ghost use Rattle.fa_core.specs.Cells.{edges, is_leaf, mark_of, many_from, provided_in, provided_at, back_in, back_at};
ghost use Rattle.fa_core.specs.Cells.{reach_in, reach_at, cell_mark, cell_roots, cell_marks, marks_by, leaf_mark};
ghost use Rattle.fa_core.specs.Cells.{roots_in};
ghost use Rattle.fa_core.specs.Ways.{is_back, gives_out_of, has, once_from};

use crate::faces::BoxFace;
use crate::ordering::in_order;
use crate::signature::{Below, RefMark};
use fore_base::list::{Copies, List};
use fore_base::memory::Mem;
use std::alloc::Global;
use ta_core::symbol::{Slot, Symbol};

/// Whether the symbol is a leaf's.
pub fn is_leaf(symbol: &Symbol) -> bool
    ensures { result ≡ is_leaf symbol.now }
{
    match symbol {
        Symbol::Cell { .. } => false,
        _ => true,
    }
}

/// The signature of a tree with this symbol, over children of which these things are known. Err is want of memory.
pub fn marks_by(
    alloc: Global,
    boxes: &[BoxFace],
    symbol: &Symbol,
    belows: &[Below],
) -> Mem<List<RefMark>>
    ensures { IfOk result (λ marks. marks ≡ marks_by boxes.now symbol.now belows.now) }
{
    match symbol {
        Symbol::Ref(root) => leaf_marks(alloc, *root),
        Symbol::Cell { slots, .. } => {
            let edges = edges(alloc, slots.as_slice(), belows)?;
            cell_marks(alloc, boxes, edges.as_slice())
        }
        _ => Ok(List::new(alloc)),
    }
}

fn leaf_marks(alloc: Global, root: u32) -> Mem<List<RefMark>>
    ensures { IfOk result (λ marks. marks ≡ leaf_mark root ∷ []) }
{
    let mut marks = List::new(alloc);
    marks.push(RefMark {
        root,
        many: false,
        provided: List::new(alloc),
        back: false,
        reach: List::new(alloc),
    })?;
    Ok(marks)
}

/// The slots that have a child, each with what stands in its place.
pub fn edges<T: Copies>(alloc: Global, slots: &[Slot], items: &[T]) -> Mem<List<(Slot, T)>>
    ensures { IfOk result (λ made. made ≡ edges slots.now items.now) }
{
    let mut made = List::new(alloc);
    let mut place: usize = 0;
    for slot in slots {
        match slot {
            Slot::Hook(_) => {}
            Slot::Field(_) | Slot::Link(_) => {
                if place >= items.len() {
                    return Ok(made);
                }
                let item = items[place].copy(alloc)?;
                made.push((*slot, item))?;
                place += 1;
            }
        }
    }
    Ok(made)
}

/// The signature of a cell over these edges.
fn cell_marks(alloc: Global, boxes: &[BoxFace], edges: &[(Slot, Below)]) -> Mem<List<RefMark>>
    ensures { IfOk result (λ marks. marks ≡ cell_marks boxes.now edges.now) }
{
    let roots = cell_roots(alloc, edges)?;
    let mut marks = List::new(alloc);
    for root in roots.as_slice() {
        let mark = cell_mark(alloc, boxes, edges, roots.as_slice(), *root)?;
        marks.push(mark)?;
    }
    Ok(marks)
}

/// The mark of one of these roots, to which the cell refers.
fn cell_mark(
    alloc: Global,
    boxes: &[BoxFace],
    edges: &[(Slot, Below)],
    roots: &[u32],
    root: u32,
) -> Mem<RefMark>
    ensures { IfOk result (λ mark. mark ≡ cell_mark boxes.now edges.now roots.now root) }
{
    let fields = provided_at(alloc, boxes, root, edges)?;
    let provided = in_order(alloc, fields.as_slice())?;
    let led = reach_at(alloc, boxes, roots, root, edges)?;
    let reach = those_in(alloc, led.as_slice(), roots)?;
    Ok(RefMark {
        root,
        many: is_many(root, edges),
        provided,
        back: is_back_at(boxes, root, edges),
        reach,
    })
}

/// The roots to which the cell refers, in the order of first visit.
fn cell_roots(alloc: Global, edges: &[(Slot, Below)]) -> Mem<List<u32>>
    ensures { IfOk result (λ roots. roots ≡ cell_roots edges.now) }
{
    let mut roots = List::new(alloc);
    for edge in edges {
        add_roots(&mut roots, edge.1.marks.as_slice())?;
    }
    Ok(roots)
}

/// Adds the roots of the marks that are not there yet.
fn add_roots(roots: &mut List<u32>, marks: &[RefMark]) -> Mem<()>
    ensures { OnOk result (roots.new ≡ roots.old ++ once_from roots.old (roots_in marks.now)) }
{
    for mark in marks {
        if !has(mark.root, roots.as_slice()) {
            roots.push(mark.root)?;
        }
    }
    Ok(())
}

/// Whether the number is in the list.
pub fn has(number: u32, numbers: &[u32]) -> bool
    ensures { result ≡ has number numbers.now }
{
    for other in numbers {
        if number == *other {
            return true;
        }
    }
    false
}

/// Those of the numbers that are in the list.
fn those_in(alloc: Global, list: &[u32], numbers: &[u32]) -> Mem<List<u32>>
    ensures { IfOk result (λ those. those ≡ filter (λ n. has n list.now) numbers.now) }
{
    let mut those = List::new(alloc);
    for number in numbers {
        if has(*number, list) {
            those.push(*number)?;
        }
    }
    Ok(those)
}

/// The mark of the root, if there is one.
fn mark_of<'a>(root: u32, marks: &'a [RefMark]) -> Option<&'a RefMark>
    ensures { option_copied result ≡ mark_of root marks.entry.now }
{
    for mark in marks {
        if root == mark.root {
            return Some(mark);
        }
    }
    None
}

/// Whether the cell refers to the root more than once.
fn is_many(root: u32, edges: &[(Slot, Below)]) -> bool
    ensures { result ≡ many_from false root edges.now }
{
    let mut one = false;
    for edge in edges {
        if let Some(mark) = mark_of(root, edge.1.marks.as_slice()) {
            if mark.many || one {
                return true;
            }
            one = true;
        }
    }
    false
}

/// Whether some path to the root leads back.
fn is_back_at(boxes: &[BoxFace], root: u32, edges: &[(Slot, Below)]) -> bool
    ensures { result ≡ back_at boxes.now root edges.now }
{
    for edge in edges {
        if is_back_in(
            boxes,
            mark_of(root, edge.1.marks.as_slice()),
            edge.0,
            edge.1.leaf,
        ) {
            return true;
        }
    }
    false
}

fn is_back_in(boxes: &[BoxFace], mark: Option<&RefMark>, slot: Slot, leaf: bool) -> bool
    ensures { result ≡ back_in boxes.now (option_copied mark.entry) slot leaf }
{
    match mark {
        None => false,
        Some(mark) => is_back(boxes, slot) && (leaf || mark.back),
    }
}

/// Whether the slot's edge leads back.
fn is_back(boxes: &[BoxFace], slot: Slot) -> bool
    ensures { result ≡ is_back boxes.now slot }
{
    match slot {
        Slot::Link(number) => match boxes.get(number as usize) {
            Some(face) => face.back,
            None => false,
        },
        _ => false,
    }
}

/// The fields that are provided at the root.
fn provided_at(
    alloc: Global,
    boxes: &[BoxFace],
    root: u32,
    edges: &[(Slot, Below)],
) -> Mem<List<u32>>
    ensures { IfOk result (λ fields. fields ≡ provided_at boxes.now root edges.now) }
{
    let mut fields = List::new(alloc);
    for edge in edges {
        let more = provided_in(
            alloc,
            boxes,
            mark_of(root, edge.1.marks.as_slice()),
            edge.0,
            edge.1.leaf,
        )?;
        fields.append(more)?;
    }
    Ok(fields)
}

fn provided_in(
    alloc: Global,
    boxes: &[BoxFace],
    mark: Option<&RefMark>,
    slot: Slot,
    leaf: bool,
) -> Mem<List<u32>>
    ensures { IfOk result (λ fields. fields ≡ provided_in boxes.now (option_copied mark.entry) slot leaf) }
{
    match mark {
        None => Ok(List::new(alloc)),
        Some(mark) => match slot {
            Slot::Link(number) => {
                if leaf {
                    gives_out(alloc, boxes, number)
                } else {
                    mark.provided.copy(alloc)
                }
            }
            _ => mark.provided.copy(alloc),
        },
    }
}

/// The fields that the box gives to its output.
fn gives_out(alloc: Global, boxes: &[BoxFace], number: u32) -> Mem<List<u32>>
    ensures { IfOk result (λ fields. fields ≡ gives_out_of boxes.now number) }
{
    match boxes.get(number as usize) {
        Some(face) => face.gives_out.copy(alloc),
        None => Ok(List::new(alloc)),
    }
}

/// The roots to which the ways back from the root lead, in any order.
fn reach_at(
    alloc: Global,
    boxes: &[BoxFace],
    roots: &[u32],
    root: u32,
    edges: &[(Slot, Below)],
) -> Mem<List<u32>>
    ensures { IfOk result (λ led. led ≡ reach_at boxes.now roots.now root edges.now) }
{
    let mut led = List::new(alloc);
    for edge in edges {
        let more = reach_in(
            alloc,
            boxes,
            roots,
            mark_of(root, edge.1.marks.as_slice()),
            edge.0,
            edge.1.leaf,
        )?;
        led.append(more)?;
    }
    Ok(led)
}

fn reach_in(
    alloc: Global,
    boxes: &[BoxFace],
    roots: &[u32],
    mark: Option<&RefMark>,
    slot: Slot,
    leaf: bool,
) -> Mem<List<u32>>
    ensures { IfOk result (λ led. led ≡ reach_in boxes.now roots.now (option_copied mark.entry) slot leaf) }
{
    match mark {
        None => Ok(List::new(alloc)),
        Some(mark) => {
            if is_back(boxes, slot) && (leaf || mark.back) {
                Ok(List::from_vec(roots.to_vec(alloc)?))
            } else {
                mark.reach.copy(alloc)
            }
        }
    }
}
