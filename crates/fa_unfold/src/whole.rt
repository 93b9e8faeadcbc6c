// A box edge of a root replaced by the inside of its box: the public call.

ghost use Rattle.std.specs.Prelude.{◌≡◌, ◌↔◌, Some, slice_get, IfOk};
ghost use Rattle.fore_base.specs.Lists.{IsIn, Every};
ghost use Rattle.fa_sound.specs.Soundness.{SoundForest};
ghost use Rattle.fa_sound.specs.Unions.{forests};
ghost use Rattle.fa_split.specs.Divided.{HasVarsOf};
ghost use Rattle.fa_unfold.specs.Sites.{IsLinkAtSlot};
ghost use Rattle.fa_unfold.specs.Unfolded.{UnfoldsFrom, UnfoldsInto};
ghost use Rattle.fa_unfold.specs.UnfoldingOf.{CanUnfold, HaveMembersOf, IsUnfoldingOf};
ghost use Rattle.fa_unfold.specs.inner.Cuts.{HasLinkAt, IsUnfolded, IsUnfoldedPart};

use crate::edges::{child_place, edge_at, end_of};
use crate::tables::{replace_hook, replace_link};
use fa_core::table::BoxTable;
use fa_sound::Sound;
use fa_split::split_child;
use fore_base::list::List;
use fore_base::memory::Mem;
use std::alloc::Global;
use ta_core::symbol::Slot;

/// The forests in which the Link or Hook at the slot of the root is replaced by the inside of its box. The root has one
/// rule, and `slot` counts its slots, Hooks with them. Where a Link's child may be several leaves or a cell, there are
/// forests for each; where it is a cell, its cells are a new last root, before the inner roots of the inside. The root
/// and the end keep their numbers. Err is want of memory, also where numbers of states and roots do not fit 32 bits.
pub fn unfold(
    alloc: Global,
    forest: &Sound,
    table: &BoxTable,
    root: u32,
    slot: usize,
) -> Mem<List<Sound>>
    requires can { CanUnfold forest.now.forest root slot }
    requires face { table.now.face ≡ forest.now.face }
    ensures unfolded { IfOk result
        (λ made. Every (IsUnfoldingOf table.now forest.now.forest root slot) (forests made)) }
    ensures face { IfOk result (λ made. Every (λ s. s.face ≡ forest.now.face) made) }
    ensures vars { IfOk result (λ made. Every (HasVarsOf forest.now.forest) (forests made)) }
    ensures each { IfOk result
        (λ made. Every (UnfoldsFrom table.now.defs forest.now.forest root slot) (forests made)) }
    ensures whole { IfOk result (λ made. UnfoldsInto table.now.defs forest.now.forest root slot (forests made)) }
    ensures members { IfOk result (λ made. HaveMembersOf table.now.defs forest.now.forest (forests made)) }
{
    let made = unfold_edge(alloc, forest, table, root, slot)?;
    Ok(made)
}

fn unfold_edge(
    alloc: Global,
    forest: &Sound,
    table: &BoxTable,
    root: u32,
    slot: usize,
) -> Mem<List<Sound>>
    requires can { CanUnfold forest.now.forest root slot }
    requires face { table.now.face ≡ forest.now.face }
    ensures each { IfOk result (Every (IsUnfolded table.now forest.now.forest root slot)) }
    ensures whole { IfOk result (λ made. UnfoldsInto table.now.defs forest.now.forest root slot (forests made)) }
{
    forest.known();
    match edge_at(forest.forest(), root, slot) {
        Slot::Link(number) => unfold_link_slot(alloc, forest, table, root, slot, number),
        Slot::Hook(number) => {
            let made = replace_hook(alloc, forest, table, root, slot, number)?;
            Ok(made)
        }
        Slot::Field(_) => unreachable!(),
    }
}

/// So where it is a Link, whose child is split first.
fn unfold_link_slot(
    alloc: Global,
    forest: &Sound,
    table: &BoxTable,
    root: u32,
    slot: usize,
    number: u32,
) -> Mem<List<Sound>>
    requires face { table.now.face ≡ forest.now.face }
    requires at { IsLinkAtSlot forest.now.forest root slot number }
    ensures each { IfOk result (Every (IsUnfolded table.now forest.now.forest root slot)) }
    ensures whole { IfOk result (λ made. UnfoldsInto table.now.defs forest.now.forest root slot (forests made)) }
{
    forest.known();
    table.known();
    let place = child_place(forest.forest(), root, slot, number);
    let parts = split_child(alloc, forest, root, place)?;
    let made = unfold_parts(alloc, parts.as_slice(), table, root, slot, number)?;
    Ok(made)
}

/// So for a Link of each of the forests, at whose end one leaf stands alone.
fn unfold_parts(
    alloc: Global,
    parts: &[Sound],
    table: &BoxTable,
    root: u32,
    slot: usize,
    number: u32,
) -> Mem<List<Sound>>
    requires face { Every (λ s. table.now.face ≡ s.face) parts.now }
    requires at { Every (λ s. HasLinkAt s.forest root slot number) parts.now }
    ensures each { IfOk result (Every (IsUnfoldedPart table.now parts.now root slot)) }
    ensures whole { IfOk result (λ made. (S : SoundForest) → IsIn S parts.now
        → UnfoldsInto table.now.defs S.forest root slot (forests made)) }
{
    let mut made = List::new(alloc);
    for part in parts {
        part.known();
        let end = end_of(part.forest(), root, slot, number);
        let more = replace_link(alloc, part, table, root, slot, number, end)?;
        made.append(more)?;
    }
    Ok(made)
}
