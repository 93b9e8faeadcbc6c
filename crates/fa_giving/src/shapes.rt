// Whether the ends and the order of all cells are right, from the rules of the components.

ghost use Rattle.std.specs.Prelude.{◌≡◌, ◌<◌, ℕ, IfOk, OnOk, Some, length, slice_get};
ghost use Rattle.fore_base.specs.Lists.{Every, Paired};
ghost use Rattle.fa_core.specs.Filled.{HasSome};
ghost use Rattle.fa_filling.specs.Parted.{AreTopRules};
ghost use Rattle.fa_giving.specs.inner.Shaped.{IsShapedRoot, AreTopStructs, AreCellStructs, AddsStruct, ForStruct};
ghost use Rattle.fa_giving.specs.inner.Totals.{ForAll};

use crate::roots::add;
use fa_core::faces::Face;
use fa_filling::filling::are_shaped_rules;
use fa_filling::parts::{part_for, top_rules};
use fore_base::list::{Copies, List};
use fore_base::memory::Mem;
use std::alloc::Global;
use ta_core::auto::{Auto, Rule};
use ta_core::symbol::Symbol;

/// Whether for each choice of trees the ends of each cell fit and its slots stand in order. Err is want of memory.
pub fn are_shaped(alloc: Global, face: &Face, autos: &[Auto]) -> Mem<bool>
    requires full { Every HasSome autos.now }
    ensures { IfOk result (ForAll autos.now (λ ts. (r : ℕ) → r < length autos.now → IsShapedRoot face.now r ts)) }
{
    let mut tops = tops_each(alloc, autos)?;
    are_each_shaped(alloc, face, autos, &mut tops)
}

fn are_each_shaped(
    alloc: Global,
    face: &Face,
    autos: &[Auto],
    tops: &mut List<List<u32>>,
) -> Mem<bool>
    requires full { Every HasSome autos.now }
    requires tops { Paired AreTopStructs autos.now tops.old }
    ensures { IfOk result (ForAll autos.now (λ ts. (r : ℕ) → r < length autos.now → IsShapedRoot face.now r ts)) }
{
    for (place, auto) in autos.iter().enumerate() {
        if !is_shaped(alloc, face, autos, tops, auto, place)? {
            return Ok(false);
        }
    }
    Ok(true)
}

/// Whether it is so in the trees of this component: for each struct that may stand at their tops by itself, since the
/// trees may refer to their own root.
fn is_shaped(
    alloc: Global,
    face: &Face,
    autos: &[Auto],
    tops: &mut List<List<u32>>,
    auto: &Auto,
    place: usize,
) -> Mem<bool>
    requires full { Every HasSome autos.now }
    requires tops { Paired AreTopStructs autos.now tops.old }
    requires own { slice_get autos.now place ≡ Some auto.now }
    ensures shaped { IfOk result (ForAll autos.now (IsShapedRoot face.now place)) }
    ensures tops { IfOk result (λ _. Paired AreTopStructs autos.now tops.new) }
{
    let rules = top_rules(alloc, auto)?;
    let structs = structs_of(alloc, rules.as_slice())?;
    are_parts_shaped(
        alloc,
        face,
        autos,
        tops,
        auto,
        place,
        rules.as_slice(),
        structs.as_slice(),
    )
}

fn are_parts_shaped(
    alloc: Global,
    face: &Face,
    autos: &[Auto],
    tops: &mut List<List<u32>>,
    auto: &Auto,
    place: usize,
    rules: &[Rule],
    structs: &[u32],
) -> Mem<bool>
    requires full { Every HasSome autos.now }
    requires tops { Paired AreTopStructs autos.now tops.old }
    requires own { slice_get autos.now place ≡ Some auto.now }
    requires rules { AreTopRules auto.now auto.now.rules rules.now }
    requires structs { AreCellStructs rules.now structs.now }
    ensures shaped { IfOk result (ForAll autos.now (IsShapedRoot face.now place)) }
    ensures tops { IfOk result (λ _. Paired AreTopStructs autos.now tops.new) }
{
    for shape in structs {
        if !is_part_shaped(alloc, face, autos, tops, auto, place, rules, *shape)? {
            return Ok(false);
        }
    }
    Ok(true)
}

/// Whether it is so in the trees with a cell of this struct at the top. Meanwhile the list at this place has the struct
/// alone.
fn is_part_shaped(
    alloc: Global,
    face: &Face,
    _autos: &[Auto],
    tops: &mut List<List<u32>>,
    auto: &Auto,
    place: usize,
    rules: &[Rule],
    shape: u32,
) -> Mem<bool>
    requires full { Every HasSome _autos.now }
    requires tops { Paired AreTopStructs _autos.now tops.old }
    requires own { slice_get _autos.now place ≡ Some auto.now }
    requires rules { AreTopRules auto.now auto.now.rules rules.now }
    ensures shaped { IfOk result (ForStruct _autos.now place shape (IsShapedRoot face.now place)) }
    ensures tops { IfOk result (λ _. Paired AreTopStructs _autos.now tops.new) }
{
    let part = part_for(alloc, auto, rules, shape)?;
    let own = part.auto;
    own.known();
    let kept = tops.at(place).copy(alloc)?;
    let alone = List::filled(alloc, shape, 1)?;
    tops.set(place, alone);
    let yes = are_shaped_rules(alloc, face, tops.as_slice(), own.rules.as_slice())?;
    tops.set(place, kept);
    Ok(yes)
}

/// For each component the structs of the cells at the tops of its trees.
fn tops_each(alloc: Global, autos: &[Auto]) -> Mem<List<List<u32>>>
    ensures { IfOk result (Paired AreTopStructs autos.now) }
{
    let mut all = List::new(alloc);
    for auto in autos {
        let own = tops_of(alloc, auto)?;
        all.push(own)?;
    }
    Ok(all)
}

fn tops_of(alloc: Global, auto: &Auto) -> Mem<List<u32>>
    ensures { IfOk result (AreTopStructs auto.now) }
{
    auto.known();
    let rules = top_rules(alloc, auto)?;
    let structs = structs_of(alloc, rules.as_slice())?;
    Ok(structs)
}

/// The structs of the rules' cells, each once.
fn structs_of(alloc: Global, rules: &[Rule]) -> Mem<List<u32>>
    ensures { IfOk result (AreCellStructs rules.now) }
{
    let mut structs = List::new(alloc);
    for rule in rules {
        add_struct(&mut structs, &rule.symbol)?;
    }
    Ok(structs)
}

fn add_struct(structs: &mut List<u32>, symbol: &Symbol) -> Mem<()>
    ensures { OnOk result (AddsStruct symbol.now structs.old structs.new) }
{
    match symbol {
        Symbol::Cell { shape, .. } => {
            add(structs, *shape)?;
            Ok(())
        }
        _ => Ok(()),
    }
}
