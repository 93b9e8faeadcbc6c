// Whether each field of the cells at roots is given as often as it must: once in an inner cell, once at most at a port.

ghost use Rattle.std.specs.Prelude.{◌≡◌, ◌↔◌, ◌<◌, ◌^◌, ◌++◌, ℕ, true, nat_lt};
ghost use Rattle.std.specs.Prelude.{IfOk, OnOk, IsTrue, Some, length, slice_get, slice_set, flat_map};
ghost use Rattle.fore_base.specs.Lists.{IsIn, Every, Paired};
ghost use Rattle.ta_core.specs.Language.{IsTrim};
ghost use Rattle.fa_core.specs.Filled.{HasSome, covers, fields_of};
ghost use Rattle.fa_core.specs.Rearranged.{often};
ghost use Rattle.fa_filling.specs.Parted.{AreTopRules, IsRootRule};
ghost use Rattle.fa_giving.specs.inner.Totals.{AreExtremes, AllFit, IsGivenRight};
ghost use Rattle.fa_giving.specs.inner.Totals.{ForAll, ForTop, extremes_in, given_fields, none_given};
ghost use Rattle.fa_giving.specs.inner.Totals.{symbol_fields, rule_fields, AreIn, total, Adds};
ghost use Rattle.fa_giving.specs.inner.Worths.{AreWorths};

use crate::totals::{Extremes, Given, added, extremes_each, extremes_of, none_given, total};
use crate::worths::{Worth, rule_worth, worths};
use fa_core::faces::{BoxFace, Face};
use fa_filling::covering::covered;
use fa_filling::fields::fields_of;
use fa_filling::giving::often;
use fa_filling::parts::{is_one_of, top_rules};
use fore_base::list::List;
use fore_base::memory::Mem;
use std::alloc::Global;
use ta_core::auto::{Auto, Rule};
use ta_core::symbol::{Slot, Symbol};

/// A root, whether it is a port, and one of its fields.
#[derive(Clone, Copy)]
pub struct Place {
    pub port: bool,
    pub root: u32,
    pub field: u32,
}

/// Whether for each choice of trees each field of the cells at roots is given as often as it must; the first components
/// are ports. Err is want of memory.
pub fn are_roots_right(alloc: Global, face: &Face, ports: usize, autos: &[Auto]) -> Mem<bool>
    requires trim { Every IsTrim autos.now }
    requires full { Every HasSome autos.now }
    requires count { length autos.now < 2 ^ 32 }
    ensures { IfOk result (ForAll autos.now
        (λ ts. (r f : ℕ) → r < length autos.now → IsGivenRight face.now (nat_lt r ports) r f ts)) }
{
    for (place, auto) in autos.iter().enumerate() {
        if !is_root_right(alloc, face, place < ports, autos, auto, place as u32)? {
            return Ok(false);
        }
    }
    Ok(true)
}

/// Whether each field of the cells of this root is given as often as it must.
fn is_root_right(
    alloc: Global,
    face: &Face,
    port: bool,
    autos: &[Auto],
    auto: &Auto,
    root: u32,
) -> Mem<bool>
    requires trim { Every IsTrim autos.now }
    requires full { Every HasSome autos.now }
    requires own { slice_get autos.now root ≡ Some auto.now }
    ensures { IfOk result (ForAll autos.now (λ ts. (f : ℕ) → IsGivenRight face.now port root f ts)) }
{
    auto.known();
    let tops = top_rules(alloc, auto)?;
    let fields = fields_at(alloc, face, tops.as_slice())?;
    let yes = are_fields_right(
        alloc,
        face,
        port,
        autos,
        auto,
        root,
        tops.as_slice(),
        fields.as_slice(),
    )?;
    Ok(yes)
}

/// Whether these fields of the cells of the root are given as often as they must.
fn are_fields_right(
    alloc: Global,
    face: &Face,
    port: bool,
    autos: &[Auto],
    auto: &Auto,
    root: u32,
    tops: &[Rule],
    fields: &[u32],
) -> Mem<bool>
    requires trim { Every IsTrim autos.now }
    requires full { Every HasSome autos.now }
    requires own { slice_get autos.now root ≡ Some auto.now }
    requires tops { AreTopRules auto.now auto.now.rules tops.now }
    ensures { IfOk result (ForAll autos.now (λ ts. Every (λ f. IsGivenRight face.now port root f ts) fields.now)) }
{
    for field in fields {
        let place = Place {
            port,
            root,
            field: *field,
        };
        if !is_field_right(alloc, face, place, autos, auto, tops)? {
            return Ok(false);
        }
    }
    Ok(true)
}

/// Whether this field is.
fn is_field_right(
    alloc: Global,
    face: &Face,
    place: Place,
    autos: &[Auto],
    auto: &Auto,
    tops: &[Rule],
) -> Mem<bool>
    requires trim { Every IsTrim autos.now }
    requires full { Every HasSome autos.now }
    requires own { slice_get autos.now place.root ≡ Some auto.now }
    requires tops { AreTopRules auto.now auto.now.rules tops.now }
    ensures { IfOk result (ForAll autos.now (IsGivenRight face.now place.port place.root place.field)) }
{
    let all = given_each(alloc, face.boxes.as_slice(), autos, place.root, place.field)?;
    let table = worths(alloc, face.boxes.as_slice(), auto, place.root, place.field)?;
    are_tops_right(
        alloc,
        face,
        place,
        autos,
        auto,
        &all,
        table.as_slice(),
        tops,
    )
}

/// Whether it is in the cells by each of these rules of root states, where `all` has the extremes of the components.
fn are_tops_right(
    alloc: Global,
    face: &Face,
    place: Place,
    autos: &[Auto],
    auto: &Auto,
    all: &Given,
    table: &[Worth],
    tops: &[Rule],
) -> Mem<bool>
    requires trim { IsTrim auto.now }
    requires own { slice_get autos.now place.root ≡ Some auto.now }
    requires all { Paired (AreExtremes face.now.boxes place.root place.field) autos.now
        (extremes_in (length autos.now) all.now) }
    requires table { AreWorths face.now.boxes place.root place.field auto.now table.now }
    requires tops { AreTopRules auto.now auto.now.rules tops.now }
    ensures { IfOk result (ForAll autos.now (IsGivenRight face.now place.port place.root place.field)) }
{
    auto.known();
    for top in tops {
        if !is_top_right(alloc, face, place, autos, auto, all, table, top)? {
            return Ok(false);
        }
    }
    Ok(true)
}

fn is_top_right(
    alloc: Global,
    face: &Face,
    place: Place,
    _autos: &[Auto],
    _auto: &Auto,
    all: &Given,
    table: &[Worth],
    top: &Rule,
) -> Mem<bool>
    requires trim { IsTrim _auto.now }
    requires own { slice_get _autos.now place.root ≡ Some _auto.now }
    requires all { Paired (AreExtremes face.now.boxes place.root place.field) _autos.now
        (extremes_in (length _autos.now) all.now) }
    requires table { AreWorths face.now.boxes place.root place.field _auto.now table.now }
    requires rule { IsIn top.now _auto.now.rules }
    requires top { IsRootRule _auto.now top.now }
    ensures { IfOk result (ForTop _autos.now place.root _auto.now top.now
        (IsGivenRight face.now place.port place.root place.field)) }
{
    _auto.known();
    match &top.symbol {
        Symbol::Cell { shape, slots, .. } => {
            let own = extremes_of(rule_worth(
                face.boxes.as_slice(),
                table,
                top,
                place.root,
                place.field,
            ));
            let sum = total_with(alloc, _autos, all, place.root, own)?;
            let yes = is_cell_right(alloc, face, place, *shape, slots.as_slice(), sum)?;
            Ok(yes)
        }
        _ => Ok(true),
    }
}

/// For each component how often its trees give the field at the root. Err is want of memory.
fn given_each(alloc: Global, boxes: &[BoxFace], autos: &[Auto], root: u32, field: u32) -> Mem<Given>
    requires trim { Every IsTrim autos.now }
    requires full { Every HasSome autos.now }
    ensures { IfOk result (λ all. Paired (AreExtremes boxes.now root field) autos.now
        (extremes_in (length autos.now) all)) }
{
    let fields = given_fields(alloc, boxes)?;
    if !is_one_of(field, fields.as_slice()) {
        return Ok(Given::Nothing);
    }
    let all = extremes_each(alloc, boxes, autos, root, field)?;
    Ok(Given::Each(all))
}

/// All together, where the root's component has these in the place of its own.
fn total_with(
    alloc: Global,
    _autos: &[Auto],
    all: &Given,
    root: u32,
    own: Extremes,
) -> Mem<Extremes>
    requires { root < length _autos.now }
    ensures { IfOk result (λ sum. sum
        ≡ total none_given (slice_set (extremes_in (length _autos.now) all.now) root own)) }
{
    match all {
        Given::Nothing => Ok(added(none_given(), own)),
        Given::Each(all) => {
            let mut others = List::from_slice(alloc, all.as_slice())?;
            others.set_within(root as usize, own);
            Ok(total(others.as_slice()))
        }
    }
}

/// Whether the field is given as often as it must to a cell of the struct with these slots, by what the trees give
/// together.
fn is_cell_right(
    alloc: Global,
    face: &Face,
    place: Place,
    shape: u32,
    slots: &[Slot],
    sum: Extremes,
) -> Mem<bool>
    ensures { IfOk result (λ yes. IsTrue yes
        ↔ AllFit place.port (often place.field (fields_of face.now.shapes.structs shape))
        (often place.field (flat_map (covers face.now.boxes) slots.now)) sum) }
{
    let covered = covered(alloc, face.boxes.as_slice(), slots)?;
    let fields = fields_of(alloc, face.shapes.structs.as_slice(), shape)?;
    let need = often(place.field, fields.as_slice());
    let own = often(place.field, covered.as_slice());
    Ok(all_fit(place.port, need, own, sum))
}

/// Whether a number between the extremes, with `own`, is always what is needed; at a port, once at most.
fn all_fit(port: bool, need: usize, own: usize, sum: Extremes) -> bool
    ensures { IsTrue result ↔ AllFit port need own sum }
{
    let most = sum.most as usize;
    if port {
        return own <= 1 && most <= 1 - own;
    }
    own <= need && most <= need - own && (need <= own || !sum.none)
}

/// The fields of which there is something to ask at the cells by these rules, each once.
fn fields_at(alloc: Global, face: &Face, tops: &[Rule]) -> Mem<List<u32>>
    ensures { IfOk result (λ fields. AreIn fields (given_fields face.now.boxes ++ rule_fields face.now tops.now)) }
{
    let mut all = given_fields(alloc, face.boxes.as_slice())?;
    all.append(rule_fields(alloc, face, tops)?)?;
    each_once(alloc, all.as_slice())
}

fn given_fields(alloc: Global, boxes: &[BoxFace]) -> Mem<List<u32>>
    ensures { IfOk result (λ fields. fields ≡ given_fields boxes.now) }
{
    let mut all = List::new(alloc);
    for face in boxes {
        all.append(List::from_slice(alloc, face.gives_out.as_slice())?)?;
    }
    Ok(all)
}

fn rule_fields(alloc: Global, face: &Face, rules: &[Rule]) -> Mem<List<u32>>
    ensures { IfOk result (λ fields. fields ≡ rule_fields face.now rules.now) }
{
    let mut all = List::new(alloc);
    for rule in rules {
        all.append(symbol_fields(alloc, face, &rule.symbol)?)?;
    }
    Ok(all)
}

fn symbol_fields(alloc: Global, face: &Face, symbol: &Symbol) -> Mem<List<u32>>
    ensures { IfOk result (λ fields. fields ≡ symbol_fields face.now symbol.now) }
{
    match symbol {
        Symbol::Cell { shape, slots, .. } => {
            let mut fields = fields_of(alloc, face.shapes.structs.as_slice(), *shape)?;
            fields.append(covered(alloc, face.boxes.as_slice(), slots.as_slice())?)?;
            Ok(fields)
        }
        _ => Ok(List::new(alloc)),
    }
}

/// The numbers, each once.
fn each_once(alloc: Global, numbers: &[u32]) -> Mem<List<u32>>
    ensures { IfOk result (λ once. AreIn once numbers.now) }
{
    let mut once = List::new(alloc);
    for number in numbers {
        add(&mut once, *number)?;
    }
    Ok(once)
}

/// Adds the number where it is not there.
pub fn add(once: &mut List<u32>, number: u32) -> Mem<()>
    ensures { OnOk result (Adds number once.old once.new) }
{
    if !is_one_of(number, once.as_slice()) {
        once.push(number)?;
    }
    Ok(())
}
