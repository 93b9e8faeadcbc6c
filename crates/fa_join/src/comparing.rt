// In which places two lists of automata, or of states, have other languages.

ghost use Rattle.std.specs.Prelude.{◌≡◌, ◌<◌, ◌↔◌, length, IsTrue, IfOk};
ghost use Rattle.fore_base.specs.Lists.{Every};
ghost use Rattle.ta_core.specs.Language.{HasSameLanguage};
ghost use Rattle.fa_join.specs.Joinable.{SameRuns};
ghost use Rattle.fa_join.specs.declared.comparing.Apart.TheVariants.{More};
ghost use Rattle.fa_join.specs.inner.Apart.{IsApart, apart_with, at_state};

use fa_split::one_root;
use fore_base::list::Copies;
use fore_base::memory::Mem;
use std::alloc::Global;
use ta_core::auto::Auto;
use ta_incl::is_included;

/// The places at which two lists differ: none, this one, or more.
#[derive(Clone, Copy, PartialEq, Eq)]
pub enum Apart {
    Nowhere,
    At(usize),
    More,
}

/// The places with one more, by whether the items there are the same.
fn with_place(found: Apart, place: usize, is_same: bool) -> Apart
    ensures { result ≡ apart_with found place is_same }
{
    if is_same {
        return found;
    }
    match found {
        Apart::Nowhere => Apart::At(place),
        _ => Apart::More,
    }
}

/// Whether there are more than one.
fn is_more(found: Apart) -> bool
    ensures { IsTrue result ↔ (found ≡ More) }
{
    match found {
        Apart::More => true,
        _ => false,
    }
}

/// The places at which the automata have other languages. After two no more is looked at.
pub fn autos_apart(alloc: Global, left: &[Auto], right: &[Auto]) -> Mem<Apart>
    requires { length left.now ≡ length right.now }
    ensures { IfOk result (IsApart HasSameLanguage left.now right.now (length left.now)) }
{
    let mut found = Apart::Nowhere;
    for place in 0..left.len() {
        let is_same = is_same(alloc, &left[place], &right[place])?;
        found = with_place(found, place, is_same);
        if is_more(found) {
            return Ok(found);
        }
    }
    Ok(found)
}

/// The places at which the states of the left automaton have other trees than those of the right one. After two no more
/// is looked at.
pub fn states_apart(
    alloc: Global,
    left: &Auto,
    right: &Auto,
    from: &[u32],
    to: &[u32],
) -> Mem<Apart>
    requires long { length from.now ≡ length to.now }
    requires left { Every (λ q. q < left.now.states) from.now }
    requires right { Every (λ q. q < right.now.states) to.now }
    ensures { IfOk result (IsApart (SameRuns left.now right.now) from.now to.now (length from.now)) }
{
    let mut found = Apart::Nowhere;
    for place in 0..from.len() {
        let is_same = is_same_state(alloc, left, right, from[place], to[place])?;
        found = with_place(found, place, is_same);
        if is_more(found) {
            return Ok(found);
        }
    }
    Ok(found)
}

/// Whether both automata have the same trees.
fn is_same(alloc: Global, left: &Auto, right: &Auto) -> Mem<bool>
    ensures { IfOk result (λ yes. IsTrue yes ↔ HasSameLanguage left.now right.now) }
{
    let is_within = is_included(alloc, left, right)?;
    if !is_within {
        return Ok(false);
    }
    is_included(alloc, right, left)
}

/// Whether the two states have the same trees.
fn is_same_state(alloc: Global, left: &Auto, right: &Auto, from: u32, to: u32) -> Mem<bool>
    requires left { from < left.now.states }
    requires right { to < right.now.states }
    ensures { IfOk result (λ yes. IsTrue yes ↔ SameRuns left.now right.now from to) }
{
    let left = with_root(alloc, left, from)?;
    let right = with_root(alloc, right, to)?;
    is_same(alloc, &left, &right)
}

/// The automaton of the trees of the state.
fn with_root(alloc: Global, auto: &Auto, state: u32) -> Mem<Auto>
    requires { state < auto.now.states }
    ensures { IfOk result (λ made. made ≡ at_state auto.now state) }
{
    auto.known();
    let roots = one_root(alloc, state)?;
    let rules = auto.rules.copy(alloc)?;
    Ok(Auto {
        states: auto.states,
        roots,
        rules,
    })
}
