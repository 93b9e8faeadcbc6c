// References to components that a box does not have.
ghost use Rattle.std.specs.Prelude.{◌≡◌, length};
ghost use Rattle.fa_written.specs.Drafts as spec;
ghost use Rattle.fa_written.specs.inner.Reached.{first_of, open_missing};

use crate::draft::{OpenBox, PartDraft, RuleDraft};
use fa_lines::line::Term;

fn missing_in(count: usize, line: u32, term: &Term) -> Option<u32>
    ensures { result ≡ first_of (spec.missing_in count line term.now) }
{
    match term {
        Term::Ref(root) => {
            if *root as usize >= count {
                Some(line)
            } else {
                None
            }
        }
        Term::Null | Term::Uninit | Term::Dangling | Term::Cell { .. } => None,
    }
}

#[tactic(auto, using(crate::proofs::FirstLemmas::first_here, crate::proofs::FirstLemmas::first_later))]
fn missing_rules(count: usize, rules: &[RuleDraft]) -> Option<u32>
    ensures { result ≡ first_of (spec.missing_rules count rules.now) }
{
    for rule in rules {
        if let Some(line) = missing_in(count, rule.line, &rule.term) {
            return Some(line);
        }
    }
    None
}

#[tactic(auto, using(crate::proofs::FirstLemmas::first_here, crate::proofs::FirstLemmas::first_later))]
fn missing_parts(count: usize, parts: &[PartDraft]) -> Option<u32>
    ensures { result ≡ first_of (spec.missing_parts count parts.now) }
{
    for part in parts {
        if let Some(line) = missing_rules(count, part.rules.as_slice()) {
            return Some(line);
        }
    }
    None
}

/// The line of the first rule of the open box that refers to a component that the box does not have.
pub fn missing(current: &Option<OpenBox>) -> Option<u32>
    ensures { result ≡ open_missing current.now }
{
    match current {
        Some(open) => missing_parts(open.parts.len(), open.parts.as_slice()),
        None => None,
    }
}
