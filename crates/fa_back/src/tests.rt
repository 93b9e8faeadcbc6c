// Roots that are reached, worked out by hand.

ghost use Rattle.std.specs.Prelude.{IsTrue};
ghost use Rattle.fore_base.specs.Lists.{Every};
ghost use Rattle.fa_core.specs.References.{AllBelow};
ghost use Rattle.fa_back.specs.Reached.{AllNameBelow, NamesBelow};

use crate::closure::reached;
use fa_core::signature::{RefMark, Signature};
use fore_base::list::List;
use fore_base::memory::Mem;
use std::alloc::{AllocError, Global};
use std::test::Fail;

// a mark: the root of its tree, its own root, whether the whole way leads back, the roots of its reach
type Row = (usize, u32, bool, &'static [u32]);

// how many roots, the marks, the roots of which some are reached, and whether each is reached
const ROWS: [(usize, &[Row], &[u32], &[bool]); 7] = [
    // a doubly linked list folded into edges, with its variable at the tail
    (2, &[(1, 0, true, &[0])], &[0], &[true, true]),
    // two rings that one way back reaches
    (
        3,
        &[
            (1, 0, false, &[0, 1, 2]),
            (1, 1, false, &[]),
            (1, 2, false, &[]),
            (2, 2, false, &[]),
        ],
        &[0],
        &[true, true, true],
    ),
    // a ring to which the cell at the end of the way back does not refer
    (
        2,
        &[(1, 0, false, &[0]), (1, 1, false, &[])],
        &[0],
        &[true, false],
    ),
    // a way back from a root that is not reached
    (3, &[(1, 2, true, &[2])], &[0], &[true, false, false]),
    // references alone
    (
        3,
        &[(0, 1, false, &[]), (1, 2, false, &[])],
        &[1],
        &[false, true, true],
    ),
    // a way back that leads on by a reference
    (
        4,
        &[(2, 0, true, &[0, 3]), (2, 3, false, &[])],
        &[0],
        &[true, false, true, true],
    ),
    // none to begin with
    (2, &[(0, 1, false, &[])], &[], &[false, false]),
];

#[test]
fn roots_are_reached_by_references_and_ways_back(rt: HostRuntime) -> Result<(), Fail> {
    for (count, marks, from, wanted) in ROWS {
        let signatures = signatures_of(rt.alloc(), count, marks)?;
        let found = found(rt.alloc(), signatures.as_slice(), from)?;
        assert!(rt; found.is_some(), "{marks:?}");
        if let Some(found) = found {
            assert_eq!(rt; found.as_slice(), wanted, "{marks:?}");
        }
    }
    Ok(())
}

fn found(alloc: Global, signatures: &[Signature], from: &[u32]) -> Mem<Option<List<bool>>> {
    let count = signatures.len();
    if count < 100 && are_below(count, from) && all_name_below(count, signatures) {
        let marks = reached(alloc, signatures, from)?;
        return Ok(Some(marks));
    }
    Ok(None)
}

fn all_name_below(count: usize, signatures: &[Signature]) -> bool
    ensures { IsTrue result → AllNameBelow count signatures.now }
{
    for signature in signatures {
        if !marks_name_below(count, signature.refs.as_slice()) {
            return false;
        }
    }
    true
}

fn marks_name_below(count: usize, marks: &[RefMark]) -> bool
    ensures { IsTrue result → Every (NamesBelow count) marks.now }
{
    for mark in marks {
        if !names_below(count, mark) {
            return false;
        }
    }
    true
}

fn names_below(count: usize, mark: &RefMark) -> bool
    ensures { IsTrue result → NamesBelow count mark.now }
{
    (mark.root as usize) < count && are_below(count, mark.reach.as_slice())
}

fn are_below(count: usize, numbers: &[u32]) -> bool
    ensures { IsTrue result → AllBelow count numbers.now }
{
    for number in numbers {
        if (*number as usize) >= count {
            return false;
        }
    }
    true
}

fn signatures_of(alloc: Global, count: usize, rows: &[Row]) -> Result<List<Signature>, AllocError> {
    let mut signatures = List::new(alloc);
    for root in 0..count {
        let refs = marks_of(alloc, root, rows)?;
        signatures.push(Signature { refs })?;
    }
    Ok(signatures)
}

fn marks_of(alloc: Global, root: usize, rows: &[Row]) -> Result<List<RefMark>, AllocError> {
    let mut refs = List::new(alloc);
    for (own, to, back, reach) in rows {
        if *own == root {
            let reach = List::from_slice(alloc, reach)?;
            refs.push(RefMark {
                root: *to,
                many: false,
                provided: List::new(alloc),
                back: *back,
                reach,
            })?;
        }
    }
    Ok(refs)
}
