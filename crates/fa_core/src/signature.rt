// Signatures: to which roots the trees of a state refer, and how.

ghost use Rattle.std.specs.Prelude.{◌≡◌, ◌↔◌, IsTrue};

use fore_base::list::{Copies, List};
use std::alloc::{AllocError, Global};

/// What the leaves of a tree that refer to one root have in common.
#[derive(PartialEq, Eq, Drop)]
pub struct RefMark {
    /// The root.
    pub root: u32,
    /// Whether more than one leaf refers to it.
    pub many: bool,
    /// The fields that box edges which end at these leaves give there, in rising order.
    pub provided: List<u32>,
    /// Whether the whole path from the top to some of these leaves leads back.
    pub back: bool,
    /// The roots to which the ways back by these leaves lead, in the order of the signature.
    pub reach: List<u32>,
}

/// The marks of the roots to which a tree refers, in the order of first visit.
#[derive(PartialEq, Eq, Drop)]
pub struct Signature {
    pub refs: List<RefMark>,
}

/// What stands at the end of an edge: whether it is a leaf, and the marks of its tree.
#[derive(PartialEq, Eq, Drop)]
pub struct Below {
    pub leaf: bool,
    pub marks: List<RefMark>,
}

impl RefMark {
    /// Whether both are one mark. Takes no memory.
    pub fn is_same(&self, other: &RefMark) -> bool
        ensures { IsTrue result ↔ (self.now ≡ other.now) }
    {
        self.root == other.root
            && self.many == other.many
            && same_numbers(self.provided.as_slice(), other.provided.as_slice())
            && self.back == other.back
            && same_numbers(self.reach.as_slice(), other.reach.as_slice())
    }
}

fn same_numbers(left: &[u32], right: &[u32]) -> bool
    ensures { IsTrue result ↔ (left.now ≡ right.now) }
{
    left == right
}

impl Copies for RefMark {
    fn copy(&self, alloc: Global) -> Result<RefMark, AllocError> {
        Ok(RefMark {
            root: self.root,
            many: self.many,
            provided: self.provided.copy(alloc)?,
            back: self.back,
            reach: self.reach.copy(alloc)?,
        })
    }
}

impl Copies for Signature {
    fn copy(&self, alloc: Global) -> Result<Signature, AllocError> {
        Ok(Signature {
            refs: self.refs.copy(alloc)?,
        })
    }
}

impl Copies for Below {
    fn copy(&self, alloc: Global) -> Result<Below, AllocError> {
        Ok(Below {
            leaf: self.leaf,
            marks: self.marks.copy(alloc)?,
        })
    }
}
