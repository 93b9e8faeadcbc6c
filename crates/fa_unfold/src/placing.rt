// The leaves that references of an inside are outside.

ghost use Rattle.std.specs.Prelude.{◌≡◌, ◌+◌, IfOk};
ghost use Rattle.fa_unfold.specs.Outside.{outside, outside_hook};

use fa_core::forest::Target;
use fa_merge::placing::Leaves;
use fore_base::memory::Mem;
use std::alloc::AllocError;

/// Where the inside of an edge is put: the root at which the edge begins, the leaf at which it ends, if it has an end,
/// and how many roots there are.
#[derive(Clone, Copy)]
pub struct Site {
    pub root: u32,
    pub end: Option<Target>,
    pub count: u32,
}

impl Leaves for Site {
    ghost use Rattle.fa_unfold.specs.Outside.{outer};

    ghost leaf_of = { λ site. outer site.root site.end site.count };

    fn leaf(&self, number: u32) -> Mem<Target> {
        match self.end {
            Some(end) => link_leaf(self.root, end, self.count, number),
            None => hook_leaf(self.root, self.count, number),
        }
    }
}

fn link_leaf(root: u32, end: Target, count: u32, number: u32) -> Mem<Target>
    ensures { IfOk result (λ leaf. leaf ≡ outside root end count number) }
{
    if number == 0 {
        return Ok(Target::At(root));
    }
    if number == 1 {
        return Ok(end);
    }
    behind(count, number - 2)
}

fn hook_leaf(root: u32, count: u32, number: u32) -> Mem<Target>
    ensures { IfOk result (λ leaf. leaf ≡ outside_hook root count number) }
{
    if number == 0 {
        return Ok(Target::At(root));
    }
    behind(count, number - 1)
}

/// The root of this number behind the others.
fn behind(count: u32, number: u32) -> Mem<Target>
    ensures { IfOk result (λ leaf. leaf ≡ Target.At (count + number)) }
{
    match count.checked_add(number) {
        Some(root) => Ok(Target::At(root)),
        None => Err(AllocError),
    }
}
