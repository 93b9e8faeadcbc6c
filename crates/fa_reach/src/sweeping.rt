// Sets of components, from which those are taken out that cannot keep out of the others.

ghost use Rattle.std.specs.Prelude.{◌≡◌, ◌<◌, ◌^◌, true, false, length};
ghost use Rattle.fore_base.specs.Marks.{marked_count};
ghost use Rattle.fa_reach.specs.inner.Sweeps.{kept_at, has_down, sweep_hops, sweep_part, sweep_parts, IsClosed};

use crate::part::Part;
use fa_back::Hop;
use fore_base::list::List;
use fore_base::marks::{are_all_marked, count_marked, is_marked};

/// Takes out what has no signature whose roots are all in the set, and what leads back out of it. Whether the set fell.
pub fn sweep(parts: &[Part], set: &mut List<bool>) -> bool
    requires { length parts.now < 2 ^ 32 }
    ensures swept { set.new ≡ sweep_parts 0 parts.now set.old }
    ensures fell { result ≡ true → marked_count set.new < marked_count set.old }
    ensures done { result ≡ false → (set.new ≡ set.old) × IsClosed parts.now set.new }
{
    let before = count_marked(set.as_slice());
    sweep_parts(parts, set);
    count_marked(set.as_slice()) < before
}

fn sweep_parts(parts: &[Part], set: &mut List<bool>)
    requires { length parts.now < 2 ^ 32 }
    ensures { set.new ≡ sweep_parts 0 parts.now set.old }
{
    let mut place: u32 = 0;
    for part in parts {
        sweep_part(place, part, set);
        place += 1;
    }
}

fn sweep_part(place: u32, part: &Part, set: &mut List<bool>)
    ensures { set.new ≡ sweep_part place part.now set.old }
{
    let stays = has_down(set.as_slice(), part.downs.as_slice());
    keep_at(set, place, stays);
    sweep_hops(part.hops.as_slice(), set);
}

fn sweep_hops(hops: &[Hop], set: &mut List<bool>)
    ensures { set.new ≡ sweep_hops hops.now set.old }
{
    for hop in hops {
        let stays = is_marked(set.as_slice(), hop.to);
        keep_at(set, hop.from, stays);
    }
}

fn keep_at(set: &mut List<bool>, root: u32, stays: bool)
    ensures { set.new ≡ kept_at set.old root stays }
{
    if !stays {
        set.set_within(root as usize, false);
    }
}

/// Whether the roots of some signature are all in the set.
fn has_down(set: &[bool], downs: &[List<u32>]) -> bool
    ensures { result ≡ has_down set.now downs.now }
{
    for down in downs {
        if are_all_marked(set, down.as_slice()) {
            return true;
        }
    }
    false
}
