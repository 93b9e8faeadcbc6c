// Which component is to be asked for next.

ghost use Rattle.std.specs.Prelude.{◌<◌, ◌^◌, length, IfSome};
ghost use Rattle.fa_reach.specs.inner.Sweeps.{IsNext, IsUnknown};

use crate::part::Part;
use fore_base::list::List;

/// A component that is not known, where there is one. One to which a known one refers comes first, since there a look
/// at the known one mostly gives the answer.
pub fn next(parts: &[Part], known: &List<bool>) -> Option<u32>
    requires { length known.now < 2 ^ 32 }
    ensures { IsNext known.now result }
{
    match led_to(parts, known) {
        Some(root) => Some(root),
        None => first_unknown(known),
    }
}

fn first_unknown(known: &List<bool>) -> Option<u32>
    requires { length known.now < 2 ^ 32 }
    ensures { IsNext known.now result }
{
    for place in 0..known.len() as u32 {
        if !known.get_or(place as usize, true) {
            return Some(place);
        }
    }
    None
}

/// A component to which a known one refers by its first signature.
fn led_to(parts: &[Part], known: &List<bool>) -> Option<u32>
    ensures { IfSome result (IsUnknown known.now) }
{
    for (place, part) in parts.iter().enumerate() {
        if known.get_or(place, false) {
            let root = unknown_of(first_down(part), known);
            if root.is_some() {
                return root;
            }
        }
    }
    None
}

fn first_down(part: &Part) -> &[u32] {
    match part.downs.get(0) {
        Some(down) => down.as_slice(),
        None => &[],
    }
}

fn unknown_of(roots: &[u32], known: &List<bool>) -> Option<u32>
    ensures { IfSome result (IsUnknown known.now) }
{
    for root in roots {
        if !known.get_or(*root as usize, true) {
            return Some(*root);
        }
    }
    None
}
