// The first fault so far.
ghost use Rattle.std.specs.Prelude.{◌≡◌, ◌∷◌, [], Some, None};
ghost use Rattle.c_typing.specs.declared.fault.TypeFault.TheVariants.{Rule, Limit};
ghost use Rattle.c_typing.specs.Orders.{before, less, ranks};
ghost use Rattle.c_expressions.specs.First.{earlier_of, first_from};

use c_typing::TypeFault;
use fore_base::place::Place;

/// Whether one list of numbers comes before another: the first that differ decide, and a list comes after its
/// beginnings.
fn is_less(left: &[u32], right: &[u32]) -> bool
    ensures { result ≡ less left.now right.now }
{
    match left {
        [] => !right.is_empty(),
        [a, less @ ..] => match right {
            [] => false,
            [b, more @ ..] => *a < *b || (*a == *b && is_less(less, more)),
        },
    }
}

/// Whether these numbers come before those of a fault.
fn is_less_than(left: &[u32], fault: TypeFault) -> bool
    ensures { result ≡ less left.now (ranks fault) }
{
    match fault {
        TypeFault::Rule { rule, at } => {
            is_less(left, &[at.offset, 0, rule as u32, at.line, at.column])
        }
        TypeFault::Limit { limit, at } => {
            is_less(left, &[at.offset, 1, limit as u32, at.line, at.column])
        }
        TypeFault::Memory => is_less(left, &[]),
    }
}

/// Whether one fault comes before another: by its place, then rules before limits, then by its number.
fn is_before(fault: TypeFault, other: TypeFault) -> bool
    ensures { result ≡ before fault other }
{
    match fault {
        TypeFault::Rule { rule, at } => {
            is_less_than(&[at.offset, 0, rule as u32, at.line, at.column], other)
        }
        TypeFault::Limit { limit, at } => {
            is_less_than(&[at.offset, 1, limit as u32, at.line, at.column], other)
        }
        TypeFault::Memory => is_less_than(&[], other),
    }
}

/// The earlier of the first fault so far and one more.
fn earlier(first: Option<TypeFault>, fault: TypeFault) -> TypeFault
    ensures { result ≡ earlier_of first fault }
{
    match first {
        None => fault,
        Some(other) => {
            if is_before(fault, other) {
                fault
            } else {
                other
            }
        }
    }
}

/// Notes that a rule is broken at a place.
pub fn note_rule(first: &mut Option<TypeFault>, rule: u8, at: Place)
    ensures { first.new ≡ first_from first.old (Rule rule at ∷ []) }
{
    let fault = TypeFault::Rule { rule, at };
    *first = Some(earlier(*first, fault));
}

/// Notes that a limit is passed at a place.
pub fn note_limit(first: &mut Option<TypeFault>, limit: u8, at: Place)
    ensures { first.new ≡ first_from first.old (Limit limit at ∷ []) }
{
    let fault = TypeFault::Limit { limit, at };
    *first = Some(earlier(*first, fault));
}
