// The bodies of functions, found by their names, and the head of `main`.
ghost use Rattle.std.specs.Prelude.{◌≡◌};
ghost use Rattle.std.specs.Option.{option_copied};
ghost use Rattle.c_typing.specs.Globals.{body_named, main_head};

use crate::functions::is_main;
use c_ast::{Block, Head, Item};

/// The body of the first function of this name; None where there is none.
pub fn body_named<'a>(name: &[u8], items: &'a [Item]) -> Option<&'a Block>
    ensures { option_copied result ≡ body_named name.now items.now }
{
    for item in items {
        if let Item::Function { head, body } = item {
            if head.name.text.as_slice() == name {
                return Some(body);
            }
        }
    }
    None
}

/// The head of the first `main`; None where there is none.
pub fn main_head<'a>(items: &'a [Item]) -> Option<&'a Head>
    ensures { option_copied result ≡ main_head items.now }
{
    for item in items {
        if let Item::Function { head, .. } = item {
            if is_main(head) {
                return Some(head);
            }
        }
    }
    None
}
