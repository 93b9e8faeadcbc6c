// The heads that prototypes and `main` may have.
ghost use Rattle.std.specs.Prelude.{◌≡◌, ◌∷◌, codes};
ghost use Rattle.c_typing.specs.Profile.{is_allowed_head, is_int_type, is_main_head, gives_int, gives_nothing};
ghost use Rattle.c_typing.specs.Profile.{has_no_params, errors};
ghost use Rattle.c_typing.specs.Texts.{has};

use crate::given::{is_choice, is_error};
use c_ast::{Data, Head, Params, ReturnType};

/// Whether it gives an `int` and has no parameters.
pub fn is_main_head(head: &Head) -> bool
    ensures { result ≡ is_main_head head.now }
{
    gives_int(&head.gives) && has_no_params(&head.params)
}

/// Whether a prototype may have this head.
pub fn is_allowed_head(head: &Head) -> bool
    ensures { result ≡ is_allowed_head head.now }
{
    let name = head.name.text.as_slice();
    let allowed = (is_choice(name) && gives_int(&head.gives))
        || (is_end(name) && gives_nothing(&head.gives));
    allowed && has_no_params(&head.params)
}

fn is_end(name: &[u8]) -> bool
    ensures { result ≡ has name.now (codes "abort" ∷ errors) }
{
    name == b"abort".as_slice() || is_error(name)
}

fn is_int(data: &Data) -> bool
    ensures { result ≡ is_int_type data.now }
{
    match data {
        Data::Int { .. } => true,
        Data::Enum { .. } => false,
    }
}

fn gives_int(gives: &ReturnType) -> bool
    ensures { result ≡ gives_int gives.now }
{
    match gives {
        ReturnType::Data(data) => is_int(data),
        ReturnType::Void { .. } | ReturnType::Pointer { .. } => false,
    }
}

fn gives_nothing(gives: &ReturnType) -> bool
    ensures { result ≡ gives_nothing gives.now }
{
    match gives {
        ReturnType::Void { .. } => true,
        ReturnType::Data(_) | ReturnType::Pointer { .. } => false,
    }
}

fn has_no_params(params: &Option<Params>) -> bool
    ensures { result ≡ has_no_params params.now }
{
    match params {
        None | Some(Params::Void { .. }) => true,
        Some(Params::List(_)) => false,
    }
}
