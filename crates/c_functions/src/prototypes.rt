// Whether prototypes agree with the definitions of their functions.
ghost use Rattle.std.specs.Prelude.{◌≡◌, map, Some};
ghost use Rattle.std.specs.Option.{option_copied};
ghost use Rattle.c_typing.specs.Functions.{agrees, definition, is_right_prototype, same_kind, same_kinds, same_result};
ghost use Rattle.c_typing.specs.Globals.{differ, function_of, param_kind, struct_names};

use crate::called::called;
use crate::profile::is_allowed_head;
use c_ast::{Head, Param};
use c_tables::functions::{is_main, params_of};
use c_tables::tables::Tables;
use c_typing::{FunctionDef, Kind};

/// Whether these are two structs that are defined, and are not the same.
fn differ(left: Option<u32>, right: Option<u32>) -> bool
    ensures { result ≡ differ left right }
{
    match (left, right) {
        (Some(left), Some(right)) => left != right,
        (None, _) | (Some(_), None) => false,
    }
}

/// Whether both are data, or pointers to one struct; a struct that is not defined may be any.
fn same_kind(left: Kind, right: Kind) -> bool
    ensures { result ≡ same_kind left right }
{
    match (left, right) {
        (Kind::Points(left), Kind::Points(right)) => !differ(left, right),
        (Kind::Datum, Kind::Datum) => true,
        (Kind::Points(_), Kind::Datum) | (Kind::Datum, Kind::Points(_)) => false,
    }
}

fn same_result(left: Option<Kind>, right: Option<Kind>) -> bool
    ensures { result ≡ same_result left right }
{
    match (left, right) {
        (Some(left), Some(right)) => same_kind(left, right),
        (None, None) => true,
        (None, Some(_)) | (Some(_), None) => false,
    }
}

/// Whether the parameters are as many as the kinds, and of these kinds.
fn same_params(tables: &Tables, kinds: &[Kind], params: &[Param]) -> bool
    ensures { result ≡ same_kinds kinds.now (map (param_kind (struct_names tables.now)) params.now) }
{
    if kinds.len() != params.len() {
        return false;
    }
    for (place, param) in params.iter().enumerate() {
        if !same_kind(kinds[place], tables.param_kind(param)) {
            return false;
        }
    }
    true
}

/// Whether the head agrees with a function.
fn agrees(tables: &Tables, function: &FunctionDef, head: &Head) -> bool
    ensures { result ≡ agrees (Some function.now) (function_of (struct_names tables.now) head.now) }
{
    same_result(function.result, tables.result_kind(&head.gives))
        && same_params(tables, function.params.as_slice(), params_of(&head.params))
}

/// The definition of the function of a head; None where there is none, and for the given functions.
fn definition<'a>(tables: &'a Tables, head: &Head) -> Option<&'a FunctionDef>
    ensures { option_copied result ≡ definition tables.now head.now }
{
    if is_main(head) {
        return tables.main();
    }
    called(tables, head.name.text.as_slice())
}

/// Whether there is a definition of the function of a head, and it agrees.
fn is_agreed(tables: &Tables, head: &Head) -> bool
    ensures { result ≡ agrees (definition tables.now head.now) (function_of (struct_names tables.now) head.now) }
{
    match definition(tables, head) {
        Some(function) => agrees(tables, function, head),
        None => false,
    }
}

/// Whether a prototype is right: it is one of a given function, or agrees with the definition.
pub fn is_right_prototype(tables: &Tables, head: &Head) -> bool
    ensures { result ≡ is_right_prototype tables.now head.now }
{
    is_allowed_head(head) || is_agreed(tables, head)
}
