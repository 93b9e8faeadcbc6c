// What is wanted where an operand stands.
ghost use Rattle.std.specs.Prelude.{◌≡◌};
ghost use Rattle.c_typing.specs.Rules.{wanted_struct, wants_pointer, wants_datum, is_datum, is_pointer, differ};
ghost use Rattle.c_typing.specs.Rules.{gives_datum, gives_pointer, result_struct};
ghost use Rattle.c_typing.specs.Sites.{struct_at, want_of_kind, want_of_left, want_of_result, want_of_return};
ghost use Rattle.c_typing.specs.Sites.{want_of_target};

use c_tables::tables::Tables;
use c_typing::{Kind, Meaning, Want};

/// What is wanted of an initialiser.
pub fn want_of_kind(kind: Kind) -> Want
    ensures { result ≡ want_of_kind kind }
{
    match kind {
        Kind::Points(to) => Want::Pointer(to),
        Kind::Datum => Want::Datum,
    }
}

/// What is wanted of what a function with this result returns.
fn want_of_result(kind: Option<Kind>) -> Want
    ensures { result ≡ want_of_result kind }
{
    match kind {
        Some(kind) => want_of_kind(kind),
        None => Want::Either,
    }
}

/// What a `return` wants in the function of this number, or in `main`.
pub fn want_of_return(tables: &Tables, home: Option<u32>) -> Want
    ensures { result ≡ want_of_return tables.now home }
{
    match home {
        Some(function) => want_of_result(tables.result_at(function)),
        None => Want::Datum,
    }
}

/// What is wanted of the right side of an assignment to this target.
pub fn want_of_target(target: &Meaning) -> Want
    ensures { result ≡ want_of_target target.now }
{
    match target {
        Meaning::Pointer { to, .. } => Want::Pointer(*to),
        Meaning::Datum(_) => Want::Datum,
        Meaning::Known(_) | Meaning::Zero | Meaning::Null | Meaning::Call | Meaning::Broken =>
            Want::Either,
    }
}

/// What is wanted of the right operand of a comparison with this left one.
pub fn want_of_left(left: &Meaning) -> Want
    ensures { result ≡ want_of_left left.now }
{
    match left {
        Meaning::Pointer { to, .. } => Want::Pointer(*to),
        Meaning::Null => Want::Pointer(None),
        Meaning::Datum(_) | Meaning::Known(_) => Want::Datum,
        Meaning::Zero | Meaning::Call | Meaning::Broken => Want::Either,
    }
}

/// The struct to which a pointer is wanted.
pub fn wanted_struct(want: Want) -> Option<u32>
    ensures { result ≡ wanted_struct want }
{
    match want {
        Want::Pointer(to) => to,
        Want::Datum | Want::Either => None,
    }
}

/// Whether a pointer is wanted.
pub fn wants_pointer(want: Want) -> bool
    ensures { result ≡ wants_pointer want }
{
    match want {
        Want::Pointer(_) => true,
        Want::Datum | Want::Either => false,
    }
}

/// Whether a datum is wanted.
pub fn wants_datum(want: Want) -> bool
    ensures { result ≡ wants_datum want }
{
    match want {
        Want::Datum => true,
        Want::Pointer(_) | Want::Either => false,
    }
}

/// The struct to which this points.
pub fn struct_at(meaning: &Meaning) -> Option<u32>
    ensures { result ≡ struct_at meaning.now }
{
    match meaning {
        Meaning::Pointer { to, .. } => *to,
        Meaning::Datum(_)
        | Meaning::Known(_)
        | Meaning::Zero
        | Meaning::Null
        | Meaning::Call
        | Meaning::Broken => None,
    }
}

/// Whether this is data and no pointer.
pub fn is_datum(meaning: &Meaning) -> bool
    ensures { result ≡ is_datum meaning.now }
{
    match meaning {
        Meaning::Datum(_) | Meaning::Known(_) => true,
        Meaning::Pointer { .. } | Meaning::Zero | Meaning::Null | Meaning::Call | Meaning::Broken =>
            false,
    }
}

/// Whether this is a pointer and no datum.
pub fn is_pointer(meaning: &Meaning) -> bool
    ensures { result ≡ is_pointer meaning.now }
{
    match meaning {
        Meaning::Pointer { .. } | Meaning::Null => true,
        Meaning::Datum(_) | Meaning::Known(_) | Meaning::Zero | Meaning::Call | Meaning::Broken =>
            false,
    }
}

/// The struct to which what a function gives points.
pub fn result_struct(gives: Option<Kind>) -> Option<u32>
    ensures { result ≡ result_struct gives }
{
    match gives {
        Some(Kind::Points(to)) => to,
        Some(Kind::Datum) | None => None,
    }
}

/// Whether a function gives data.
pub fn gives_datum(gives: Option<Kind>) -> bool
    ensures { result ≡ gives_datum gives }
{
    match gives {
        Some(Kind::Datum) => true,
        Some(Kind::Points(_)) | None => false,
    }
}

/// Whether a function gives a pointer.
pub fn gives_pointer(gives: Option<Kind>) -> bool
    ensures { result ≡ gives_pointer gives }
{
    match gives {
        Some(Kind::Points(_)) => true,
        Some(Kind::Datum) | None => false,
    }
}

/// Whether these are two structs that are defined, and are not the same.
pub fn differ(left: Option<u32>, right: Option<u32>) -> bool
    ensures { result ≡ differ left right }
{
    match left {
        None => false,
        Some(one) => match right {
            None => false,
            Some(other) => one != other,
        },
    }
}
