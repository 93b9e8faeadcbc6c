// What each kind of place in a body breaks.
ghost use Rattle.std.specs.Prelude.{◌≡◌, not, ◌||◌, ◌&&◌, map};
ghost use Rattle.c_typing.specs.Rules.{lacks_field, may_return};
ghost use Rattle.c_typing.specs.Scopes.{var_name, innermost, declared_so_far};
ghost use Rattle.c_typing.specs.Sites.{UsesStruct, UsesEnum, Defines, Begins, Follows, Measures, Stands};
ghost use Rattle.c_typing.specs.declared.meaning.Family.TheVariants.{Variable};
ghost use Rattle.c_typing.specs.Sites.{Chooses, Gives, Allocates, Casts, Sizes, Jumps, Returns};
ghost use Rattle.c_typing.specs.declared.fault.TypeFault.TheVariants.{Rule};
ghost use Rattle.c_expressions.specs.Meeting.{noted, noted_when};
ghost use Rattle.c_expressions.specs.inner.DataPaths.{is_data_path};

use crate::first::{note_limit, note_rule};
use crate::wants::{
    differ, gives_datum, gives_pointer, is_datum, is_pointer, result_struct, struct_at,
    wanted_struct, wants_datum, wants_pointer,
};
use c_ast::{Arrow, Name};
use c_scopes::scopes::Scope;
use c_tables::tables::Tables;
use c_typing::{Kind, Meaning, TypeFault, Want};
use fore_base::place::Place;

/// Notes that a rule is broken at a place, where the test holds.
pub fn note_when(broken: bool, rule: u8, at: Place, found: &mut Option<TypeFault>)
    ensures { found.new ≡ noted_when broken (Rule rule at) found.old }
{
    if broken {
        note_rule(found, rule, at);
    }
}

/// A struct is named.
#[tactic(auto, using(crate::proofs::MeetingLemmas::sites))]
pub fn uses_struct(tables: &Tables, name: &Name, found: &mut Option<TypeFault>)
    ensures { found.new ≡ noted tables.now found.old (UsesStruct name.now) }
{
    let known = tables.struct_of(name.text.as_slice()).is_some();
    note_when(!known, 1, name.at, found);
}

/// An enumeration is named.
#[tactic(auto, using(crate::proofs::MeetingLemmas::sites))]
pub fn uses_enum(tables: &Tables, name: &Name, found: &mut Option<TypeFault>)
    ensures { found.new ≡ noted tables.now found.old (UsesEnum name.now) }
{
    let known = tables.has_enum(name.text.as_slice());
    note_when(!known, 4, name.at, found);
}

/// A variable is declared.
#[tactic(auto, using(crate::proofs::MeetingLemmas::sites))]
pub fn defines_variable(tables: &Tables, scope: &Scope, name: &Name, found: &mut Option<TypeFault>)
    ensures { found.new ≡ noted tables.now found.old
        (Defines Variable name.now (map var_name (innermost scope.now.blocks)) (declared_so_far scope.now)) }
{
    let _tables = tables;
    note_when(scope.is_taken(name.text.as_slice()), 5, name.at, found);
    if scope.is_full() {
        note_limit(found, 4, name.at);
    }
}

/// A path begins with a name, which may have to be a variable.
#[tactic(auto, using(crate::proofs::MeetingLemmas::sites))]
pub fn begins(
    tables: &Tables,
    scope: &Scope,
    to_be_variable: bool,
    name: &Name,
    found: &mut Option<TypeFault>,
)
    ensures { found.new ≡ noted tables.now found.old (Begins scope.now to_be_variable name.now) }
{
    let text = name.text.as_slice();
    let is_variable = scope.find(text).is_some();
    let is_value = tables.value_of(text).is_some();
    let known = is_variable || (!to_be_variable && is_value);
    note_when(!known, 3, name.at, found);
}

/// Whether this points to a struct that does not have a field of this name.
fn lacks_field(tables: &Tables, meaning: &Meaning, name: &[u8]) -> bool
    ensures { result ≡ lacks_field tables.now meaning.now name.now }
{
    match meaning {
        Meaning::Pointer {
            to: Some(shape),
            ..
        } => tables.field_of(*shape, name).is_none(),
        Meaning::Pointer { to: None, .. } => false,
        Meaning::Datum(_)
        | Meaning::Known(_)
        | Meaning::Zero
        | Meaning::Null
        | Meaning::Call
        | Meaning::Broken => false,
    }
}

/// Whether this is a datum at a path.
fn is_data_path(meaning: &Meaning) -> bool
    ensures { result ≡ is_data_path meaning.now }
{
    match meaning {
        Meaning::Datum(_) => true,
        Meaning::Pointer { .. }
        | Meaning::Known(_)
        | Meaning::Zero
        | Meaning::Null
        | Meaning::Call
        | Meaning::Broken => false,
    }
}

/// An arrow follows what this is.
#[tactic(auto, using(crate::proofs::MeetingLemmas::sites))]
pub fn follows(tables: &Tables, meaning: &Meaning, arrow: &Arrow, found: &mut Option<TypeFault>)
    ensures { found.new ≡ noted tables.now found.old (Follows meaning.now arrow.now) }
{
    let lacks = lacks_field(tables, meaning, arrow.field.text.as_slice());
    note_when(lacks, 2, arrow.field.at, found);
    note_when(is_data_path(meaning), 9, arrow.at, found);
}

/// The `*` of a `sizeof`, before what this is.
#[tactic(auto, using(crate::proofs::MeetingLemmas::sites))]
pub fn measures(tables: &Tables, star: Place, meaning: &Meaning, found: &mut Option<TypeFault>)
    ensures { found.new ≡ noted tables.now found.old (Measures star meaning.now) }
{
    let _tables = tables;
    note_when(is_datum(meaning), 9, star, found);
}

/// An operand, where something is wanted.
#[tactic(auto, using(crate::proofs::MeetingLemmas::sites))]
pub fn stands(
    tables: &Tables,
    want: Want,
    at: Place,
    meaning: &Meaning,
    found: &mut Option<TypeFault>,
)
    ensures { found.new ≡ noted tables.now found.old (Stands want at meaning.now) }
{
    let _tables = tables;
    let apart = differ(wanted_struct(want), struct_at(meaning));
    note_when(apart, 6, at, found);
    note_when(wants_pointer(want) && is_datum(meaning), 7, at, found);
    note_when(wants_datum(want) && is_pointer(meaning), 8, at, found);
}

/// A right side that is a choice.
#[tactic(auto, using(crate::proofs::MeetingLemmas::sites))]
pub fn chooses(tables: &Tables, want: Want, at: Place, found: &mut Option<TypeFault>)
    ensures { found.new ≡ noted tables.now found.old (Chooses want at) }
{
    let _tables = tables;
    note_when(wants_pointer(want), 7, at, found);
}

/// A right side that is a call of a function of the file, and what that gives.
#[tactic(auto, using(crate::proofs::MeetingLemmas::sites))]
pub fn gives(
    tables: &Tables,
    want: Want,
    at: Place,
    gives: Option<Kind>,
    found: &mut Option<TypeFault>,
)
    ensures { found.new ≡ noted tables.now found.old (Gives want at gives) }
{
    let _tables = tables;
    let apart = differ(wanted_struct(want), result_struct(gives));
    note_when(apart, 6, at, found);
    note_when(wants_pointer(want) && gives_datum(gives), 7, at, found);
    note_when(wants_datum(want) && gives_pointer(gives), 8, at, found);
    note_when(gives.is_none(), 17, at, found);
}

/// A `malloc`.
#[tactic(auto, using(crate::proofs::MeetingLemmas::sites))]
pub fn allocates(tables: &Tables, want: Want, at: Place, found: &mut Option<TypeFault>)
    ensures { found.new ≡ noted tables.now found.old (Allocates want at) }
{
    let _tables = tables;
    note_when(wants_datum(want), 8, at, found);
}

/// The struct in the cast of a `malloc`.
#[tactic(auto, using(crate::proofs::MeetingLemmas::sites))]
pub fn casts(tables: &Tables, want: Want, name: &Name, found: &mut Option<TypeFault>)
    ensures { found.new ≡ noted tables.now found.old (Casts want name.now) }
{
    let apart = differ(wanted_struct(want), tables.struct_of(name.text.as_slice()));
    note_when(apart, 6, name.at, found);
}

/// The `sizeof` of the struct of this number.
#[tactic(auto, using(crate::proofs::MeetingLemmas::sites))]
pub fn sizes(
    tables: &Tables,
    want: Want,
    at: Place,
    shape: Option<u32>,
    found: &mut Option<TypeFault>,
)
    ensures { found.new ≡ noted tables.now found.old (Sizes want at shape) }
{
    let _tables = tables;
    note_when(differ(wanted_struct(want), shape), 10, at, found);
}

/// Whether a `return` of this function, or of `main`, may have an operand, or may have none.
fn may_return(tables: &Tables, home: Option<u32>, operand: bool) -> bool
    ensures { result ≡ may_return tables.now home operand }
{
    match home {
        None => true,
        Some(function) => {
            let returns = tables.result_at(function).is_some();
            if operand { returns } else { !returns }
        }
    }
}

/// A `return` of a function, or of `main`, and whether it has an operand.
#[tactic(auto, using(crate::proofs::MeetingLemmas::sites))]
pub fn returns(
    tables: &Tables,
    home: Option<u32>,
    operand: bool,
    at: Place,
    found: &mut Option<TypeFault>,
)
    ensures { found.new ≡ noted tables.now found.old (Returns home operand at) }
{
    note_when(!may_return(tables, home, operand), 16, at, found);
}

/// A `break` or `continue`, and whether a loop is open.
#[tactic(auto, using(crate::proofs::MeetingLemmas::sites))]
pub fn jumps(tables: &Tables, looping: bool, at: Place, found: &mut Option<TypeFault>)
    ensures { found.new ≡ noted tables.now found.old (Jumps looping at) }
{
    let _tables = tables;
    note_when(!looping, 11, at, found);
}
