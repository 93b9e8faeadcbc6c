// What a declaration declares.
ghost use Rattle.std.specs.Prelude.{◌≡◌};
ghost use Rattle.c_typing.specs.Scopes.{declarators_of, kind_of};

use c_ast::{Declarator, Declare};
use c_tables::tables::Tables;
use c_typing::Kind;

/// What a declaration declares: a pointer to this struct, or a datum.
pub fn kind_of(tables: &Tables, declare: &Declare) -> Kind
    ensures { result ≡ kind_of tables.now declare.now }
{
    match declare {
        Declare::Pointers { name, .. } => Kind::Points(tables.struct_of(name.text.as_slice())),
        Declare::Datums { .. } => Kind::Datum,
    }
}

/// The declarators of a declaration.
pub fn declarators_of(declare: &Declare) -> &[Declarator]
    ensures { result.now ≡ declarators_of declare.now }
{
    match declare {
        Declare::Pointers { vars, .. } | Declare::Datums { vars, .. } => vars.as_slice(),
    }
}
