// What paths, operands and right sides break.
ghost use Rattle.std.specs.Prelude.{◌≡◌, not, OnOk};
ghost use Rattle.c_typing.specs.Sites.{arrow_sites, path_sites, read_sites, operand_sites, wanted_sites};
ghost use Rattle.c_typing.specs.Sites.{right_sites, cast_sites, starred_sites, size_sites, rhs_sites};
ghost use Rattle.c_typing.specs.Texts.{is_empty};
ghost use Rattle.c_expressions.specs.Meeting.{met};

use crate::arguments::right_call_faults;
use crate::calls::calls;
use crate::meanings::{
    followed, meaning_of_name, meaning_of_operand, meaning_of_path, place_of_operand,
};
use crate::noting::{allocates, begins, casts, follows, measures, sizes, stands, uses_struct};
use crate::wants::struct_at;
use c_ast::{Arrow, Cast, Operand, Path, Rhs, Size};
use c_scopes::scopes::Scope;
use c_tables::tables::Tables;
use c_typing::{Meaning, Spot, TypeFault, Want};
use fore_base::memory::Mem;
use fore_base::place::Place;
use std::alloc::Global;

/// What arrows break, the first of which follows what this is.
#[tactic(auto, using(crate::proofs::MeetingLemmas::meeting))]
fn arrow_faults(
    tables: &Tables,
    meaning: Meaning,
    arrows: &[Arrow],
    found: &mut Option<TypeFault>,
) -> Mem<()>
    ensures { OnOk result (found.new ≡ met tables.now found.old (arrow_sites tables.now meaning arrows.now)) }
{
    let mut meaning = meaning;
    for arrow in arrows {
        follows(tables, &meaning, arrow, found);
        meaning = followed(tables, meaning, arrow.field.text.as_slice())?;
    }
    Ok(())
}

/// What a path breaks, whose first name may have to be a variable.
#[tactic(auto, using(crate::proofs::MeetingLemmas::meeting))]
pub fn path_faults(
    alloc: Global,
    tables: &Tables,
    scope: &Scope,
    to_be_variable: bool,
    path: &Path,
    found: &mut Option<TypeFault>,
) -> Mem<()>
    ensures { OnOk result
        (found.new ≡ met tables.now found.old
        (path_sites tables.now scope.now to_be_variable path.now)) }
{
    begins(tables, scope, to_be_variable, &path.head, found);
    let meaning = meaning_of_name(alloc, tables, scope, path.head.text.as_slice());
    arrow_faults(tables, meaning, path.arrows.as_slice(), found)
}

fn has_arrows(path: &Path) -> bool
    ensures { result ≡ not (is_empty path.now.arrows) }
{
    match path.arrows.as_slice() {
        [] => false,
        _ => true,
    }
}

/// What a path breaks that is read.
pub fn read_faults(
    alloc: Global,
    tables: &Tables,
    scope: &Scope,
    path: &Path,
    found: &mut Option<TypeFault>,
) -> Mem<()>
    ensures { OnOk result (found.new ≡ met tables.now found.old (read_sites tables.now scope.now path.now)) }
{
    path_faults(alloc, tables, scope, has_arrows(path), path, found)
}

/// What an operand breaks by itself.
#[tactic(auto, using(crate::proofs::MeetingLemmas::meeting, c_typing::proofs::ConditionLayers::condition_layers))]
pub fn operand_faults(
    alloc: Global,
    tables: &Tables,
    scope: &Scope,
    spot: Spot,
    operand: &Operand,
    found: &mut Option<TypeFault>,
) -> Mem<()>
    ensures { OnOk result (found.new ≡ met tables.now found.old (operand_sites tables.now scope.now spot operand.now)) }
{
    match operand {
        Operand::Path(path) => read_faults(alloc, tables, scope, path, found),
        Operand::Call(call) => calls(alloc, tables, scope, spot, call, found),
        Operand::Number(_) | Operand::Null { .. } | Operand::True { .. } | Operand::False { .. } =>
            Ok(()),
    }
}

/// What an operand breaks where something is wanted.
#[tactic(auto, using(crate::proofs::MeetingLemmas::meeting))]
pub fn wanted_faults(
    alloc: Global,
    tables: &Tables,
    scope: &Scope,
    spot: Spot,
    want: Want,
    operand: &Operand,
    found: &mut Option<TypeFault>,
) -> Mem<()>
    ensures { OnOk result
        (found.new ≡ met tables.now found.old
        (wanted_sites tables.now scope.now spot want operand.now)) }
{
    operand_faults(alloc, tables, scope, spot, operand, found)?;
    let meaning = meaning_of_operand(alloc, tables, scope, operand)?;
    stands(tables, want, place_of_operand(operand), &meaning, found);
    Ok(())
}

/// What a right side that is an operand breaks.
#[tactic(auto, using(crate::proofs::MeetingLemmas::meeting, c_typing::proofs::ConditionLayers::condition_layers))]
fn right_faults(
    alloc: Global,
    tables: &Tables,
    scope: &Scope,
    want: Want,
    operand: &Operand,
    found: &mut Option<TypeFault>,
) -> Mem<()>
    ensures { OnOk result (found.new ≡ met tables.now found.old (right_sites tables.now scope.now want operand.now)) }
{
    match operand {
        Operand::Call(call) => right_call_faults(alloc, tables, scope, want, call, found),
        Operand::Path(_)
        | Operand::Number(_)
        | Operand::Null { .. }
        | Operand::True { .. }
        | Operand::False { .. } => {
            wanted_faults(alloc, tables, scope, Spot::Right, want, operand, found)
        }
    }
}

#[tactic(auto, using(crate::proofs::MeetingLemmas::meeting))]
fn cast_faults(
    tables: &Tables,
    scope: &Scope,
    want: Want,
    cast: &Option<Cast>,
    found: &mut Option<TypeFault>,
)
    ensures { found.new ≡ met tables.now found.old (cast_sites tables.now scope.now want cast.now) }
{
    let _scope = scope;
    if let Some(cast) = cast {
        uses_struct(tables, &cast.name, found);
        casts(tables, want, &cast.name, found);
    }
}

/// What the size of what a path points to breaks.
#[tactic(auto, using(crate::proofs::MeetingLemmas::meeting))]
fn starred_faults(
    alloc: Global,
    tables: &Tables,
    scope: &Scope,
    want: Want,
    at: Place,
    star: Place,
    path: &Path,
    found: &mut Option<TypeFault>,
) -> Mem<()>
    ensures { OnOk result
        (found.new ≡ met tables.now found.old
        (starred_sites tables.now scope.now want at star path.now)) }
{
    read_faults(alloc, tables, scope, path, found)?;
    let meaning = meaning_of_path(alloc, tables, scope, path)?;
    measures(tables, star, &meaning, found);
    sizes(tables, want, at, struct_at(&meaning), found);
    Ok(())
}

#[tactic(auto, using(crate::proofs::MeetingLemmas::meeting))]
fn size_faults(
    alloc: Global,
    tables: &Tables,
    scope: &Scope,
    want: Want,
    size: &Size,
    found: &mut Option<TypeFault>,
) -> Mem<()>
    ensures { OnOk result (found.new ≡ met tables.now found.old (size_sites tables.now scope.now want size.now)) }
{
    match size {
        Size::Struct { at, name } => {
            sizes(
                tables,
                want,
                *at,
                tables.struct_of(name.text.as_slice()),
                found,
            );
            uses_struct(tables, name, found);
            Ok(())
        }
        Size::Bracketed { at, star, path } | Size::Bare { at, star, path } => starred_faults(
            alloc, tables, scope, want, *at, *star, path, found,
        ),
    }
}

/// What a right side breaks, of which something is wanted.
#[tactic(auto, using(crate::proofs::MeetingLemmas::meeting))]
pub fn rhs_faults(
    alloc: Global,
    tables: &Tables,
    scope: &Scope,
    want: Want,
    rhs: &Rhs,
    found: &mut Option<TypeFault>,
) -> Mem<()>
    ensures { OnOk result (found.new ≡ met tables.now found.old (rhs_sites tables.now scope.now want rhs.now)) }
{
    match rhs {
        Rhs::Operand(operand) => right_faults(alloc, tables, scope, want, operand, found),
        Rhs::Malloc { cast, at, size } => {
            cast_faults(tables, scope, want, cast, found);
            allocates(tables, want, *at, found);
            size_faults(alloc, tables, scope, want, size, found)
        }
    }
}
