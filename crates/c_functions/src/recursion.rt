// Calls that lead back to the function around.
ghost use Rattle.std.specs.Prelude.{◌≡◌, ◌++◌, ◌∷◌, [], codes, cond, length, map, Some, None, IfOk};
ghost use Rattle.c_typing.specs.Functions.{home_number, leads_back, recurs};
ghost use Rattle.c_typing.specs.Globals.{function_name};
ghost use Rattle.c_typing.specs.Texts.{number_of, same};

use c_tables::tables::Tables;
use fore_base::memory::Mem;
use std::alloc::Global;

/// The number of `main`, which comes after the other functions.
fn main_number(tables: &Tables) -> u32
    ensures { result ≡ length tables.now.functions }
{
    tables.known();
    tables.graph().known();
    tables.functions().len() as u32
}

/// The number of the function around.
fn home_number(tables: &Tables, home: Option<u32>) -> u32
    ensures { result ≡ home_number tables.now home }
{
    match home {
        Some(function) => function,
        None => main_number(tables),
    }
}

/// Whether this is the name of `main`.
fn is_main_name(name: &[u8]) -> bool
    ensures { result ≡ same name.now (codes "main") }
{
    name == b"main".as_slice()
}

/// The number of `main`, if this is its name.
fn number_of_main(tables: &Tables, name: &[u8]) -> Option<u32>
    ensures { result ≡ cond (same name.now (codes "main")) (Some (length tables.now.functions)) None }
{
    if is_main_name(name) {
        return Some(main_number(tables));
    }
    None
}

/// The number of the function of this name, also of `main` and of the given functions, where the file defines such.
fn number_of(tables: &Tables, name: &[u8]) -> Option<u32>
    ensures { result
        ≡ number_of name.now (map function_name tables.now.functions ++ codes "main" ∷ []) }
{
    match tables.function_of(name) {
        Some(number) => Some(number),
        None => number_of_main(tables, name),
    }
}

/// Whether the function of this number is the one around, or leads to it.
fn leads_back(alloc: Global, tables: &Tables, home: u32, number: Option<u32>) -> Mem<bool>
    ensures { IfOk result (λ yes. yes ≡ leads_back tables.now home number) }
{
    match number {
        Some(function) => {
            let leads = tables.lead(alloc, function, home)?;
            Ok(function == home || leads)
        }
        None => Ok(false),
    }
}

/// Whether a call of this name, in the function around, is a call of that function, or of one that leads to it by
/// calls. `home` is the number of the function around, None being `main`.
///
/// # Errors
///
/// Want of memory.
pub fn recurs(alloc: Global, tables: &Tables, home: Option<u32>, name: &[u8]) -> Mem<bool>
    ensures { IfOk result (λ yes. yes ≡ recurs tables.now home name.now) }
{
    let yes = leads_back(
        alloc,
        tables,
        home_number(tables, home),
        number_of(tables, name),
    )?;
    Ok(yes)
}
