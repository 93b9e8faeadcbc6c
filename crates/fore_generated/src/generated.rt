//! A generated program, taken through the front end, with the table of its kind.
ghost use Rattle.std.specs.Prelude.{◌≡◌, IfOk, IfErr};
ghost use Rattle.c_front.specs.Files.{IsProgramOf};
ghost use Rattle.fore_gen.specs.Programs.{count_lines, program_text};
ghost use Rattle.fore_generated.specs.Generated.{gen_settings, IsTableFor, IsTableFaultOf};
ghost use Rattle.fore_generated.specs.Generated.{IsGeneratedProgram, IsGeneratedFault};

use c_types::mode::MallocMode;
use c_types::program::Typed;
use fa_core::table::BoxTable;
use fore_base::limits::FILE_BYTES;
use fore_base::shape::Shapes;
use fore_gen::{count_lines, dll_boxes, generate};
use fore_read::{ReadFault, Refusal, empty_table, program_of, table_of};
use fore_words::asked::{HEIGHT, JOBS, MOST_BUDGET};
use fore_words::{Kind, Settings};
use std::alloc::Global;

/// A generated program.
#[derive(Drop)]
pub struct Generated {
    /// The program of its text.
    pub program: Typed,
    /// The table by which it is verified, over its structs.
    pub table: BoxTable,
    /// How many lines its text has.
    pub lines: usize,
}

/// The program of a kind with so many phases.
///
/// # Errors
///
/// `Refused` where the text is too long or breaks a rule of C files, or the boxes of its kind break one over its
/// structs, then by the first one. `Memory` for want of memory.
pub fn generated_program(alloc: Global, kind: Kind, phases: u32) -> Result<Generated, ReadFault>
    ensures ok { IfOk result (IsGeneratedProgram kind phases) }
    ensures shapes { IfOk result (λ made. made.table.face.shapes ≡ made.program.shapes) }
    ensures err { IfErr result (IsGeneratedFault kind phases) }
{
    match generate(alloc, kind, phases) {
        Ok(text) => of_text(alloc, kind, phases, text.as_slice()),
        Err(_) => Err(ReadFault::Memory),
    }
}

/// The program of a text.
fn of_text(alloc: Global, kind: Kind, phases: u32, text: &[u8]) -> Result<Generated, ReadFault>
    requires { text.now ≡ program_text kind phases }
    ensures ok { IfOk result (IsGeneratedProgram kind phases) }
    ensures shapes { IfOk result (λ made. made.table.face.shapes ≡ made.program.shapes) }
    ensures err { IfErr result (IsGeneratedFault kind phases) }
{
    if text.len() > FILE_BYTES {
        return Err(ReadFault::Refused(Refusal::TooLong));
    }
    match program_of(alloc, text) {
        Ok(program) => with_table(alloc, kind, phases, count_lines(text), program),
        Err(fault) => Err(fault),
    }
}

/// The program, with the table of its kind.
fn with_table(
    alloc: Global,
    kind: Kind,
    phases: u32,
    lines: usize,
    program: Typed,
) -> Result<Generated, ReadFault>
    requires lines { lines ≡ count_lines (program_text kind phases) }
    requires program { IsProgramOf (program_text kind phases) program }
    ensures ok { IfOk result (IsGeneratedProgram kind phases) }
    ensures shapes { IfOk result (λ made. made.table.face.shapes ≡ made.program.shapes) }
    ensures err { IfErr result (IsGeneratedFault kind phases) }
{
    match table_for(alloc, kind, &program.shapes) {
        Ok(table) => Ok(Generated {
            program,
            table,
            lines,
        }),
        Err(fault) => Err(fault),
    }
}

/// The table by which the programs of the kind are verified, over their structs.
fn table_for(alloc: Global, kind: Kind, shapes: &Shapes) -> Result<BoxTable, ReadFault>
    ensures ok { IfOk result (IsTableFor kind shapes.now) }
    ensures err { IfErr result (IsTableFaultOf kind shapes.now) }
{
    match kind {
        Kind::ListPhases | Kind::TreePhases => match empty_table(alloc, shapes) {
            Ok(table) => Ok(table),
            Err(_) => Err(ReadFault::Memory),
        },
        Kind::DllPhases => table_of(alloc, dll_boxes(), shapes),
    }
}

/// How a generated program is verified.
pub fn gen_settings() -> Settings
    ensures { result ≡ gen_settings }
{
    Settings {
        height: HEIGHT,
        budget: MOST_BUDGET,
        jobs: JOBS,
        malloc: MallocMode::Always,
    }
}
