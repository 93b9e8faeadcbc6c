//! From the bytes to the program.
ghost use Rattle.std.specs.Prelude.{◌≡◌, ◌≤◌, ◌⊎◌, ℕ, List, length, Ok, Err, IfOk, IfErr};
ghost use Rattle.fore_base.specs.declared.limits.TheConstants.{FILE_BYTES};
ghost use Rattle.c_lexer.specs.Tokens.{Tokens};
ghost use Rattle.c_types.specs.Program.{Program};
ghost use Rattle.c_front.specs.declared.broken.Broken.{Broken as Rule};
ghost use Rattle.c_front.specs.declared.broken.FileFault.TheVariants.{Breaks, Memory};
ghost use Rattle.c_front.specs.Files.{IsProgramOf, BreaksFirst, IsFault, broken, lexical_fault, syntax_fault};
ghost use Rattle.c_front.specs.Files.{type_fault};

use crate::broken::{Broken, FileFault, Letter};
use c_check::check;
use c_grammar::SyntaxFault;
use c_lexer::{LexFault, Token, end_place, tokens};
use c_parser::parse;
use c_types::program::Typed;
use c_typing::TypeFault;
use fore_base::limits::FILE_BYTES;
use fore_base::list::List;
use fore_base::place::Place;
use std::alloc::Global;

/// The program of a file with these bytes.
///
/// # Errors
///
/// `Breaks` with the first rule that the file breaks: the first byte at which no token begins, or comment that is not
/// closed (L); else the first token that no accepted program has (P); else the first hopeless token, or level too many
/// (S); else the first breach of the rules of names, types and limits (T, K). `Memory` for want of memory.
pub fn program_in(alloc: Global, bytes: &[u8]) -> Result<Typed, FileFault>
    requires { length bytes.now ≤ FILE_BYTES }
    ensures ok { IfOk result (IsProgramOf bytes.now) }
    ensures err { IfErr result (IsFault bytes.now) }
    ensures reads { (p : Program) → IsProgramOf bytes.now p → (result ≡ Ok p) ⊎ (result ≡ Err Memory) }
    ensures finds { (b : Rule) → BreaksFirst bytes.now b → (result ≡ Err (Breaks b)) ⊎ (result ≡ Err Memory) }
{
    answer(alloc, bytes)
}

#[tactic(auto, using(crate::proofs::FileLaws::from_tokens))]
fn answer(alloc: Global, bytes: &[u8]) -> Result<Typed, FileFault>
    requires { length bytes.now ≤ FILE_BYTES }
    ensures ok { IfOk result (IsProgramOf bytes.now) }
    ensures err { IfErr result (IsFault bytes.now) }
{
    match tokens(alloc, bytes) {
        Ok(tokens) => parsed(alloc, bytes, tokens),
        Err(fault) => Err(of_tokens(fault)),
    }
}

/// The program of bytes that have these tokens.
#[tactic(auto, using(crate::proofs::FileLaws::from_grammar, crate::proofs::FileLaws::from_types))]
fn parsed(alloc: Global, bytes: &[u8], tokens: List<Token>) -> Result<Typed, FileFault>
    requires short { length bytes.now ≤ FILE_BYTES }
    requires lexed { Tokens bytes.now tokens }
    ensures ok { IfOk result (IsProgramOf bytes.now) }
    ensures err { IfErr result (IsFault bytes.now) }
{
    match parse(alloc, tokens.as_slice(), end_place(bytes)) {
        Ok(unit) => match check(alloc, &unit) {
            Ok(program) => Ok(program),
            Err(fault) => Err(of_types(fault)),
        },
        Err(fault) => Err(of_grammar(fault)),
    }
}

fn of_tokens(fault: LexFault) -> FileFault
    ensures { result ≡ lexical_fault fault }
{
    match fault {
        LexFault::L1 { at } => broken(Letter::Lexical, 1, at),
        LexFault::L2 { at } => broken(Letter::Lexical, 2, at),
        LexFault::Memory => FileFault::Memory,
    }
}

fn of_grammar(fault: SyntaxFault) -> FileFault
    ensures { result ≡ syntax_fault fault }
{
    match fault {
        SyntaxFault::Refused { rule, at } => broken(Letter::Profile, rule, at),
        SyntaxFault::Syntax { at } => broken(Letter::Syntax, 1, at),
        SyntaxFault::Deep { at } => broken(Letter::Syntax, 2, at),
        SyntaxFault::Memory => FileFault::Memory,
    }
}

fn of_types(fault: TypeFault) -> FileFault
    ensures { result ≡ type_fault fault }
{
    match fault {
        TypeFault::Rule { rule, at } => broken(Letter::Typing, rule, at),
        TypeFault::Limit { limit, at } => broken(Letter::Limit, limit, at),
        TypeFault::Memory => FileFault::Memory,
    }
}

fn broken(letter: Letter, number: u8, at: Place) -> FileFault
    ensures { result ≡ broken letter number at }
{
    FileFault::Breaks {
        first: Broken { letter, number, at },
    }
}
