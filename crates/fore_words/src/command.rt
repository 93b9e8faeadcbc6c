// The command line as `clap` reads it, and what `clap` makes of words.
ghost use Rattle.std.specs.Prelude.{◌≡◌, ◌≢◌, [], IfOk, IsErrOf, true, false};
ghost use Rattle.clap.specs.Words.{
  app_of,
  rule_of,
  shape_of,
  new_app,
  with_rule,
  with_subcommand,
  fault_of,
  HasMatchesOf,
};
ghost use Rattle.clap.specs.declared.builder.command.Command.TheViews.{out-Command as fields_of};
ghost use Rattle.fore_words.specs.CommandLine.{
  place_rule,
  option_rule,
  flag_rule,
  verify_shape,
  run_shape,
  gen_shape,
  top_shape,
  the_app,
};
ghost use Rattle.fore_words.specs.Words.{texts};
ghost use Rattle.fore_words.specs.declared.asked.WordsFault.{WordsFault as Why};

use crate::asked::WordsFault;
use clap::error::ErrorKind;
use clap::{Arg, ArgAction, ArgMatches, Command};
use fore_base::memory::Mem;
use std::alloc::Global;

/// What `clap` finds in the words.
///
/// # Errors
///
/// `Usage` where it refuses them, `Memory` for want of memory.
pub fn matches_of<'a>(alloc: Global, words: &'a [String]) -> Result<ArgMatches<'a>, WordsFault>
    ensures usage { IsErrOf result Why.Usage → fault_of the_app (texts words.entry.now) ≢ [] }
    ensures ok { IfOk result (λ _. fault_of the_app (texts words.entry.now) ≡ []) }
    ensures matches { IfOk result (HasMatchesOf the_app (texts words.entry.now)) }
{
    let command = whole_command(alloc)?;
    match command.try_get_matches_from(words) {
        Ok(matches) => Ok(matches),
        Err(error) => match error.kind() {
            ErrorKind::OutOfMemory => Err(WordsFault::Memory),
            _ => Err(WordsFault::Usage),
        },
    }
}

/// The command line whole.
fn whole_command<'a>(alloc: Global) -> Mem<Command<'a>>
    ensures app { IfOk result (λ c. app_of c ≡ the_app) }
{
    let command = with_command(bare_command(alloc), verify_command(alloc)?)?;
    let command = with_command(command, run_command(alloc)?)?;
    let command = with_command(command, gen_command(alloc)?)?;
    Ok(command)
}

/// The command line without its commands.
fn bare_command<'a>(alloc: Global) -> Command<'a>
    ensures app { app_of result ≡ record { top = record top_shape { is_leaf = true }; subs = [] } }
    ensures local { (fields_of result).has_globals ≡ false }
{
    Command::new(alloc, "forester")
        .no_binary_name(true)
        .disable_help_flag(true)
        .disable_help_subcommand(true)
        .disable_version_flag(true)
        .subcommand_required(true)
}

fn verify_command<'a>(alloc: Global) -> Mem<Command<'a>>
    ensures shape { IfOk result (λ c. shape_of c ≡ verify_shape) }
    ensures local { IfOk result (λ c. (fields_of c).has_globals ≡ false) }
{
    let command = with_argument(Command::new(alloc, "verify"), place(alloc, "FILE"))?;
    let command = with_argument(command, option(alloc, "boxes"))?;
    let command = with_argument(command, option(alloc, "height"))?;
    let command = with_argument(command, option(alloc, "steps"))?;
    let command = with_argument(command, option(alloc, "jobs"))?;
    let command = with_argument(command, flag(alloc, "malloc-null"))?;
    Ok(command)
}

fn run_command<'a>(alloc: Global) -> Mem<Command<'a>>
    ensures shape { IfOk result (λ c. shape_of c ≡ run_shape) }
    ensures local { IfOk result (λ c. (fields_of c).has_globals ≡ false) }
{
    let command = with_argument(Command::new(alloc, "run"), place(alloc, "FILE"))?;
    let command = with_argument(command, option(alloc, "choices"))?;
    let command = with_argument(command, option(alloc, "steps"))?;
    let command = with_argument(command, flag(alloc, "malloc-null"))?;
    Ok(command)
}

fn gen_command<'a>(alloc: Global) -> Mem<Command<'a>>
    ensures shape { IfOk result (λ c. shape_of c ≡ gen_shape) }
    ensures local { IfOk result (λ c. (fields_of c).has_globals ≡ false) }
{
    let command = with_argument(Command::new(alloc, "gen"), place(alloc, "KIND"))?;
    let command = with_argument(command, place(alloc, "N"))?;
    Ok(command)
}

/// The command with one more command, the last.
fn with_command<'a>(command: Command<'a>, other: Command<'a>) -> Mem<Command<'a>>
    requires { (fields_of other).has_globals ≡ false }
    ensures app { IfOk result (λ c. app_of c ≡ with_subcommand (app_of command.entry) (shape_of other.entry)) }
{
    let command = command.subcommand(other)?;
    Ok(command)
}

/// The command with one more argument, the last.
fn with_argument<'a>(command: Command<'a>, argument: Arg<'a>) -> Mem<Command<'a>>
    requires { argument.global ≡ false }
    ensures app { IfOk result (λ c. app_of c ≡ with_rule (app_of command.entry) (rule_of argument.entry)) }
    ensures local { IfOk result (λ c. (fields_of c).has_globals ≡ (fields_of command.entry).has_globals) }
{
    let command = command.arg(argument)?;
    Ok(command)
}

/// A word that a command wants in its place.
fn place<'a>(alloc: Global, name: &'a str) -> Arg<'a>
    ensures rule { rule_of result ≡ place_rule name.entry.now }
    ensures local { result.global ≡ false }
{
    Arg::new(alloc, name).required(true).action(ArgAction::Set)
}

/// An option that takes one value.
fn option<'a>(alloc: Global, name: &'a str) -> Arg<'a>
    ensures rule { rule_of result ≡ option_rule name.entry.now }
    ensures local { result.global ≡ false }
{
    Arg::new(alloc, name).long(name).action(ArgAction::Set)
}

/// An option without a value.
fn flag<'a>(alloc: Global, name: &'a str) -> Arg<'a>
    ensures rule { rule_of result ≡ flag_rule name.entry.now }
    ensures local { result.global ≡ false }
{
    Arg::new(alloc, name).long(name).action(ArgAction::SetTrue)
}
