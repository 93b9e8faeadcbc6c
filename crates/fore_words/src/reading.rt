// What words ask, by what `clap` finds in them.
ghost use Rattle.std.specs.Prelude.{◌≡◌, ℕ, List, Option, option_map, IfOk, IsErrOf, MatchResult, codes};
ghost use Rattle.clap.specs.Words.{Text, Row, found_of, rows_of, first_of, subcommand_rows_of};
ghost use Rattle.fore_words.specs.Words.{texts, AreSettings, IsVerify, IsRun, IsGen, IsAsked, AsksNothing, IsInRange};
ghost use Rattle.fore_words.specs.declared.asked.WordsFault.{WordsFault as Why};
ghost use Rattle.fore_words.specs.declared.asked.Settings.{Settings as How};
ghost use Rattle.fore_words.specs.declared.asked.Kind.{Kind as What};
ghost use Rattle.c_types.specs.declared.mode.MallocMode.{MallocMode as Mode};

use crate::asked::{
    Asked, BUDGET, HEIGHT, JOBS, Kind, MOST_BUDGET, MOST_HEIGHT, MOST_JOBS, MOST_PHASES, RUN_STEPS,
    Settings, WordsFault,
};
use crate::command::matches_of;
use crate::path::FilePath;
use crate::values::{choices_or_none, kind_in, mode_of, number_in, number_or};
use c_types::mode::MallocMode;
use clap::ArgMatches;
use fore_base::list::List;
use std::alloc::Global;

/// What the words behind the program's name ask; its numbers are in their ranges.
///
/// # Errors
///
/// `Usage` where they ask nothing: where `clap` refuses them, or a value does not read. `Memory` for want of memory.
#[tactic(auto, using(crate::proofs::Ranges::ranges))]
pub fn read_words<'a>(alloc: Global, words: &'a [String]) -> Result<Asked<'a>, WordsFault>
    ensures ok { IfOk result (IsAsked (texts words.entry.now)) }
    ensures range { IfOk result IsInRange }
    ensures usage { IsErrOf result Why.Usage → AsksNothing (texts words.entry.now) }
{
    let matches = matches_of(alloc, words)?;
    let Some((name, given)) = command_in(&matches) else {
        return Err(WordsFault::Usage);
    };
    match name {
        "verify" => {
            let (path, boxes, settings) = verify_of(given)?;
            Ok(Asked::Verify {
                path,
                boxes,
                settings,
            })
        }
        "run" => {
            let (path, choices, steps, malloc) = run_of(alloc, given)?;
            Ok(Asked::Run {
                path,
                choices,
                steps,
                malloc,
            })
        }
        "gen" => {
            let (kind, phases) = gen_of(given)?;
            Ok(Asked::Gen { kind, phases })
        }
        _ => Err(WordsFault::Usage),
    }
}

/// The command that was found, with what it was given.
fn command_in<'a, 'm>(matches: &'m ArgMatches<'a>) -> Option<(&'a str, &'m ArgMatches<'a>)>
    ensures { option_map (λ p. (p.0.now, rows_of (found_of p.1.now))) result ≡ subcommand_rows_of matches.now }
{
    matches.subcommand()
}

/// The text that was given under this name.
#[tactic(auto, using(crate::proofs::Found::first_given))]
fn text_of<'a>(given: &ArgMatches<'a>, name: &str) -> Option<&'a str>
    ensures { option_map (λ t. t.now) result ≡ first_of name.now (rows_of (found_of given.now)) }
{
    given.get_str(name)
}

/// The path that was given under this name.
fn path_in<'a>(given: &ArgMatches<'a>, name: &str) -> Option<FilePath<'a>>
    ensures { result ≡ first_of name.now (rows_of (found_of given.now)) }
{
    let text = text_of(given, name)?;
    Some(FilePath::new(text))
}

/// The file to verify, the file of boxes, and how.
///
/// # Errors
///
/// `Usage` where some value does not read.
fn verify_of<'a>(
    given: &ArgMatches<'a>,
) -> Result<(FilePath<'a>, Option<FilePath<'a>>, Settings), WordsFault>
    ensures { MatchResult result
        (λ p. IsVerify (rows_of (found_of given.now)) p.0 p.1 p.2)
        (λ why. (why ≡ Why.Usage) × ((path : Text) (boxes : Option Text) (settings : How)
        → IsVerify (rows_of (found_of given.now)) path boxes settings → ⊥)) }
{
    let Some(path) = path_in(given, "FILE") else {
        return Err(WordsFault::Usage);
    };
    let boxes = path_in(given, "boxes");
    let settings = settings_of(given)?;
    Ok((path, boxes, settings))
}

/// How a file is verified.
///
/// # Errors
///
/// `Usage` where some value does not read.
fn settings_of(given: &ArgMatches<'_>) -> Result<Settings, WordsFault>
    ensures { MatchResult result
        (AreSettings (rows_of (found_of given.now)))
        (λ why. (why ≡ Why.Usage) × ((settings : How) → AreSettings (rows_of (found_of given.now)) settings → ⊥)) }
{
    let height = number_or(text_of(given, "height"), MOST_HEIGHT, HEIGHT)?;
    let budget = number_or(text_of(given, "steps"), MOST_BUDGET, BUDGET)?;
    let jobs = number_or(text_of(given, "jobs"), MOST_JOBS, JOBS)?;
    let malloc = mode_of(text_of(given, "malloc-null"));
    Ok(Settings {
        height,
        budget,
        jobs,
        malloc,
    })
}

/// The file to run, the choices, the number of steps, and what `malloc` may answer.
///
/// # Errors
///
/// `Usage` where some value does not read, `Memory` for want of memory.
fn run_of<'a>(
    alloc: Global,
    given: &ArgMatches<'a>,
) -> Result<(FilePath<'a>, List<u8>, u32, MallocMode), WordsFault>
    ensures ok { IfOk result (λ p. IsRun (rows_of (found_of given.now)) p.0 p.1 p.2 p.3) }
    ensures usage { IsErrOf result Why.Usage → (path : Text) (choices : List ℕ) (steps : ℕ) (malloc : Mode)
        → IsRun (rows_of (found_of given.now)) path choices steps malloc → ⊥ }
{
    let Some(path) = path_in(given, "FILE") else {
        return Err(WordsFault::Usage);
    };
    let steps = number_or(text_of(given, "steps"), RUN_STEPS, RUN_STEPS)?;
    let choices = choices_or_none(alloc, text_of(given, "choices"))?;
    let malloc = mode_of(text_of(given, "malloc-null"));
    Ok((path, choices, steps, malloc))
}

/// The kind of generated programs, and the number of phases.
///
/// # Errors
///
/// `Usage` where some value does not read.
fn gen_of(given: &ArgMatches<'_>) -> Result<(Kind, u32), WordsFault>
    ensures { MatchResult result
        (λ p. IsGen (rows_of (found_of given.now)) p.0 p.1)
        (λ why. (why ≡ Why.Usage) × ((kind : What) (phases : ℕ)
        → IsGen (rows_of (found_of given.now)) kind phases → ⊥)) }
{
    let (Some(kind), Some(phases)) = (text_of(given, "KIND"), text_of(given, "N")) else {
        return Err(WordsFault::Usage);
    };
    let kind = kind_in(kind)?;
    let phases = number_in(phases, MOST_PHASES)?;
    Ok((kind, phases))
}
