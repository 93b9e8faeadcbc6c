// What programs and their graphs do on choices.
ghost use Rattle.std.specs.Prelude.{◌≤◌};

use crate::outcomes::{put_found, put_outcome, put_turn};
use crate::programs::{GRAPH_HEAD, RUN_HEAD, graph_of, program_of};
use anyhow::{Context, Result, bail};
use c_cfg::graph::Graph;
use c_lower::lower::lower;
use c_machine::Machine;
use c_machine::run::run;
use c_types::mode::MallocMode;
use c_types::outcome::Outcome;
use c_types::program::Typed;
use c_walks::graph_run::graph_run;
use fore_base::memory::Mem;
use fore_base::text::Text;
use row_texts::put_between;
use std::alloc::Global;
use trace_replay::{Replay, replay};

/// How many steps a run takes at most in a row.
const MOST: u64 = 1000;

/// How many steps a run takes at most where a program and its graph are to come out alike.
const STEPS: u64 = 60;

/// How many edges a step has at most there.
const EDGES: u64 = 12;

/// The lists of up to four choices: the number of choices, and how many lists there are.
const LENGTHS: [(usize, u8); 5] = [(0, 1), (1, 2), (2, 4), (3, 8), (4, 16)];

/// Choices and a number of steps, in two words: a digit for each choice, or a hyphen where there is none.
#[derive(Drop)]
struct Course {
    choices: Text,
    limit: u64,
    ghost limited: { limit ≤ 1000 },
}

fn course_of(alloc: Global, words: &str) -> Result<Course> {
    let (digits, limit) = words.split_once(' ').context("no limit")?;
    let limit = limit.parse::<u64>()?;
    if limit > MOST {
        bail!("too many steps");
    }
    let choices = choices_of(alloc, digits)?;
    Ok(Course { choices, limit })
}

fn choices_of(alloc: Global, digits: &str) -> Result<Text> {
    let mut choices = Text::new(alloc);
    if digits != "-" {
        for letter in digits.as_bytes() {
            let choice = digit(*letter).context("a choice is no digit")?;
            choices.put(&[choice])?;
        }
    }
    Ok(choices)
}

fn digit(letter: u8) -> Option<u8> {
    match letter {
        b'0'..=b'9' => Some(letter - b'0'),
        _ => None,
    }
}

/// run, graph_run, replay: how the run of the program of a body comes out, how that of its graph does, and what a
/// replay of the program finds.
pub fn put_run(
    alloc: Global,
    out: &mut Text,
    mode: MallocMode,
    kind: &str,
    words: &str,
    body: &[u8],
) -> Result<()> {
    let course = course_of(alloc, words)?;
    put_on(alloc, out, mode, kind, body, &course)
}

fn put_on(
    alloc: Global,
    out: &mut Text,
    mode: MallocMode,
    kind: &str,
    body: &[u8],
    course: &Course,
) -> Result<()> {
    match kind {
        "run" => put_outcome(out, outcome_of(alloc, mode, body, course)?)?,
        "graph_run" => put_outcome(out, graph_outcome_of(alloc, mode, body, course)?)?,
        "replay" => put_found(out, found_by(alloc, mode, body, course)?)?,
        _ => bail!("no such kind"),
    }
    Ok(())
}

fn outcome_of(alloc: Global, mode: MallocMode, body: &[u8], course: &Course) -> Result<Outcome> {
    let program = program_of(alloc, RUN_HEAD, body)?;
    let choices = course.choices.as_slice();
    Ok(run(alloc, &program, mode, choices, course.limit)?)
}

fn graph_outcome_of(
    alloc: Global,
    mode: MallocMode,
    body: &[u8],
    course: &Course,
) -> Result<Outcome> {
    let graph = graph_of(alloc, mode, body)?;
    Ok(graph_run(alloc, &graph, course.choices.as_slice(), course.limit)?)
}

fn found_by(alloc: Global, mode: MallocMode, body: &[u8], course: &Course) -> Result<Replay> {
    let program = program_of(alloc, RUN_HEAD, body)?;
    let choices = course.choices.as_slice();
    Ok(replay(alloc, &program, mode, choices, course.limit)?)
}

/// steps: what the steps of a machine answer, one for each letter: a choice that is given, or a hyphen for none.
pub fn put_steps(
    alloc: Global,
    out: &mut Text,
    mode: MallocMode,
    letters: &str,
    body: &[u8],
) -> Result<()> {
    let program = program_of(alloc, RUN_HEAD, body)?;
    put_turns(alloc, out, mode, letters.as_bytes(), &program)
}

fn put_turns(
    alloc: Global,
    out: &mut Text,
    mode: MallocMode,
    letters: &[u8],
    program: &Typed,
) -> Result<()> {
    let mut machine = Machine::new(alloc, program, mode)?;
    for (number, letter) in letters.iter().enumerate() {
        let choice = given(*letter)?;
        put_between(out, number, b", ")?;
        machine.reserve()?;
        if machine.store().next > MOST || choice.is_some_and(|choice| choice > 1) {
            bail!("no such choice");
        }
        put_turn(out, machine.step(choice))?;
    }
    Ok(())
}

fn given(letter: u8) -> Result<Option<u8>> {
    match letter {
        b'-' => Ok(None),
        b'0' => Ok(Some(0)),
        b'1' => Ok(Some(1)),
        _ => bail!("no such choice"),
    }
}

/// alike: `alike` where the program of a body and its graph come out alike on each list of up to four choices, and on
/// 1, 2, 0; or else the first choices on which they do not, and how both come out.
pub fn put_alike(alloc: Global, out: &mut Text, mode: MallocMode, body: &[u8]) -> Result<()> {
    let program = program_of(alloc, GRAPH_HEAD, body)?;
    put_alike_to(alloc, out, mode, &program)
}

/// Puts whether the graph of the program comes out as the program does.
fn put_alike_to(alloc: Global, out: &mut Text, mode: MallocMode, program: &Typed) -> Result<()> {
    let graph = lower(alloc, program, mode)?;
    let pair = Pair {
        program,
        mode,
        graph: &graph,
    };
    put_compared(alloc, out, pair)
}

/// A program whose `malloc` has a mode, and its graph.
#[derive(Clone, Copy)]
struct Pair<'a> {
    program: &'a Typed,
    mode: MallocMode,
    graph: &'a Graph,
}

fn put_compared(alloc: Global, out: &mut Text, pair: Pair) -> Result<()> {
    if agree(alloc, out, pair)? && agree_on(alloc, out, pair, &[1, 2, 0])? {
        out.put(b"alike")?;
    }
    Ok(())
}

/// Whether a program and its graph come out alike on each list of up to four choices.
fn agree(alloc: Global, out: &mut Text, pair: Pair) -> Mem<bool> {
    for (length, lists) in LENGTHS {
        for number in 0..lists {
            let all = [
                bit(number, 0),
                bit(number, 1),
                bit(number, 2),
                bit(number, 3),
            ];
            if !agree_on(alloc, out, pair, all.split_at(length).0)? {
                return Ok(false);
            }
        }
    }
    Ok(true)
}

fn bit(number: u8, place: u8) -> u8 {
    number.checked_shr(u32::from(place)).unwrap_or(0) & 1
}

/// Whether a program and its graph come out alike on these choices. Where not, how they come out is put.
fn agree_on(alloc: Global, out: &mut Text, pair: Pair, choices: &[u8]) -> Mem<bool> {
    let outcome = run(alloc, pair.program, pair.mode, choices, STEPS)?;
    let edges = match outcome {
        Outcome::StillRunning => STEPS,
        _ => STEPS * EDGES,
    };
    let found = graph_run(alloc, pair.graph, choices, edges)?;
    if are_alike(outcome, found) {
        return Ok(true);
    }
    put_both(out, choices, outcome, found)?;
    Ok(false)
}

/// Puts how a program and its graph come out on these choices.
fn put_both(out: &mut Text, choices: &[u8], outcome: Outcome, found: Outcome) -> Mem<()> {
    for choice in choices {
        out.put_number(u64::from(*choice))?;
        out.put(b" ")?;
    }
    put_outcome(out, outcome)?;
    out.put(b", graph ")?;
    put_outcome(out, found)
}

/// Whether a run of a graph comes out like one of its program: each step is an edge at least.
fn are_alike(one: Outcome, other: Outcome) -> bool {
    match (one, other) {
        (Outcome::Ended { step }, Outcome::Ended { step: edges }) => step <= edges,
        (
            Outcome::Fault { kind, line, step },
            Outcome::Fault {
                kind: kind_too,
                line: line_too,
                step: edges,
            },
        ) => kind == kind_too && line == line_too && step <= edges,
        (Outcome::Starved { step }, Outcome::Starved { step: edges }) => step <= edges,
        (Outcome::BadChoice { index }, Outcome::BadChoice { index: index_too }) => {
            index == index_too
        }
        (Outcome::StillRunning, Outcome::StillRunning) => true,
        _ => false,
    }
}
