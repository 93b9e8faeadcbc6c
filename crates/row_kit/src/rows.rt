// Files of rows, read and answered.

ghost use Rattle.std.specs.Thread.{IsSync};

use anyhow::{Context, Result};
use std::alloc::{AllocGlobal, Global};
use std::env::Env;
use std::rt::Files;
use std::thread::Threads;
use std::{env, fs};

/// What knows the answer to a row.
pub trait Answers {
    /// The answer to a row of this room, head and texts.
    ///
    /// # Errors
    ///
    /// A room that is not known, a row that cannot be read, or that breaks what is asked of the input of its call; and
    /// want of memory.
    fn answer<R: Threads + Sync>(
        &self,
        rt: &R,
        alloc: Global,
        room: &str,
        head: &str,
        texts: &[&str],
    ) -> Result<String>
        requires { IsSync R.row };
}

/// Answers each row of the files that the program's words name, and prints a line a row.
///
/// # Errors
///
/// A file that lies in no folder or cannot be read, the first row that has no answer, a line that cannot be printed,
/// and want of memory.
pub fn answer_files<R, A>(rt: &R, answers: &A) -> Result<()>
where
    R: Env + Files + AllocGlobal + Print + Threads + Sync,
    A: Answers,
{
    for name in env::args(rt)?.skip(1) {
        answer_named(rt, answers, name.as_str()).context(format_args!("{name}"))?;
    }
    Ok(())
}

// Answers the rows of the file of this name, whose room is the folder in which it lies.
fn answer_named<R, A>(rt: &R, answers: &A, name: &str) -> Result<()>
where
    R: Files + AllocGlobal + Print + Threads + Sync,
    A: Answers,
{
    let (room, _) = name.split_once('/').context("no room")?;
    let text = fs::read_to_string(rt, name)?;
    for line in text.lines() {
        if !line.is_empty() && !line.starts_with('#') {
            answer_row(rt, answers, room, line).context(format_args!("{line}"))?;
        }
    }
    Ok(())
}

fn answer_row<R, A>(rt: &R, answers: &A, room: &str, line: &str) -> Result<()>
where
    R: AllocGlobal + Print + Threads + Sync,
    A: Answers,
{
    let alloc = rt.alloc();
    let words: Vec<&str> = line.split(" | ").collect(alloc)?;
    let (head, texts) = words.as_slice().split_first().context("no head")?;
    let answer = answers.answer(rt, alloc, room, head, texts)?;
    let first = texts.first().context("no text")?;
    println!(rt; "{head} | {first} | {answer}")?;
    Ok(())
}
