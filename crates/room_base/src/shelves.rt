// What shelves answer to calls.

use crate::printing::{put_counted, put_quoted, read_numbers};
use anyhow::{Context, Result, bail};
use fore_base::list::List;
use fore_base::text::Text;
use fore_outside::file_shelf::{FileShelf, read_within};
use fore_outside::mem_shelf::MemShelf;
use fore_outside::shelf::{Shelf, ShelfFault};
use row_texts::put_between;
use std::alloc::Global;
use std::io;
use std::io::Read;
use std::rt::Files;

/// A shelf that tells how often a call failed.
trait Counted: Shelf {
    fn count(&self) -> u64;
}

impl Counted for MemShelf {
    fn count(&self) -> u64 {
        self.faults()
    }
}

impl<'r, F: Files> Counted for FileShelf<'r, F> {
    fn count(&self) -> u64 {
        self.faults()
    }
}

/// Puts what a shelf in memory answers.
pub fn put_shelf(
    out: &mut Text,
    alloc: Global,
    fails: &str,
    calls: &str,
    held: &str,
) -> Result<()> {
    let mut shelf = MemShelf::new(alloc);
    hold(&mut shelf, held)?;
    fail(&mut shelf, alloc, fails)?;
    put_calls(out, alloc, &mut shelf, calls)
}

fn hold(shelf: &mut MemShelf, held: &str) -> Result<()> {
    for file in held.split(", ") {
        let (path, text) = file.split_once(' ').context("a file without a text")?;
        shelf.add(path, text.as_bytes())?;
    }
    Ok(())
}

fn fail(shelf: &mut MemShelf, alloc: Global, fails: &str) -> Result<()> {
    let calls = read_numbers(alloc, fails)?;
    for call in calls.as_slice() {
        shelf.fail(*call as u64)?;
    }
    Ok(())
}

/// Puts what a shelf over real files answers.
pub fn put_files<F: Files>(out: &mut Text, alloc: Global, files: &F, calls: &str) -> Result<()> {
    let mut shelf = FileShelf::new(alloc, files);
    put_calls(out, alloc, &mut shelf, calls)
}

fn put_calls<S: Counted>(out: &mut Text, alloc: Global, shelf: &mut S, calls: &str) -> Result<()> {
    for (number, call) in calls.split(", ").enumerate() {
        put_between(out, number, b", ")?;
        let (path, limit) = call.split_once(' ').context("a call without a limit")?;
        let limit = limit.parse::<usize>()?;
        put_reading(out, &shelf.read_all(alloc, path, limit))?;
        put_counted(out, b" ", shelf.count())?;
    }
    Ok(())
}

fn put_reading(out: &mut Text, answer: &Result<List<u8>, ShelfFault>) -> Result<()> {
    match answer {
        Ok(bytes) => put_quoted(out, bytes.as_slice())?,
        Err(ShelfFault::Failed) => out.put(b"failed")?,
        Err(ShelfFault::TooLong) => out.put(b"too long")?,
        Err(ShelfFault::Memory) => bail!("want of memory"),
    }
    Ok(())
}

// A reader without end, which gives three bytes in a call at most and counts them. A signal comes before the first.
#[derive(Drop)]
struct Endless {
    interrupted: bool,
    given: usize,
}

impl Read for Endless {
    fn read(&mut self, into: &mut [u8]) -> io::Result<usize> {
        if !self.interrupted {
            self.interrupted = true;
            return Err(io::Error::from(io::ErrorKind::Interrupted));
        }
        let count = into.len().min(3);
        self.given = self.given.saturating_add(count);
        Ok(count)
    }
}

/// Puts what is answered to a reader without end.
pub fn put_endless(out: &mut Text, alloc: Global, limit: &str) -> Result<()> {
    let limit = limit.parse::<usize>()?;
    let mut endless = Endless {
        interrupted: false,
        given: 0,
    };
    put_reading(out, &read_within(&mut endless, alloc, limit))?;
    put_counted(out, b", taken ", endless.given as u64)?;
    Ok(())
}
