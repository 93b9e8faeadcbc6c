//! The top call: it does all that the program does.
ghost use Rattle.fore_answer.specs.Writings.{writing_of};
ghost use Rattle.fore_call.specs.Calls.{request_of};
ghost use Rattle.fore_call.specs.Promises.{Promises};

use crate::judge::answer;
use fa_text::laws::tables_break_none;
use fore_answer::deliver::deliver;
use fore_outside::shelf::Shelf;
use fore_outside::sink::Sink;
use par_kit::gate::Gate;
use std::alloc::Global;
use std::thread::Threads;

/// Does what the words ask: `verify FILE [--boxes FILE] [--height N] [--steps N] [--jobs N] [--malloc-null]`,
/// `run FILE [--choices LIST] [--steps N] [--malloc-null]` or `gen KIND N`. Gives the status with which the program
/// ends. With `--malloc-null` each `malloc` of the program may give the null pointer, by a choice.
///
/// The statuses stand in `status` of `fore_answer`. `NO_FAULT`: no choices and no number of steps lead the program of
/// the file to a fault; or the run has ended. `FAULT`: the printed choices lead it to the printed fault; or the run met
/// the printed fault. `USAGE`: the words do not read. `UNKNOWN`: neither was found, since as many abstract states are
/// kept as may be, or since the choices of the printed abstract trace meet no fault in up to 1,000,000 steps; or
/// the run has too few choices, or a wrong one, or still runs. `REFUSED`: the C file has more than 1,048,576 bytes,
/// or breaks a rule; or it does not, and the file of boxes has more than 65,536, or breaks a rule. `NOT_READ`: a file
/// could not be read. `NOT_WRITTEN`: a sink failed. `NO_MEMORY`: want of memory, and nothing was written.
pub fn forester<R: Threads + Sync, L: Shelf, K: Sink, E: Sink, G: Gate>(
    rt: &R,
    alloc: Global,
    words: &[String],
    shelf: &mut L,
    out: &mut K,
    notes: &mut E,
    gate: &G,
) -> u8
    ensures { Promises (record {
      request = request_of L.Shelf words.now shelf.old shelf.new;
      out = writing_of K.Sink out.old out.new;
      notes = writing_of E.Sink notes.old notes.new;
      status = result;
    }) }
{
    tables_break_none();
    let due = answer(rt, alloc, words, shelf, gate);
    deliver(alloc, due, out, notes)
}
