// What sinks take.

use crate::printing::{put_choice, put_counted, put_quoted};
use anyhow::{Context, Result, bail};
use fore_base::memory::Mem;
use fore_base::text::Text;
use fore_outside::mem_sink::MemSink;
use fore_outside::sink::put_all;
use fore_outside::stream_sink::StreamSink;
use std::alloc::Global;
use std::io;

/// Puts what a sink in memory takes of a piece. It has a room, takes so many bytes in a call, and fails in one call.
pub fn put_memory(out: &mut Text, alloc: Global, numbers: &str, piece: &str) -> Result<()> {
    let (room, rest) = numbers.split_once(' ').context("no room")?;
    let (most, call) = rest.split_once(' ').context("no call")?;
    let (room, most) = (room.parse::<usize>()?, most.parse::<usize>()?);
    let call = call.parse::<u64>()?;
    let mut sink = sink_of(alloc, room, most, call)?;
    let all = put_all(&mut sink, bytes_of(piece)).is_ok();
    put_held(out, all, &sink)?;
    Ok(())
}

fn sink_of(alloc: Global, room: usize, most: usize, call: u64) -> Result<MemSink> {
    if most == 0 {
        bail!("a call takes nothing");
    }
    let mut sink = MemSink::new(alloc, room, most)?;
    sink.fail(call)?;
    Ok(sink)
}

fn put_held(out: &mut Text, all: bool, sink: &MemSink) -> Mem<()> {
    put_choice(out, all, b"all, ", b"part, ")?;
    put_quoted(out, sink.bytes())?;
    put_counted(out, b" ", sink.faults())
}

// Two hyphens stand for the empty piece.
fn bytes_of<'a>(piece: &'a str) -> &'a [u8] {
    match piece {
        "--" => b"",
        _ => piece.as_bytes(),
    }
}

// A stream that takes two bytes in a call and five in all; then a call fails, or takes nothing. A signal comes before
// the first.
#[derive(Drop)]
struct Reluctant {
    taken: Vec<u8>,
    fails: bool,
    interrupted: bool,
}

impl io::Write for Reluctant {
    fn write(&mut self, bytes: &[u8]) -> io::Result<usize> {
        if !self.interrupted {
            self.interrupted = true;
            return Err(io::Error::from(io::ErrorKind::Interrupted));
        }
        let count = 5usize
            .saturating_sub(self.taken.len())
            .min(2)
            .min(bytes.len());
        if count == 0 && self.fails {
            return Err(io::Error::from(io::ErrorKind::BrokenPipe));
        }
        self.taken.extend_from_slice(&bytes[..count])?;
        Ok(count)
    }

    fn flush(&mut self) -> io::Result<()> {
        Ok(())
    }
}

/// Puts what a stream that is reluctant takes of pieces.
pub fn put_stream(out: &mut Text, alloc: Global, end: &str, pieces: &str) -> Result<()> {
    let fails = match end {
        "fails" => true,
        "stops" => false,
        _ => bail!("no such end"),
    };
    let mut stream = Reluctant {
        taken: Vec::new(alloc),
        fails,
        interrupted: false,
    };
    put_pieces(out, &mut stream, pieces)?;
    put_quoted(out, stream.taken.as_slice())?;
    Ok(())
}

fn put_pieces(out: &mut Text, stream: &mut Reluctant, pieces: &str) -> Result<()> {
    let mut sink = StreamSink::new(stream);
    for piece in pieces.split(", ") {
        let all = put_all(&mut sink, bytes_of(piece)).is_ok();
        put_choice(out, all, b"all ", b"part ")?;
        out.put_number(sink.faults())?;
        out.put(b", ")?;
    }
    Ok(())
}
