// A sink in memory, for tests: what it took is known, and calls fail where they are to.
ghost use Rattle.std.specs.Prelude.{◌≡◌, ◌≤◌, ◌<◌, ◌↔◌, ◌++◌, [], ◌∷◌, length, take, IsErr, IsTrue, IfOk, OnOk, OnErr};
ghost use Rattle.fore_outside.specs.Outside.{Rose, Grew};
ghost use Rattle.fore_outside.specs.Counts.{one_more};
ghost use Rattle.fore_outside.specs.MemSinks.{new_sink, taken, PutFails};

use crate::counts::is_listed;
use crate::sink::{Sink, SinkFault};
use fore_base::list::List;
use fore_base::memory::Mem;
use std::alloc::Global;
use std::marker::Model;

/// A sink in memory, for tests: it has a room, takes so many bytes in one call at most, and fails in chosen calls.
#[derive(Drop)]
pub struct MemSink {
    held: Vec<u8>,
    room: usize,
    most: usize,
    fails: List<u64>,
    calls: u64,
    faults: u64,
}

impl Model for MemSink {
    ghost use Rattle.std.specs.Prelude.{◌≤◌, ◌<◌, vec_len, vec_capacity};
    ghost use Rattle.fore_outside.specs.MemSinks.{SinkState};

    ghost Value = { SinkState };

    ghost view = { λ s. record {
      held = s.held.items;
      room = s.room;
      most = s.most;
      fails = s.fails;
      calls = s.calls;
      faults = s.faults;
    } };

    ghost invariant = { λ s. (s.room ≤ vec_capacity s.held) × (vec_len s.held ≤ s.room) × (0 < s.most) };
}

impl MemSink {
    /// A sink with room for `room` bytes, of which a call takes `most` at most, which is at least 1. The memory of the
    /// whole room is taken here.
    ///
    /// # Errors
    ///
    /// Want of memory.
    pub fn new(alloc: Global, room: usize, most: usize) -> Mem<MemSink>
        requires { 0 < most }
        ensures { IfOk result (λ sink. sink ≡ new_sink room most) }
    {
        Ok(MemSink {
            held: Vec::with_capacity(alloc, room)?,
            room,
            most,
            fails: List::new(alloc),
            calls: 0,
            faults: 0,
        })
    }

    /// Lets the call of this number fail, the first call being 1.
    ///
    /// # Errors
    ///
    /// Want of memory; the sink stays as it was.
    pub fn fail(&mut self, call: u64) -> Mem<()>
        ensures ok { OnOk result (self.new ≡ record self.old { fails = self.old.fails ++ call ∷ [] }) }
        ensures err { OnErr result (self.new ≡ self.old) }
    {
        self.fails.push(call)
    }

    /// The bytes that were put so far.
    pub fn bytes(&self) -> &[u8]
        ensures { result.now ≡ self.now.held }
    {
        self.held.as_slice()
    }

    /// How often a call failed; the greatest number stays.
    pub fn faults(&self) -> u64
        ensures { result ≡ self.now.faults }
    {
        self.faults
    }
}

impl Sink for MemSink {
    ghost use Rattle.std.specs.Prelude.{Some};

    ghost held = { λ sink. Some sink.held };

    ghost faults = { λ sink. sink.faults };

    /// Takes as many of the first bytes as have room, and no more than a call takes. It takes no memory.
    ///
    /// # Errors
    ///
    /// `Failed` in a call that is to fail, and for a piece of which no byte has room.
    fn put(&mut self, bytes: &[u8]) -> Result<usize, SinkFault>
        ensures never_falls { self.old.faults ≤ self.new.faults }
        ensures within { IfOk result (λ count. count ≤ length bytes.now) }
        ensures some { IfOk result (λ count. 0 < length bytes.now → 0 < count) }
        ensures took { IfOk result (λ count. Grew (Some self.old.held) (Some self.new.held) (take count bytes.now)) }
        ensures kept { OnErr result (Some self.new.held ≡ Some self.old.held) }
        ensures failed { OnErr result (Rose self.old.faults self.new.faults) }
        ensures counts_failed_alone { OnOk result (self.new.faults ≡ self.old.faults) }
        ensures fails { IsErr result ↔ PutFails self.old bytes.now }
        ensures count { IfOk result (λ count. count ≡ taken self.old bytes.now) }
        ensures after { IfOk result (λ count. self.new
            ≡ record self.old { held = self.old.held ++ take count bytes.now; calls = one_more self.old.calls }) }
        ensures fault { OnErr result
            (self.new ≡ record self.old { calls = one_more self.old.calls; faults = one_more self.old.faults }) }
    {
        self.calls = self.calls.saturating_add(1);
        let count = self.most.min(self.room - self.held.len()).min(bytes.len());
        if is_listed(&self.fails, self.calls) || is_stuck(count, bytes) {
            self.faults = self.faults.saturating_add(1);
            return Err(SinkFault::Failed);
        }
        match self.held.extend_from_slice(&bytes[..count]) {
            Ok(()) => Ok(count),
            Err(_) => unreachable!(),
        }
    }
}

// No byte is taken of a piece that has some.
fn is_stuck(count: usize, bytes: &[u8]) -> bool
    ensures { IsTrue result ↔ ((count ≡ 0) × (0 < length bytes.now)) }
{
    count == 0 && !bytes.is_empty()
}
