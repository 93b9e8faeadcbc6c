// A sink over a real stream: the trusted edge of what is written.
ghost use Rattle.std.specs.Prelude.{◌≡◌, ◌≤◌, ◌<◌, length, take, IfOk, OnOk, OnErr, IfSome, IfNone};
ghost use Rattle.std.specs.Io.KnownBytes.{Appends, Keeps};
ghost use Rattle.fore_outside.specs.Counts.{one_more};
ghost use Rattle.fore_outside.specs.Outside.{Rose, Grew, untold};

use crate::sink::{Sink, SinkFault};
use std::io;

/// A sink that writes to a stream, such as the standard output. It does not tell what the stream holds.
#[derive(Drop)]
pub struct StreamSink<W: io::Write + Drop> {
    to: W,
    faults: u64,
}

impl<W: io::Write + Drop> StreamSink<W> {
    /// A sink over a stream, which it keeps.
    pub fn new(to: W) -> StreamSink<W>
        ensures faults { result.faults ≡ 0 }
        ensures stream { result.to ≡ to }
    {
        StreamSink { to, faults: 0 }
    }

    /// How often a write failed; the greatest number stays.
    pub fn faults(&self) -> u64
        ensures { result ≡ self.now.faults }
    {
        self.faults
    }
}

impl<W: io::Write + Drop> Sink for StreamSink<W> {
    ghost held = { λ _. untold };

    ghost faults = { λ sink. sink.faults };

    /// One write to the stream, tried again where a signal came between.
    ///
    /// # Errors
    ///
    /// `Failed` where the stream fails, or takes no byte of a piece that has some.
    fn put(&mut self, bytes: &[u8]) -> Result<usize, SinkFault>
        ensures never_falls { self.old.faults ≤ self.new.faults }
        ensures within { IfOk result (λ count. count ≤ length bytes.now) }
        ensures some { IfOk result (λ count. 0 < length bytes.now → 0 < count) }
        ensures took { IfOk result (λ count. Grew untold untold (take count bytes.now)) }
        ensures kept { OnErr result (untold ≡ untold) }
        ensures failed { OnErr result (Rose self.old.faults self.new.faults) }
        ensures written { IfOk result
            (λ count. Appends (W.contents self.old.to) (W.contents self.new.to)
            (take count bytes.now)) }
        ensures untouched { OnErr result (Keeps (W.contents self.old.to) (W.contents self.new.to)) }
        ensures counted { OnErr result (self.new.faults ≡ one_more self.old.faults) }
        ensures counts_failed_alone { OnOk result (self.new.faults ≡ self.old.faults) }
    {
        match write_once(&mut self.to, bytes) {
            Some(count) if count > 0 || bytes.is_empty() => Ok(count),
            _ => {
                self.faults = self.faults.saturating_add(1);
                Err(SinkFault::Failed)
            }
        }
    }
}

// One write, tried again where a signal came between.
fn write_once<W: io::Write>(to: &mut W, bytes: &[u8]) -> Option<usize>
    ensures within { IfSome result (λ count. count ≤ length bytes.now) }
    ensures written { IfSome result (λ count. Appends (W.contents to.old) (W.contents to.new) (take count bytes.now)) }
    ensures kept { IfNone result (Keeps (W.contents to.old) (W.contents to.new)) }
{
    'tries: for _ in 0..u64::MAX {
        match to.write(bytes) {
            Ok(count) => return Some(count),
            Err(error) if error.kind() == io::ErrorKind::Interrupted => {}
            Err(_) => return None,
        }
    }
    None
}
