// Where bytes are written to.
ghost use Rattle.std.specs.Prelude.{◌≡◌, ◌≤◌, ◌<◌, ℕ, List, [], Option, length, take, IfOk, OnOk, OnErr};
ghost use Rattle.fore_outside.specs.Outside.{Rose, Grew, GrewByPrefix};

use thiserror::Error;

/// Why bytes were not written.
#[derive(Clone, Copy, Debug, Error)]
pub enum SinkFault {
    /// The sink took nothing, and has counted a fault.
    #[error("nothing was written")]
    Failed,
}

/// Where bytes are written to.
pub trait Sink {
    // the bytes that were written so far, where the sink tells them
    ghost held: { Self → Option (List ℕ) };

    // how often a write has failed
    ghost faults: { Self → ℕ };

    /// Appends the first bytes of a piece, and says how many: at least one, unless the piece is empty.
    ///
    /// # Errors
    ///
    /// `Failed` where nothing was appended; the count of faults rises by this answer alone.
    fn put(&mut self, bytes: &[u8]) -> Result<usize, SinkFault>
        ensures never_falls { faults self.old ≤ faults self.new }
        ensures within { IfOk result (λ count. count ≤ length bytes.now) }
        ensures some { IfOk result (λ count. 0 < length bytes.now → 0 < count) }
        ensures took { IfOk result (λ count. Grew (held self.old) (held self.new) (take count bytes.now)) }
        ensures kept { OnErr result (held self.new ≡ held self.old) }
        ensures failed { OnErr result (Rose (faults self.old) (faults self.new)) }
        ensures counts_failed_alone { OnOk result (faults self.new ≡ faults self.old) };
}

/// Appends all bytes of a piece, in as many turns as the sink needs; each turn takes at least one byte, and an empty
/// piece is not put at all.
///
/// # Errors
///
/// `Failed` where the sink's count of faults rose in this call; then a prefix of the piece was appended, and not all of
/// it.
pub fn put_all<K: Sink>(sink: &mut K, bytes: &[u8]) -> Result<(), SinkFault>
    ensures never_falls { K.faults sink.old ≤ K.faults sink.new }
    ensures whole { OnOk result (Grew (K.held sink.old) (K.held sink.new) bytes.now) }
    ensures part { OnErr result (GrewByPrefix (K.held sink.old) (K.held sink.new) bytes.now) }
    ensures failed { OnErr result (Rose (K.faults sink.old) (K.faults sink.new)) }
    ensures counts_failed_alone { OnOk result (K.faults sink.new ≡ K.faults sink.old) }
    ensures empty { bytes.now ≡ [] → sink.new ≡ sink.old }
{
    let mut done = 0;
    'turns: while done < bytes.len() {
        done += sink.put(&bytes[done..])?;
    }
    Ok(())
}
