//! Where bytes go to.
ghost use Rattle.std.specs.Prelude.{◌≤◌, ℕ, List, Option, length, IfOk, OnOk, OnErr};
ghost use Rattle.std.specs.Io.KnownBytes.{Appends, WriteAppends};
ghost use Rattle.ct_outside.specs.Causes.{AppendsPart, HasWriteCause, TakesSome};

use crate::fault::SinkFault;

/// Bytes that are written to the end. Its count of faults never falls.
pub trait Sink {
    /// What it holds, where the sink tells it.
    ghost held: { Self → Option (List ℕ) };

    /// How often it has failed.
    ghost faults: { Self → ℕ };

    /// Appends a front of `piece`, as long as the answer says, and not empty unless `piece` is. A fault appends nothing.
    fn write(&mut self, piece: &[u8]) -> Result<usize, SinkFault>
        ensures bound { IfOk result (λ n. n ≤ length piece.now) }
        ensures some { TakesSome result (length piece.now) }
        ensures bytes { WriteAppends (held self.old) (held self.new) result piece.now }
        ensures cause { HasWriteCause (faults self.old) (faults self.new) result };
}

/// Appends all of `bytes`, in as many writes as it takes: one where the sink takes all at once. A fault leaves a front of them appended.
pub fn write_all<K: Sink>(out: &mut K, bytes: &[u8]) -> Result<(), SinkFault>
    ensures ok { OnOk result (Appends (K.held out.old) (K.held out.new) bytes.now) }
    ensures err { OnErr result (AppendsPart (K.held out.old) (K.held out.new) bytes.now) }
    ensures cause { HasWriteCause (K.faults out.old) (K.faults out.new) result }
{
    let mut done = 0;
    while done < bytes.len() {
        done += out.write(&bytes[done..])?;
    }
    Ok(())
}
