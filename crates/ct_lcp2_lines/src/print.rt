//! Prints a text line by line.
ghost use Rattle.std.specs.Prelude.{◌≤◌, ◌<◌, length, OnErr, OnOk};
ghost use Rattle.std.specs.Io.KnownBytes.{Appends};
ghost use Rattle.ct_outside.specs.Causes.{AppendsPart, HasWriteCause};

use ct_outside::fault::SinkFault;
use ct_outside::sink::{Sink, write_all};

/// Where the line ends that begins at `from`: behind its line feed, or where the text ends.
fn line_end(text: &[u8], from: usize) -> usize
    requires { from < length text.now }
    ensures some { from < result }
    ensures within { result ≤ length text.now }
{
    let mut last = from;
    while last + 1 < text.len() && text[last] != b'\n' {
        last += 1;
    }
    last + 1
}

/// Prints a text, each line by one write where the sink takes it whole. A fault leaves a front of it printed.
pub fn print<K: Sink>(text: &[u8], out: &mut K) -> Result<(), SinkFault>
    ensures ok { OnOk result (Appends (K.held out.old) (K.held out.new) text.now) }
    ensures err { OnErr result (AppendsPart (K.held out.old) (K.held out.new) text.now) }
    ensures cause { HasWriteCause (K.faults out.old) (K.faults out.new) result }
{
    let mut done = 0;
    while done < text.len() {
        let end = line_end(text, done);
        write_all(out, &text[done..end])?;
        done = end;
    }
    Ok(())
}
