ghost use Rattle.std.specs.Prelude.{◌<◌, ◌≤◌, length, take, IfErr, OnOk, OnErr};
ghost use Rattle.mama_edge.specs.Count.{Rose};
ghost use Rattle.mama_edge.specs.Told.{Appended};

use crate::sink::Sink;
use std::error::Error;
use std::fmt;

/// A write failed, after so many bytes.
#[derive(Clone, Copy, Debug, PartialEq, Eq)]
pub struct WriteFault {
    /// How many bytes were written before.
    pub written: u64,
}

impl fmt::Display for WriteFault {
    fn fmt<W: fmt::Write>(&self, f: &mut fmt::Formatter<W>) -> fmt::Result {
        let written = self.written;
        write!(f, "a write failed after {written} bytes")
    }
}

impl Error for WriteFault {}

/// Writes the text, all of it or up to the first write that fails. It takes no memory. An empty text is no write.
pub fn write_all_counted<K: Sink>(sink: &mut K, text: &[u8]) -> Result<(), WriteFault>
    ensures whole { OnOk result (Appended (K.written sink.old) (K.written sink.new) text.now) }

    // At a fault a part was written, which is not the whole.
    ensures part { IfErr result (λ fault.
        Appended (K.written sink.old) (K.written sink.new) (take fault.written text.now)) }
    ensures less { IfErr result (λ fault. fault.written < length text.now) }
    ensures fault { OnErr result (Rose (K.faults sink.old) (K.faults sink.new)) }

    ensures never_falls { K.faults sink.old ≤ K.faults sink.new }
{
    let mut done = 0;
    'pieces: while done < text.len() {
        match sink.write(&text[done..]) {
            Ok(count) => done += count,
            Err(_) => {
                return Err(WriteFault {
                    written: done as u64,
                });
            }
        }
    }
    Ok(())
}
