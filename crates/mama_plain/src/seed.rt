ghost use Rattle.std.specs.Prelude.{◌≡◌, ◌<◌, ℕ, length, take};
ghost use Rattle.mama_edge.specs.Count.{Rose};
ghost use Rattle.mama_edge.specs.Told.{Appended};
ghost use Rattle.mama_gen.specs.Generated as scripts;
ghost use Rattle.mama_plain.specs.Answers.{IsEndOfGen, OnSilent};

use crate::status::Status;
use mama_edge::{Sink, write_all_counted};
use mama_gen::generated;
use mama_memory::OutOfMemory;
use std::alloc::Global;

/// Writes the script of a seed.
pub(crate) fn write_script<K: Sink>(alloc: Global, seed: u64, sink: &mut K) -> Status
    ensures end { IsEndOfGen result }
    ensures write_fault { (written : ℕ) → result ≡ Status.WriteFault written → Rose (K.faults sink.old) (K.faults sink.new) }
    ensures ok { result ≡ Status.Ok → Appended (K.written sink.old) (K.written sink.new) (scripts.generated seed) }
    ensures part { (written : ℕ) → result ≡ Status.WriteFault written → (written < length (scripts.generated seed))
        × Appended (K.written sink.old) (K.written sink.new) (take written (scripts.generated seed)) }
    ensures silent { OnSilent result (sink.new ≡ sink.old) }
{
    let text = match generated(alloc, seed) {
        Ok(text) => text,
        Err(OutOfMemory) => return Status::OutOfMemory,
    };
    match write_all_counted(sink, text.as_slice()) {
        Ok(()) => Status::Ok,
        Err(fault) => Status::WriteFault {
            written: fault.written,
        },
    }
}
