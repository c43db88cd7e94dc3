ghost use Rattle.std.specs.Prelude.{◌≡◌, ◌≤◌, ◌<◌, ℕ, List, length, take};
ghost use Rattle.mama_edge.specs.Count.{Rose};
ghost use Rattle.mama_edge.specs.Told.{Appended};
ghost use Rattle.mama_plain.specs.Answers.{IsEndOfGen, OnSilent};
ghost use Rattle.mama_soak.specs.Soak.{IsSoak};

use mama_edge::{Gate, Sink, write_all_counted};
use mama_memory::OutOfMemory;
use mama_plain::Status;
use mama_soak::soak;
use std::alloc::Global;
use std::sync::Wait;
use std::thread::Threads;

/// Plays the script of a seed on threads, and writes what its legal record counts.
pub(crate) fn write_soak<K: Sink, G: Gate + Sync, Rt: Threads + Wait + Copy + Drop + Send + Sync>(
    rt: &Rt,
    alloc: Global,
    seed: u64,
    workers: u32,
    sink: &mut K,
    gate: &G,
) -> Status
    requires { (1 ≤ workers) × (workers ≤ 64) }
    ensures end { IsEndOfGen result }
    ensures write_fault { (written : ℕ) → result ≡ Status.WriteFault written → Rose (K.faults sink.old) (K.faults sink.new) }
    ensures ok { result ≡ Status.Ok → (out : List ℕ) × IsSoak seed out × Appended (K.written sink.old) (K.written sink.new) out }
    ensures part { (written : ℕ) → result ≡ Status.WriteFault written → (out : List ℕ) × IsSoak seed out × (written < length out)
        × Appended (K.written sink.old) (K.written sink.new) (take written out) }
    ensures silent { OnSilent result (sink.new ≡ sink.old) }
{
    let out = match soak(rt, alloc, seed, workers, gate) {
        Ok(out) => out,
        Err(OutOfMemory) => return Status::OutOfMemory,
    };
    match write_all_counted(sink, out.as_bytes()) {
        Ok(()) => Status::Ok,
        Err(fault) => Status::WriteFault {
            written: fault.written,
        },
    }
}
