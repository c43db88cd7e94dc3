ghost use Rattle.std.specs.Prelude.{◌≡◌, None};

use crate::clock::Clock;
use crate::sink::{Sink, WriteFailed};
use crate::source::{ReadFailed, Source};
use std::io::{Read, Write};
use std::time;

/// A reader as a source. It tells the bytes that its reader tells: those of memory, and none of the standard input.
///
/// Each read that answers an error is a fault, and the count of faults stands still at 2^64 - 1.
#[derive(Drop)]
pub struct StdSource<R> {
    inner: R,
    faults: u64,
}

impl<R: Read> StdSource<R> {
    /// The reader, before any fault.
    pub fn new(inner: R) -> StdSource<R>
        ensures tells { ⟦<StdSource<R> as Source>⟧.left result ≡ R.remaining inner }
        ensures fresh { ⟦<StdSource<R> as Source>⟧.faults result ≡ 0 }
    {
        StdSource { inner, faults: 0 }
    }
}

impl<R: Read> Source for StdSource<R> {
    ghost left = { λ s. R.remaining s.inner };

    ghost faults = { λ s. s.faults };

    fn read(&mut self, buf: &mut [u8]) -> Result<usize, ReadFailed> {
        match self.inner.read(buf) {
            Ok(count) => Ok(count),
            Err(_) => {
                self.faults = self.faults.saturating_add(1);
                Err(ReadFailed)
            }
        }
    }
}

/// A writer as a sink. It tells the bytes that its writer tells: those in memory, and none of the standard output. It
/// does not flush: lend it the writer, and flush that.
///
/// Each write that answers an error or takes no byte is a fault, and the count of faults stands still at 2^64 - 1.
#[derive(Drop)]
pub struct StdSink<W> {
    inner: W,
    faults: u64,
}

impl<W: Write> StdSink<W> {
    /// The writer, before any fault.
    pub fn new(inner: W) -> StdSink<W>
        ensures tells { ⟦<StdSink<W> as Sink>⟧.written result ≡ W.contents inner }
        ensures fresh { ⟦<StdSink<W> as Sink>⟧.faults result ≡ 0 }
    {
        StdSink { inner, faults: 0 }
    }
}

impl<W: Write> Sink for StdSink<W> {
    ghost written = { λ s. W.contents s.inner };

    ghost faults = { λ s. s.faults };

    fn write(&mut self, buf: &[u8]) -> Result<usize, WriteFailed> {
        match self.inner.write(buf) {
            Ok(count) if count > 0 => Ok(count),
            _ => {
                self.faults = self.faults.saturating_add(1);
                Err(WriteFailed)
            }
        }
    }
}

/// The system's clock, in milliseconds since 1970. It tells no moments. Where the system's clock can't be read, the
/// moment is the one that was answered before, or 0.
#[derive(Drop)]
pub struct RealClock<C> {
    system: C,
    last: u64,
}

impl<C> RealClock<C> {
    /// The clock of this runtime.
    pub fn new(system: C) -> RealClock<C> {
        RealClock { system, last: 0 }
    }
}

impl<C: time::Clock> Clock for RealClock<C> {
    ghost left = { λ _. None };

    fn now(&mut self) -> u64 {
        if let Ok(time) = self.system.since_1970() {
            self.last = u64::try_from(time.as_millis()).unwrap_or(u64::MAX);
        }
        self.last
    }
}
