//! The edge of the repository: where bytes come in, where they go out, what time it is, and the spelling of
//! numbers and quoted texts that all its formats share.
//!
//! A [`Source`], a [`Sink`] and a [`Clock`] may tell what they hold. Where they do, [`read_all`] gives just the bytes
//! that were left, and [`write_all_counted`] appends just the text, or the stated part of it. A fault is answered
//! only where the count of faults of that source or sink rose (`Rose`). The definitions of what is told stand in
//! `specs/Told.antt`, those of counts in `specs/Count.antt`.
//!
//! A number has one decimal spelling (`decimal`, `int_decimal` in `specs/Decimal.antt`), and a text one quoted
//! spelling (`quoted` in `specs/Quoted.antt`). The readers answer a value exactly where the whole text is its
//! spelling, and the printers append that spelling.
#![tactic(auto)]

mod clock;
mod gate;
mod memory_clock;
mod memory_sink;
mod memory_source;
mod number;
mod quotation;
mod reading;
mod room;
mod sink;
mod source;
mod standard;
mod writing;

pub use clock::Clock;
pub use gate::{Gate, GateActor, OpenGate};
pub use mama_memory::OutOfMemory;
pub use memory_clock::MemoryClock;
pub use memory_sink::MemorySink;
pub use memory_source::MemorySource;
pub use number::{
    decimal_has_digits_only, decimal_is_injective, int_decimal_is_injective, print_i64, print_u64,
    read_i64, read_u64,
};
pub use quotation::{print_quoted, quoted_is_injective, quoted_is_printable, read_quoted};
pub use reading::{ReadAll, read_all};
pub use sink::{Sink, WriteFailed};
pub use source::{ReadFailed, Source};
pub use standard::{RealClock, StdSink, StdSource};
pub use writing::{WriteFault, write_all_counted};
