//! Messages as bytes: the payload, in two versions.
//!
//! A message of at most 64 fields has one spelling: the version, the number of its fields, and each field with its tag,
//! fid, name and value. The version is 2 exactly where some field is a list of numbers (`version_of`).
//! `specs/Spelling.antt` is the whole format, with what has a spelling (`HasSpelling`).
//! [`encode`] gives the spelling of each message that is not too long.
//!
//! [`decode`] answers every list of bytes. `specs/Reading.antt` says what bytes are read as (`decoded`): the message
//! that they spell, or the first fault from the front with its place. What is read is spelled so, and what is spelled so
//! is read, unless there is no memory for the message.
//!
//! The laws of spellings and of faults are the contracts of calls with empty bodies: [`spellings_are_apart`],
//! [`spellings_are_read`], [`spellings_are_bytes`] and [`faults_stand`].
#![tactic(auto)]

mod decoding;
mod encoding;
mod fault;
mod kind;
mod laws;
mod letters;
mod reading;
mod version;

pub use decoding::decode;
pub use encoding::{MAX_FIELDS, encode};
pub use fault::{DecodeFault, EncodeFault};
pub use laws::{faults_stand, spellings_are_apart, spellings_are_bytes, spellings_are_read};
pub use mama_memory::OutOfMemory;
pub use version::Version;
