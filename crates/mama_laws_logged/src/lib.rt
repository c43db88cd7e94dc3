//! Each legal record is one that a log of its script can tell, and its log tells no other.
//!
//! Laws of the definitions. What the actors put names what the script declares, and its numbers and messages fit their
//! types, whichever thread ran what when, if the script's text has at most 67,108,864 bytes ([`legal_records_are_logged`],
//! `specs/Telling.antt`). The moments that clients read are no part of a script; that they fit their type is known of a record
//! in memory ([`moments_fit`], and [`log_fits`] of a log). Two records with one log are one
//! ([`logs_tell_one_record`]). And what is told of a script can be told of the same script in version 2, and is legal there just where
//! it was ([`records_stay_in_two`], `specs/InTwo.antt`).
#![tactic(auto)]

mod laws;
mod moments;

pub use laws::{legal_records_are_logged, logs_tell_one_record, records_stay_in_two};
pub use moments::{log_fits, moments_fit};
