//! When the record of a run is legal, and what form it has.
//!
//! Definitions alone, for those that read a record, those that judge it and the laws of it: `specs/Legal.antt` says when a
//! record is a legal run of a script, and `specs/Form.antt` how many lists of each kind it has, and which objects and
//! images stand in it, in what order.
#![tactic(auto)]
