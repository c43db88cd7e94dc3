//! The words of journals and lanes, which every layer cites: what an actor's journal puts, what came by which
//! port, and when a lane keeps everything that was put on it. There is no code here.
//!
//! A journal is the list of an actor's entries in order. An actor puts, at each entry, what its rules say for
//! that entry and the entries before it. A lane carries what several numbered ports put to one taker.
#![tactic(auto)]
