//! Scripts: the text that says what is published and what each client does.
//!
//! A text is read in three stages: text to lines, where each line has its form and fits those before it; a second look
//! at the objects that lines name; and the lines to the script's sections. The stages meet in the list of parsed lines:
//! `specs/Line.antt` says how a line is spelled, `specs/Form.antt` how it is read by its own form, `specs/Before.antt` what
//! the lines before it say, `specs/Names.antt` which objects there are, `specs/Reading.antt` what reading the whole gives,
//! and `specs/Tree.antt` which lines a script has.
//!
//! [`parse`] gives just what that reading gives, and [`print`] the one spelling; each undoes the other.
//! [`first_fault_is_told`] says in plain words which line a refusal names, and [`Script::shape`] what the users of a
//! script may rely on. `specs/Placing.antt` says which groups and watches there may be.
#![tactic(auto)]

mod client;
mod context;
mod fault;
mod form;
mod head;
mod laws;
mod line;
mod names;
mod parsing;
mod placing;
mod plan;
mod printing;
mod publisher;
mod script;
mod tree;

pub use client::{ClientLine, ClientLines, QueueWord};
pub use fault::{Flaw, ScriptFault};
pub use laws::{
    first_fault_is_told, lines_that_are_read_are_accepted, scripts_are_compared_exactly,
    spelled_scripts_are_read,
};
pub use mama_memory::OutOfMemory;
pub use parsing::parse;
pub use plan::Plan;
pub use printing::print;
pub use publisher::{PublisherLine, PublisherLines, PublisherPart};
pub use script::Script;
