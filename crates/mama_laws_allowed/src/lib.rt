//! That clients, queues and publishers put what their ports may put.
//!
//! Laws of the definitions, with no code: what a client puts by its lines, whatever moments it reads
//! ([`client_puts_are_lawful`]); what a queue puts by its journal, where what it took is lawful
//! ([`queue_puts_are_lawful`]); and what a publisher puts by its journal, where it stops in time
//! ([`publisher_puts_are_lawful`]). Every beginning of a lawful list is lawful, so each single put may be made.
//!
//! A publisher that stops in time has sent all its lines once every edge is whole and the ending came
//! ([`stopped_publishers_sent_out`]).
#![tactic(auto)]

mod laws;

pub use laws::{
    client_puts_are_its_own, client_puts_are_lawful, publisher_puts_are_lawful,
    queue_puts_are_lawful, stopped_publishers_sent_out,
};
