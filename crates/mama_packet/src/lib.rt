//! Messages as blocks of bytes that travel.
//!
//! A [`Packet`] has the bytes of one message of at most 64 fields, and contracts see it as the list of those bytes.
//! [`Packet::pack`] spells a message, [`Packet::unpack`] gives the message that is spelled. `specs/Packet.antt` says which
//! bytes spell a message (`Spells`), and which one (`message_of`).
//!
//! On its way a packet may be cut. A [`Piece`] has any bytes, seen as their list: those of a packet
//! ([`Packet::into_piece`]), those of them that a cut left, or what was found elsewhere ([`Piece::of_bytes`]).
//! [`Piece::unpack`] answers as `decode` of the bytes.
//!
//! Both share their bytes with their copies, so that a copy takes no memory, and no time by the bytes. A cut lowers a
//! length that stands beside the bytes, and other copies keep theirs.
//!
//! The laws of packets and pieces are the contracts of calls with empty bodies: [`packets_are_their_messages`],
//! [`packets_are_read`] and [`cut_packets_are_truncated`].
#![tactic(auto)]

mod laws;
mod packet;
mod piece;

pub use laws::{cut_packets_are_truncated, packets_are_read, packets_are_their_messages};
pub use mama_memory::{Duplicate, OutOfMemory};
pub use packet::Packet;
pub use piece::Piece;
