//! Packets.
ghost use Rattle.std.specs.Prelude.{◌≡◌, ◌<◌, ◌↔◌, length, IsTrue, IfOk};
ghost use Rattle.std.specs.Cmp.{partial_equiv_from_equiv};
ghost use Rattle.std.specs.Cmp.Lexicographic.{nat_list_eq_equiv};
ghost use Rattle.std.specs.Str.{bytes_eq};
ghost use Rattle.mama_packet.specs.Packet.{Spells, message_of};

use crate::piece::Piece;
use mama_memory::{Duplicate, OutOfMemory};
use mama_msg::Msg;
use mama_payload::{DecodeFault, EncodeFault, decode, encode, spellings_are_read};
use std::alloc::Global;
use std::marker::Model;
use std::sync::Arc;

/// The bytes of one message of at most 64 fields. Copies share them.
#[derive(Debug, Drop)]
pub struct Packet {
    bytes: Arc<Vec<u8>>,
}

impl Model for Packet {
    ghost use Rattle.std.specs.Prelude.{List, ℕ};
    ghost use Rattle.std.specs.Arc.{arc_value};
    ghost use Rattle.mama_packet.specs.Packet.{IsSpelling};

    ghost Value = { List ℕ };

    ghost view = { λ p. (arc_value p.bytes).items };

    ghost invariant = { λ p. IsSpelling (arc_value p.bytes).items };
}

impl Packet {
    /// The packet of a message. To refuse one of more than 64 fields takes no memory.
    pub fn pack(alloc: Global, msg: &Msg) -> Result<Packet, EncodeFault>
        ensures spelled { IfOk result (λ packet. Spells packet msg.now) }
        ensures message { IfOk result (λ packet. message_of packet ≡ msg.now) }
        ensures too_many { (result ≡ Err EncodeFault.TooMany) ↔ (64 < length msg.now) }
    {
        spellings_are_read();
        let bytes = encode(alloc, msg)?;
        match Arc::new(alloc, bytes) {
            Ok(bytes) => Ok(Packet { bytes }),
            Err(_) => Err(EncodeFault::OutOfMemory),
        }
    }

    /// The message that the bytes spell. It takes time in proportion to the bytes. The error is want of memory.
    pub fn unpack(&self) -> Result<Msg, OutOfMemory>
        ensures spelled { IfOk result (λ msg. Spells self.now msg) }
        ensures message { IfOk result (λ msg. message_of self.now ≡ msg) }
    {
        match decode(*self.bytes.allocator(), self.bytes.as_slice()) {
            Ok(msg) => Ok(msg),
            Err(DecodeFault::OutOfMemory) => Err(OutOfMemory),
            // The bytes are a spelling.
            Err(_) => unreachable!(),
        }
    }

    /// The bytes.
    pub fn bytes(&self) -> &[u8]
        ensures value { result.now ≡ self.now }
        ensures spelled { Spells self.now (message_of self.now) }
    {
        spellings_are_read();
        self.bytes.as_slice()
    }

    /// The same bytes as a piece, of which nothing is cut. It takes no memory.
    pub fn into_piece(self) -> Piece
        ensures value { result ≡ self }
        ensures spelled { Spells self (message_of self) }
    {
        spellings_are_read();
        Piece::of_block(self.bytes)
    }

    /// An equal packet, which shares the bytes. The error says that no more copies can be counted: it takes no memory.
    pub fn try_clone(&self) -> Result<Packet, OutOfMemory>
        ensures equal { IfOk result (λ copy. copy ≡ self.now) }
    {
        let bytes = Arc::try_clone(&self.bytes)?;
        Ok(Packet { bytes })
    }
}

impl Duplicate for Packet {
    fn try_clone(&self) -> Result<Packet, OutOfMemory> {
        Packet::try_clone(self)
    }
}

impl PartialEq for Packet {
    ghost eq = { bytes_eq };

    ghost laws = { partial_equiv_from_equiv nat_list_eq_equiv };

    fn eq(&self, other: &Packet) -> bool
        ensures value { result ≡ bytes_eq self.now other.now }
        ensures exact { IsTrue result ↔ (self.now ≡ other.now) }
    {
        self.bytes() == other.bytes()
    }
}

impl Eq for Packet {
    ghost laws = { nat_list_eq_equiv };
}
