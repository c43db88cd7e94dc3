//! Messages of the market as they travel.
ghost use Rattle.std.specs.Prelude.{◌≡◌, ◌<◌, ◌↔◌, ◌⊎◌, length, IfOk, Err};
ghost use Rattle.mama_packet.specs.Packet.{Spells, message_of};
ghost use Rattle.mama_event.specs.Arrival as arrival;
ghost use Rattle.mama_event.specs.Wire as wire;
ghost use Rattle.mama_event.specs.WireLaws.{WholeMessagesArrive, WholeRepliesArrive, CutMessagesArrive, CutRepliesArrive};

use crate::market::{MarketMsg, MsgKind};
use mama_link::Cuttable;
use mama_memory::{Duplicate, OutOfMemory};
use mama_packet::{Packet, Piece, cut_packets_are_truncated, packets_are_read};
use mama_payload::{DecodeFault, EncodeFault};
use std::alloc::Global;

/// A message of the market that is packed to travel.
#[derive(Debug, Drop)]
pub struct WireMsg {
    pub kind: MsgKind,
    pub sender: u32,
    pub seq: u32,
    pub body: Packet,
}

impl WireMsg {
    /// The message, packed. To refuse one of more than 64 fields takes no memory.
    pub fn of(alloc: Global, msg: &MarketMsg) -> Result<WireMsg, EncodeFault>
        ensures market { IfOk result (λ packed. wire.market_of packed ≡ msg.now) }
        ensures spelled { IfOk result (λ packed. Spells packed.body msg.now.body) }
        ensures too_many { (result ≡ Err EncodeFault.TooMany) ↔ (64 < length msg.now.body) }
    {
        let body = Packet::pack(alloc, &msg.body)?;
        Ok(WireMsg {
            kind: msg.kind,
            sender: msg.sender,
            seq: msg.seq,
            body,
        })
    }

    /// The message that is packed. It takes time in proportion to the bytes of the body.
    pub fn into_market(&self) -> Result<MarketMsg, OutOfMemory>
        ensures market { IfOk result (λ market. wire.market_of self.now ≡ market) }
        ensures spelled { IfOk result (λ market. Spells self.now.body market.body) }
    {
        let body = self.body.unpack()?;
        Ok(MarketMsg {
            kind: self.kind,
            sender: self.sender,
            seq: self.seq,
            body,
        })
    }

    /// The same message with its body as a piece, of which nothing is cut. It takes no memory.
    pub fn into_piece(self) -> PieceMsg
        ensures value { result ≡ wire.whole_piece self }
        ensures spelled { Spells self.body (message_of self.body) }
    {
        PieceMsg {
            kind: self.kind,
            sender: self.sender,
            seq: self.seq,
            body: self.body.into_piece(),
        }
    }
}

impl PartialEq for WireMsg {
    ghost use Rattle.std.specs.Prelude.{◌≡◌};
    ghost use Rattle.std.specs.Cmp.{partial_equiv_from_equiv};
    ghost use Rattle.mama_event.specs.Equality.{same_wire_msg};
    ghost use Rattle.mama_event.specs.EqualityLaws.{same_wire_msg_equivalence};

    ghost eq = { same_wire_msg };

    ghost laws = { partial_equiv_from_equiv same_wire_msg_equivalence };

    fn eq(&self, other: &WireMsg) -> bool
        ensures { result ≡ same_wire_msg self.now other.now }
    {
        self.kind == other.kind
            && self.sender == other.sender
            && self.seq == other.seq
            && self.body == other.body
    }
}

impl Eq for WireMsg {
    ghost use Rattle.mama_event.specs.EqualityLaws.{same_wire_msg_equivalence};

    ghost laws = { same_wire_msg_equivalence };
}

impl Duplicate for WireMsg {
    fn try_clone(&self) -> Result<WireMsg, OutOfMemory> {
        let body = self.body.try_clone()?;
        Ok(WireMsg {
            kind: self.kind,
            sender: self.sender,
            seq: self.seq,
            body,
        })
    }
}

/// A message of the market whose body may have been cut on its way.
#[derive(Debug, Drop)]
pub struct PieceMsg {
    pub kind: MsgKind,
    pub sender: u32,
    pub seq: u32,
    pub body: Piece,
}

impl PieceMsg {
    /// The message whose body the bytes spell, or the first fault in them from the front, with its place. It takes time in
    /// proportion to the bytes of the body.
    pub fn into_market(&self) -> Result<MarketMsg, DecodeFault>
        ensures found { IfOk result (λ market. Spells self.now.body market.body) }
        ensures exact { (result ≡ Err DecodeFault.OutOfMemory) ⊎ (result ≡ wire.read_as self.now) }
    {
        let body = self.body.unpack()?;
        Ok(MarketMsg {
            kind: self.kind,
            sender: self.sender,
            seq: self.seq,
            body,
        })
    }
}

impl PartialEq for PieceMsg {
    ghost use Rattle.std.specs.Prelude.{◌≡◌};
    ghost use Rattle.std.specs.Cmp.{partial_equiv_from_equiv};
    ghost use Rattle.mama_event.specs.Equality.{same_piece_msg};
    ghost use Rattle.mama_event.specs.EqualityLaws.{same_piece_msg_equivalence};

    ghost eq = { same_piece_msg };

    ghost laws = { partial_equiv_from_equiv same_piece_msg_equivalence };

    fn eq(&self, other: &PieceMsg) -> bool
        ensures { result ≡ same_piece_msg self.now other.now }
    {
        self.kind == other.kind
            && self.sender == other.sender
            && self.seq == other.seq
            && self.body == other.body
    }
}

impl Eq for PieceMsg {
    ghost use Rattle.mama_event.specs.EqualityLaws.{same_piece_msg_equivalence};

    ghost laws = { same_piece_msg_equivalence };
}

impl Duplicate for PieceMsg {
    fn try_clone(&self) -> Result<PieceMsg, OutOfMemory> {
        let body = self.body.try_clone()?;
        Ok(PieceMsg {
            kind: self.kind,
            sender: self.sender,
            seq: self.seq,
            body,
        })
    }
}

impl Cuttable for PieceMsg {
    ghost use Rattle.mama_event.specs.Arrival.{cut_body};

    ghost cut_to = { cut_body };

    fn cut(&mut self, keep: u32) {
        self.body.cut(keep);
    }
}

/// The code of a fault, by which a listener is told of it. Want of memory is no fault of the bytes, and has the code 0.
pub fn error_code(fault: DecodeFault) -> u8
    ensures { result ≡ arrival.error_code fault }
{
    match fault {
        DecodeFault::Truncated { at: _ } => 1,
        DecodeFault::BadTag { at: _ } => 2,
        DecodeFault::BadText { at: _ } => 3,
        DecodeFault::Repeated { at: _ } => 4,
        DecodeFault::TooMany { at: _ } => 5,
        DecodeFault::Trailing { at: _ } => 6,
        DecodeFault::OldForm { at: _ } => 7,
        DecodeFault::OutOfMemory => 0,
    }
}

/// The code of the first fault in some bytes, and 0 where they spell a message.
pub fn code_of(bytes: &Piece) -> Result<u8, OutOfMemory>
    ensures { IfOk result (λ code. code ≡ arrival.code_of bytes.now) }
{
    match bytes.unpack() {
        Ok(_) => Ok(0),
        Err(DecodeFault::OutOfMemory) => Err(OutOfMemory),
        Err(fault) => Ok(error_code(fault)),
    }
}

/// A law: a packed message of which nothing was cut arrives, and of one that was cut what a cut leaves of it.
pub fn packed_messages_arrive()
    ensures whole { WholeMessagesArrive }
    ensures cut { CutMessagesArrive }
    ensures whole_replies { WholeRepliesArrive }
    ensures cut_replies { CutRepliesArrive }
{
    packets_are_read();
    cut_packets_are_truncated();
}
