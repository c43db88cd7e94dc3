ghost use Rattle.std.specs.Prelude.{◌≡◌, IfOk};
ghost use Rattle.mama_packet.specs.Packet.{message_of};
ghost use Rattle.mama_event.specs.Wire.{market_of};

use mama_event::{MarketMsg, Packet, WireMsg};
use mama_memory::OutOfMemory;
use mama_msg::Msg;
use std::alloc::Global;

/// The fields as they travel. The error is want of memory, and comes also where there are more than 64, which no publisher
/// sends.
pub fn packed(alloc: Global, body: &Msg) -> Result<Packet, OutOfMemory>
    ensures { IfOk result (λ packet. message_of packet ≡ body.now) }
{
    match Packet::pack(alloc, body) {
        Ok(packet) => Ok(packet),
        Err(_) => Err(OutOfMemory),
    }
}

/// The message as it travels. The error is as that of [`packed`].
pub fn packed_message(alloc: Global, msg: &MarketMsg) -> Result<WireMsg, OutOfMemory>
    ensures { IfOk result (λ wire. market_of wire ≡ msg.now) }
{
    match WireMsg::of(alloc, msg) {
        Ok(wire) => Ok(wire),
        Err(_) => Err(OutOfMemory),
    }
}

/// A message as it travels, with the body that the packet spells in the place of its own.
pub fn with_body(msg: &MarketMsg, body: Packet) -> WireMsg
    ensures { market_of result ≡ record msg.now { body = message_of body } }
{
    WireMsg {
        kind: msg.kind,
        sender: msg.sender,
        seq: msg.seq,
        body,
    }
}
