//! What holds of all packets and pieces. The calls do nothing: what they ensure is the law.
ghost use Rattle.mama_packet.specs.Laws.{BytesTellTheMessage, MessageTellsTheBytes, MessageIsTheOneSpelled, PacketIsRead, CutIsTruncated, LongCutChangesNothing};

use mama_payload::{spellings_are_apart, spellings_are_read};

/// Packets with equal bytes spell equal messages, and packets of equal messages have equal bytes. So the message of a
/// packet is the one that it spells.
pub fn packets_are_their_messages()
    ensures message { BytesTellTheMessage }
    ensures bytes { MessageTellsTheBytes }
    ensures of { MessageIsTheOneSpelled }
{
    spellings_are_apart();
    spellings_are_read();
}

/// The bytes of a packet, of which nothing was cut, are read as its message, and a cut to their length or more cuts
/// nothing.
pub fn packets_are_read()
    ensures read { PacketIsRead }
    ensures whole { LongCutChangesNothing }
{
    spellings_are_read();
}

/// The bytes of a packet that was cut short are `Truncated` at the length to which it was cut.
pub fn cut_packets_are_truncated()
    ensures { CutIsTruncated }
{
    spellings_are_read();
}
