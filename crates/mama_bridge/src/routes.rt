ghost use Rattle.std.specs.Prelude.{◌≡◌, ◌<◌, ◌++◌, OnOk, OnErr, nat_lt, if◌then◌else◌};
ghost use Rattle.mama_event.specs.Arrival.{piece_of};
ghost use Rattle.mama_event.specs.declared.market.MarketMsg.{MarketMsg};
ghost use Rattle.mama_laws_bridge.specs.Table.{SubRow, sub_passed, sub_wished};
ghost use Rattle.mama_bridge.specs.Links.{sub_seen, sub_view, emit_outs, wish_outs};

use crate::out::BridgeOut;
use crate::subs::{self, SubLink};
use mama_event::{MsgKind, PieceMsg, ToPublisher};
use mama_memory::{OutOfMemory, Outbox};
use std::alloc::Global;

/// Passes a message through one link.
pub(crate) fn send<L>(
    alloc: Global,
    link: &mut SubLink,
    msg: &PieceMsg,
    out: &mut Outbox<BridgeOut<L>>,
) -> Result<(), OutOfMemory>
    ensures sub { link.new.sub ≡ link.old.sub }
    ensures ok { OnOk result ((m : MarketMsg) → msg.now ≡ piece_of m → (row : SubRow) → sub_seen link.old ≡ sub_view row → (sub_seen link.new ≡ sub_view (sub_passed m row)) × (out.new.items ≡ out.old.items ++ emit_outs m row)) }
    ensures seen { OnErr result (sub_seen link.new ≡ sub_seen link.old) }
    ensures err { OnErr result (out.new.items ≡ out.old.items) }
{
    let total = subs::prepare(link, msg)?;
    out.reserve(total)?;
    let mut msgs = Outbox::new(alloc);
    msgs.reserve(total)?;
    subs::pass(link, &mut msgs, out);
    Ok(())
}

/// Forwards a wish of a link, if its terms allow one more.
pub(crate) fn wish_one<L>(
    link: &mut SubLink,
    sender: u32,
    out: &mut Outbox<BridgeOut<L>>,
) -> Result<(), OutOfMemory>
    requires { 0 < sender }
    ensures sub { link.new.sub ≡ link.old.sub }
    ensures ok { OnOk result ((row : SubRow) → sub_seen link.old ≡ sub_view row → (sub_seen link.new ≡ sub_view (if nat_lt row.wished row.terms.recaps then sub_wished row else row)) × (out.new.items ≡ out.old.items ++ wish_outs sender row)) }
    ensures seen { OnErr result (sub_seen link.new ≡ sub_seen link.old) }
    ensures err { OnErr result (out.new.items ≡ out.old.items) }
{
    if link.wished < link.recaps {
        let event = ToPublisher::Want {
            sub: link.sub,
            kind: MsgKind::Recap,
        };
        out.reserve(1)?;
        out.push_reserved(BridgeOut::Publisher(sender - 1, event));
        link.wished += 1;
    }
    Ok(())
}
