ghost use Rattle.std.specs.Prelude.{◌≡◌, []};
ghost use Rattle.mama_event.specs.Listener.{told, Heard};

use mama_event::{Callback, Listener, Orders};

/// Makes a callback of a listener. The answer is what it ordered.
pub(crate) fn make<L: Listener>(listener: &mut L, call: &Callback) -> Orders
    ensures { Heard call.now (told L.tagged L.calls L.heard L.given L.plan listener.old) (told L.tagged L.calls L.heard L.given L.plan listener.new) result }
{
    let mut orders = Orders::new();
    match call {
        Callback::Create => {
            listener.on_create(&mut orders);
            orders
        }
        Callback::Msg { msg, quality } => {
            listener.on_msg(msg, *quality, &mut orders);
            orders
        }
        Callback::Gap { first, to } => {
            listener.on_gap(*first, *to, &mut orders);
            orders
        }
        Callback::Quality { quality, number } => {
            listener.on_quality(*quality, *number, &mut orders);
            orders
        }
        Callback::RecapRequest { sender } => {
            listener.on_recap_request(*sender, &mut orders);
            orders
        }
        Callback::Late { sender, seq } => {
            listener.on_late(*sender, *seq, &mut orders);
            orders
        }
        Callback::Error { code } => {
            listener.on_error(*code, &mut orders);
            orders
        }
        Callback::Destroy => {
            listener.on_destroy(&mut orders);
            orders
        }
        Callback::Tick { moment } => {
            listener.on_tick(*moment, &mut orders);
            orders
        }
        Callback::Reply { body } => {
            listener.on_reply(body, &mut orders);
            orders
        }
    }
}
