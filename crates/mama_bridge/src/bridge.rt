ghost use Rattle.std.specs.Prelude.{◌≡◌, ◌↔◌, ◌++◌, map, true, IfErr, OnOk, OnErr};
ghost use Rattle.mama_event.specs.ToBridge.{note_of};
ghost use Rattle.mama_rules_services.specs.Bridge.{bridge_puts_at};
ghost use Rattle.mama_bridge.specs.Outs.{put_note, listeners};
ghost use Rattle.mama_bridge.specs.Routing.{Routing, routed, is_last_bye, carried_by};

use crate::out::BridgeOut;
use mama_event::{BridgeNote, Tagged, ToBridge, Took};
use mama_memory::Outbox;

/// What carries events between the actors: it routes what publishers send, gives each object a slot of its queue, and
/// decides the ending. A caller sees its shape and its journal, by `routing`, and nothing of how it keeps them.
///
/// The clauses hold of every event, by every port and in any order: no caller has to show that what a port puts is
/// lawful.
pub trait Bridge<L: Tagged> {
    ghost routing: { Self → Routing };

    /// Takes the next event, and puts what follows from it at the end of `out`. A Create among it carries the listener
    /// that the event brought. The answer is `Ended` exactly where the event is the Bye of the last queue. The error is
    /// want of memory: the event is given back, and nothing has changed.
    fn take(
        &mut self,
        port: u32,
        event: ToBridge<L>,
        out: &mut Outbox<BridgeOut<L>>,
    ) -> Result<Took, ToBridge<L>>
        ensures journal { OnOk result (routing self.new ≡ routed (routing self.old) port (note_of L.tagged event)) }
        ensures puts { OnOk result (map (put_note L.tagged) out.new.items ≡ map (put_note L.tagged) out.old.items ++ bridge_puts_at (routing self.old).shape (routing self.old).journal (port, note_of L.tagged event)) }
        ensures listener { OnOk result (listeners out.new.items ≡ listeners out.old.items ++ carried_by (routing self.old) port (note_of L.tagged event) event) }
        ensures ended { (result ≡ Ok Took.Ended) ↔ (is_last_bye (routing self.old) port (note_of L.tagged event) ≡ true) }
        ensures back { IfErr result (λ given. given ≡ event) }
        ensures err { OnErr result (routing self.new ≡ routing self.old) }
        ensures out_err { OnErr result (out.new.items ≡ out.old.items) };

    /// The ports and notes of all events taken, in order. It takes no memory.
    fn into_journal(self) -> Vec<(u32, BridgeNote)>
        ensures { result.items ≡ (routing self).journal };
}
