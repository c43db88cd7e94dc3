ghost use Rattle.std.specs.Prelude.{◌≡◌, ◌↔◌, ◌∷◌, ◌++◌, [], map, length, true, false, None, IfOk, OnOk, IfErr, OnErr};
ghost use Rattle.mama_event.specs.ToBridge.{note_of};
ghost use Rattle.mama_rules_services.specs.Ports.{bridge_putter};
ghost use Rattle.mama_rules_services.specs.Bridge.{put_by, bridge_puts_at};
ghost use Rattle.mama_laws_bridge.specs.Table.{leaver_in};
ghost use Rattle.mama_bridge.specs.Outs.{put_note, listeners};
ghost use Rattle.mama_bridge.specs.Routing.{routed, is_last_bye, carried_by};

use crate::bridge::Bridge;
use crate::chart::Chart;
use crate::desk::Desk;
use crate::out::BridgeOut;
use crate::putter::{Putter, putter_of};
use mama_event::{BridgeNote, Shape, Stream, Tagged, ToBridge, Took};
use mama_laws_bridge::{flags_tell, rows_are_live, table_grows, table_tells};
use mama_memory::{OutOfMemory, Outbox};
use std::alloc::Global;
use std::marker::{Model, PhantomData};

/// A bridge that keeps its journal in memory.
///
/// The journal has room for one entry more until every queue said its last, so that the last Bye never wants memory.
#[derive(Drop)]
pub struct MemoryBridge<L> {
    shape: Chart,
    publishers: u32,
    journal: Vec<(u32, BridgeNote)>,
    desk: Desk,
    listeners: PhantomData<L>,
}

impl<L> Model for MemoryBridge<L> {
    ghost use Rattle.mama_bridge.specs.Routing.{Routing};
    ghost use Rattle.std.specs.Prelude.{vec_len};
    ghost use Rattle.std.specs.Vec.{vec_capacity};

    ghost Value = { Routing };

    ghost use Rattle.mama_bridge.specs.Desk.{IsKept};

    ghost view = { λ b. record { shape = b.shape; journal = b.journal.items } };

    ghost invariant = { λ b. IsKept b.shape b.publishers b.journal.items (vec_len b.journal) (vec_capacity b.journal) b.desk };
}

/// The number of publishers. The error is that there are more of them than numbers.
fn count_publishers(shape: &Shape) -> Result<u32, OutOfMemory>
    ensures { IfOk result (λ n. n ≡ length shape.now.publisher_topics) }
{
    match u32::try_from(shape.publisher_topics.len()) {
        Ok(publishers) => Ok(publishers),
        Err(_) => Err(OutOfMemory),
    }
}

impl<L: Tagged> MemoryBridge<L> {
    /// A bridge that took nothing yet. The error is want of memory, or more publishers than numbers of them.
    pub fn new(alloc: Global, shape: &Shape) -> Result<MemoryBridge<L>, OutOfMemory>
        ensures { IfOk result (λ b. b ≡ record { shape = shape.now; journal = [] }) }
    {
        let publishers = count_publishers(shape)?;
        let mut journal = Vec::new(alloc);
        journal.reserve(1)?;
        let desk = Desk::new(alloc, shape)?;
        Ok(MemoryBridge {
            shape: Chart::new(alloc, shape)?,
            publishers,
            journal,
            desk,
            listeners: PhantomData,
        })
    }

    /// Takes a Bye. The last queue's never wants memory.
    fn take_bye(&mut self, port: u32) -> Result<Took, OutOfMemory>
        ensures journal { OnOk result (self.new ≡ routed self.old port BridgeNote.Bye) }
        ensures quiet { bridge_puts_at self.old.shape self.old.journal (port, BridgeNote.Bye) ≡ [] }
        ensures ended { (result ≡ Ok Took.Ended) ↔ (is_last_bye self.old port BridgeNote.Bye ≡ true) }
        ensures err { OnErr result (self.new ≡ self.old) }
    {
        rows_are_live();
        flags_tell();
        table_tells();
        table_grows();
        let putter = putter_of(&self.shape, self.publishers, port);
        if self.desk.ends_with_bye(putter) {
            self.desk.hear_bye(putter);
            self.journal.push_reserved((port, BridgeNote::Bye));
            return Ok(Took::Ended);
        }
        self.journal.reserve(2)?;
        self.desk.hear_bye(putter);
        self.journal.push_reserved((port, BridgeNote::Bye));
        Ok(Took::Running)
    }

    /// Takes an event that is no queue's Bye.
    fn take_other(
        &mut self,
        port: u32,
        event: ToBridge<L>,
        out: &mut Outbox<BridgeOut<L>>,
    ) -> Result<(), ToBridge<L>>
        requires { leaver_in (put_by (bridge_putter self.old.shape port) (note_of L.tagged event)) ≡ None }
        ensures journal { OnOk result (self.new ≡ routed self.old port (note_of L.tagged event)) }
        ensures puts { OnOk result (map (put_note L.tagged) out.new.items ≡ map (put_note L.tagged) out.old.items ++ bridge_puts_at self.old.shape self.old.journal (port, note_of L.tagged event)) }
        ensures listener { OnOk result (listeners out.new.items ≡ listeners out.old.items ++ carried_by self.old port (note_of L.tagged event) event) }
        ensures not_last { is_last_bye self.old port (note_of L.tagged event) ≡ false }
        ensures back { IfErr result (λ given. given ≡ event) }
        ensures err { OnErr result (self.new ≡ self.old) }
        ensures out_err { OnErr result (out.new.items ≡ out.old.items) }
    {
        rows_are_live();
        flags_tell();
        table_tells();
        table_grows();
        let note = match event.note() {
            Ok(note) => note,
            Err(_) => return Err(event),
        };
        if self.journal.reserve(2).is_err() {
            return Err(event);
        }
        let putter = putter_of(&self.shape, self.publishers, port);
        self.desk
            .hear(&self.shape, putter, self.publishers, event, out)?;
        self.journal.push_reserved((port, note));
        Ok(())
    }
}

impl<L: Tagged> Bridge<L> for MemoryBridge<L> {
    ghost routing = { λ b. b };

    fn take(
        &mut self,
        port: u32,
        event: ToBridge<L>,
        out: &mut Outbox<BridgeOut<L>>,
    ) -> Result<Took, ToBridge<L>>
        ensures journal { OnOk result (self.new ≡ routed self.old port (note_of L.tagged event)) }
        ensures puts { OnOk result (map (put_note L.tagged) out.new.items ≡ map (put_note L.tagged) out.old.items ++ bridge_puts_at self.old.shape self.old.journal (port, note_of L.tagged event)) }
        ensures listener { OnOk result (listeners out.new.items ≡ listeners out.old.items ++ carried_by self.old port (note_of L.tagged event) event) }
        ensures ended { (result ≡ Ok Took.Ended) ↔ (is_last_bye self.old port (note_of L.tagged event) ≡ true) }
        ensures back { IfErr result (λ given. given ≡ event) }
        ensures err { OnErr result (self.new ≡ self.old) }
        ensures out_err { OnErr result (out.new.items ≡ out.old.items) }
    {
        match event {
            ToBridge::Bye => match self.take_bye(port) {
                Ok(took) => Ok(took),
                Err(_) => Err(ToBridge::Bye),
            },
            event => match self.take_other(port, event, out) {
                Ok(()) => Ok(Took::Running),
                Err(event) => Err(event),
            },
        }
    }

    fn into_journal(self) -> Vec<(u32, BridgeNote)>
        ensures { result.items ≡ self.journal }
    {
        self.journal
    }
}
