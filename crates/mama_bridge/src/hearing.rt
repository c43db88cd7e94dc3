ghost use Rattle.std.specs.Prelude.{◌≡◌, ℕ, ◌<◌, ◌^◌, [], length, None, IfOk, IfErr, OnOk, OnErr};
ghost use Rattle.mama_packet.specs.Packet.{Spells, message_of};
ghost use Rattle.mama_event.specs.ToBridge.{note_of};
ghost use Rattle.mama_event.specs.Wire.{market_of};
ghost use Rattle.mama_bridge.specs.Links.{IsPieceOf};
ghost use Rattle.mama_rules_services.specs.Bridge.{from_client, from_publisher, from_queue, put_by};
ghost use Rattle.mama_laws_bridge.specs.Table.{leaver_in};
ghost use Rattle.mama_bridge.specs.Desk.{Hears, HearsOf, AsBefore};
ghost use Rattle.mama_bridge.specs.Outs.{brought};
ghost use Rattle.mama_bridge.specs.Putters.{actor_of, IsThere, HasFlags};

use crate::chart::Chart;
use crate::desk::Desk;
use crate::done::Done;
use crate::out::BridgeOut;
use crate::putter::Putter;
use mama_event::{
    InboxId, InboxTerms, Packet, Piece, PieceMsg, SubId, SubTerms, Tagged, ToBridge, WireMsg,
};
use mama_memory::{Duplicate, OutOfMemory, Outbox};

/// A packed message as a piece, which a link may cut. They share the bytes.
fn piece_of(msg: &WireMsg) -> Result<PieceMsg, OutOfMemory>
    ensures { IfOk result (λ piece. IsPieceOf (market_of msg.now) piece) }
{
    Ok(msg.try_clone()?.into_piece())
}

/// The same of a reply.
fn body_of(body: &Packet) -> Result<Piece, OutOfMemory>
    ensures { IfOk result (λ piece. Spells piece (message_of body.now)) }
{
    Ok(body.try_clone()?.into_piece())
}

impl Desk {
    /// Hears an event of an actor. It is no queue's Bye.
    pub(crate) fn hear<L: Tagged>(
        &mut self,
        shape: &Chart,
        putter: Putter,
        publishers: u32,
        event: ToBridge<L>,
        out: &mut Outbox<BridgeOut<L>>,
    ) -> Result<(), ToBridge<L>>
        requires flags { HasFlags self.old putter }
        requires there { IsThere shape.now putter }
        requires publishers { publishers ≡ length shape.now.publisher_topics }
        requires no_bye { leaver_in (put_by (actor_of putter) (note_of L.tagged event)) ≡ None }
        ensures ok { OnOk result (HearsOf L.tagged shape.now (put_by (actor_of putter) (note_of L.tagged event)) event self.old self.new out.old.items out.new.items) }
        ensures back { IfErr result (λ given. given ≡ event) }
        ensures same { OnErr result (AsBefore self.old self.new) }
        ensures err { OnErr result (out.new.items ≡ out.old.items) }
    {
        match putter {
            Putter::Client(client) => self.hear_client(shape, client, publishers, event, out),
            Putter::Publisher(publisher) => {
                self.hear_publisher(shape, publisher, publishers, event, out)
            }
            Putter::Queue(_) => self.hear_queue(shape, event, out),
            Putter::Nobody => Ok(()),
        }
    }

    /// Hears an event of a client, which joins and opens only objects of its own.
    fn hear_client<L: Tagged>(
        &mut self,
        shape: &Chart,
        client: u32,
        publishers: u32,
        event: ToBridge<L>,
        out: &mut Outbox<BridgeOut<L>>,
    ) -> Result<(), ToBridge<L>>
        requires client { client < length self.old.clients }
        requires publishers { publishers ≡ length shape.now.publisher_topics }
        ensures ok { OnOk result (HearsOf L.tagged shape.now (from_client client (note_of L.tagged event)) event self.old self.new out.old.items out.new.items) }
        ensures back { IfErr result (λ given. given ≡ event) }
        ensures same { OnErr result (AsBefore self.old self.new) }
        ensures err { OnErr result (out.new.items ≡ out.old.items) }
    {
        match event {
            ToBridge::Join {
                sub,
                terms,
                listener,
            } => self.hear_join(shape, client, sub, terms, listener, out),
            ToBridge::OpenInbox {
                inbox,
                terms,
                listener,
            } => self.hear_opening(shape, client, inbox, terms, listener, out),
            event => self.hear_plain(shape, client, publishers, event, out),
        }
    }

    /// Hears a Join of a client.
    fn hear_join<L: Tagged>(
        &mut self,
        shape: &Chart,
        client: u32,
        sub: SubId,
        terms: SubTerms,
        listener: L,
        out: &mut Outbox<BridgeOut<L>>,
    ) -> Result<(), ToBridge<L>>
        requires { length shape.now.publisher_topics < 2 ^ 32 }
        ensures ok { OnOk result (HearsOf L.tagged shape.now (from_client client (note_of L.tagged (ToBridge.Join sub terms listener))) (ToBridge.Join sub terms listener) self.old self.new out.old.items out.new.items) }
        ensures back { IfErr result (λ given. given ≡ ToBridge.Join sub terms listener) }
        ensures same { OnErr result (AsBefore self.old self.new) }
        ensures err { OnErr result (out.new.items ≡ out.old.items) }
    {
        if sub.client != client {
            return Ok(());
        }
        match self.join(shape, sub, terms, listener, out) {
            Ok(()) => Ok(()),
            Err((terms, listener)) => Err(ToBridge::Join {
                sub,
                terms,
                listener,
            }),
        }
    }

    /// Hears an OpenInbox of a client.
    fn hear_opening<L: Tagged>(
        &mut self,
        shape: &Chart,
        client: u32,
        inbox: InboxId,
        terms: InboxTerms,
        listener: L,
        out: &mut Outbox<BridgeOut<L>>,
    ) -> Result<(), ToBridge<L>>
        ensures ok { OnOk result (HearsOf L.tagged shape.now (from_client client (note_of L.tagged (ToBridge.OpenInbox inbox terms listener))) (ToBridge.OpenInbox inbox terms listener) self.old self.new out.old.items out.new.items) }
        ensures back { IfErr result (λ given. given ≡ ToBridge.OpenInbox inbox terms listener) }
        ensures same { OnErr result (AsBefore self.old self.new) }
        ensures err { OnErr result (out.new.items ≡ out.old.items) }
    {
        if inbox.client != client {
            return Ok(());
        }
        match self.open_inbox(inbox, terms, listener, out) {
            Ok(()) => Ok(()),
            Err((terms, listener)) => Err(ToBridge::OpenInbox {
                inbox,
                terms,
                listener,
            }),
        }
    }

    /// Hears an event of a client that brings no listener.
    fn hear_plain<L: Tagged>(
        &mut self,
        shape: &Chart,
        client: u32,
        publishers: u32,
        event: ToBridge<L>,
        out: &mut Outbox<BridgeOut<L>>,
    ) -> Result<(), ToBridge<L>>
        requires client { client < length self.old.clients }
        requires publishers { publishers ≡ length shape.now.publisher_topics }
        requires brings { brought event ≡ [] }
        ensures ok { OnOk result (HearsOf L.tagged shape.now (from_client client (note_of L.tagged event)) event self.old self.new out.old.items out.new.items) }
        ensures back { IfErr result (λ given. given ≡ event) }
        ensures same { OnErr result (AsBefore self.old self.new) }
        ensures err { OnErr result (out.new.items ≡ out.old.items) }
    {
        match self.told_by_client(shape, client, publishers, &event, out) {
            Ok(()) => Ok(()),
            Err(_) => Err(event),
        }
    }

    fn told_by_client<L: Tagged>(
        &mut self,
        shape: &Chart,
        client: u32,
        publishers: u32,
        event: &ToBridge<L>,
        out: &mut Outbox<BridgeOut<L>>,
    ) -> Result<(), OutOfMemory>
        requires client { client < length self.old.clients }
        requires publishers { publishers ≡ length shape.now.publisher_topics }
        requires brings { brought event.now ≡ [] }
        ensures ok { OnOk result (Hears L.tagged shape.now (from_client client (note_of L.tagged event.now)) self.old self.new out.old.items out.new.items []) }
        ensures same { OnErr result (AsBefore self.old self.new) }
        ensures err { OnErr result (out.new.items ≡ out.old.items) }
    {
        match event {
            ToBridge::Leave { sub } => self.leave(*sub, out),
            ToBridge::CloseInbox { inbox } => self.close(*inbox, out),
            ToBridge::Ask { inbox, topic, fids } => self.ask(shape, *inbox, *topic, *fids, out),
            ToBridge::ClientDone => self.done(shape, Done::Client(client), publishers, out),
            _ => Ok(()),
        }
    }

    /// Hears an event of a publisher.
    fn hear_publisher<L: Tagged>(
        &mut self,
        shape: &Chart,
        publisher: u32,
        publishers: u32,
        event: ToBridge<L>,
        out: &mut Outbox<BridgeOut<L>>,
    ) -> Result<(), ToBridge<L>>
        requires sends { publisher < length self.old.sends }
        requires settled { publisher < length self.old.settled }
        requires publisher { publisher < publishers }
        requires publishers { publishers ≡ length shape.now.publisher_topics }
        ensures ok { OnOk result (HearsOf L.tagged shape.now (from_publisher publisher (note_of L.tagged event)) event self.old self.new out.old.items out.new.items) }
        ensures back { IfErr result (λ given. given ≡ event) }
        ensures same { OnErr result (AsBefore self.old self.new) }
        ensures err { OnErr result (out.new.items ≡ out.old.items) }
    {
        match self.told_by_publisher(shape, publisher, publishers, &event, out) {
            Ok(()) => Ok(()),
            Err(_) => Err(event),
        }
    }

    fn told_by_publisher<L: Tagged>(
        &mut self,
        shape: &Chart,
        publisher: u32,
        publishers: u32,
        event: &ToBridge<L>,
        out: &mut Outbox<BridgeOut<L>>,
    ) -> Result<(), OutOfMemory>
        requires sends { publisher < length self.old.sends }
        requires settled { publisher < length self.old.settled }
        requires publisher { publisher < publishers }
        requires publishers { publishers ≡ length shape.now.publisher_topics }
        ensures ok { OnOk result (Hears L.tagged shape.now (from_publisher publisher (note_of L.tagged event.now)) self.old self.new out.old.items out.new.items []) }
        ensures same { OnErr result (AsBefore self.old self.new) }
        ensures err { OnErr result (out.new.items ≡ out.old.items) }
    {
        match event {
            ToBridge::Publish { msg } => self.publish(shape, publisher, &piece_of(msg)?, out),
            ToBridge::Image { sub, msg } => self.image(*sub, &piece_of(msg)?, out),
            ToBridge::Reply { inbox, body } => self.reply(*inbox, &body_of(body)?, out),
            ToBridge::SendsDone => self.done(shape, Done::Sends(publisher), publishers, out),
            ToBridge::Settled => self.done(shape, Done::Settled(publisher), publishers, out),
            _ => Ok(()),
        }
    }

    /// Hears an event of a queue. It is no Bye.
    fn hear_queue<L: Tagged>(
        &mut self,
        shape: &Chart,
        event: ToBridge<L>,
        out: &mut Outbox<BridgeOut<L>>,
    ) -> Result<(), ToBridge<L>>
        requires few { length shape.now.publisher_topics < 2 ^ 32 }
        ensures ok { (queue : ℕ) → leaver_in (from_queue queue (note_of L.tagged event)) ≡ None → OnOk result (HearsOf L.tagged shape.now (from_queue queue (note_of L.tagged event)) event self.old self.new out.old.items out.new.items) }
        ensures back { IfErr result (λ given. given ≡ event) }
        ensures same { OnErr result (AsBefore self.old self.new) }
        ensures err { OnErr result (out.new.items ≡ out.old.items) }
    {
        match self.told_by_queue(shape, &event, out) {
            Ok(()) => Ok(()),
            Err(_) => Err(event),
        }
    }

    fn told_by_queue<L: Tagged>(
        &mut self,
        shape: &Chart,
        event: &ToBridge<L>,
        out: &mut Outbox<BridgeOut<L>>,
    ) -> Result<(), OutOfMemory>
        requires few { length shape.now.publisher_topics < 2 ^ 32 }
        ensures ok { (queue : ℕ) → leaver_in (from_queue queue (note_of L.tagged event.now)) ≡ None → OnOk result (Hears L.tagged shape.now (from_queue queue (note_of L.tagged event.now)) self.old self.new out.old.items out.new.items []) }
        ensures same { OnErr result (AsBefore self.old self.new) }
        ensures err { OnErr result (out.new.items ≡ out.old.items) }
    {
        match event {
            ToBridge::Leave { sub } => self.leave(*sub, out),
            ToBridge::CloseInbox { inbox } => self.close(*inbox, out),
            ToBridge::Ask { inbox, topic, fids } => self.ask(shape, *inbox, *topic, *fids, out),
            ToBridge::RecapWish { sub, sender } => self.wish(shape, *sub, *sender, out),
            _ => Ok(()),
        }
    }
}
