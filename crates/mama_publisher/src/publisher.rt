ghost use Rattle.std.specs.Prelude.{◌≡◌, ◌≢◌, ◌↔◌, ◌+◌, ◌-◌, ◌^◌, ◌<◌, ◌≤◌, map, [], ◌∷◌, ◌++◌, length, IsErr, IfOk, OnOk, IfErr, OnErr};
ghost use Rattle.mama_msg.specs.Message.{apply};
ghost use Rattle.mama_event.specs.Publisher.{message_of, asked_fields, answer_of};
ghost use Rattle.mama_event.specs.ToPublisher.{note_of};
ghost use Rattle.mama_event.specs.ToBridge.{note_of as bridge_note_of};
ghost use Rattle.mama_event.specs.declared.market.MsgKind.TheVariants as kind;
ghost use Rattle.mama_publisher.specs.declared.publisher.SendFault.TheVariants.{OutOfMemory as NoMemory};
ghost use Rattle.mama_publisher.specs.Standing.{advanced, Answered};

use crate::asked::asked;
use crate::packing::{packed, packed_message};
use mama_event::{Fids, MarketMsg, MsgKind, Tagged, ToBridge, ToPublisher, Took};
use mama_memory::{OutOfMemory, Outbox};
use mama_msg::Msg;
use std::alloc::Global;
use std::error::Error;
use std::fmt;
use std::marker::Model;

/// The most fields of a publisher's record.
pub const MOST_FIELDS: usize = 64;

/// Why an update was not sent. The publisher is as it was.
#[derive(Clone, Copy, Debug, PartialEq, Eq)]
pub enum SendFault {
    /// All numbers of updates were given.
    NumbersSpent,
    /// The record with the update would have more than 64 fields.
    RecordFull,
    /// No memory was found.
    OutOfMemory,
}

impl fmt::Display for SendFault {
    fn fmt<W: fmt::Write>(&self, f: &mut fmt::Formatter<W>) -> fmt::Result {
        match self {
            SendFault::NumbersSpent => write!(f, "all numbers of updates were given"),
            SendFault::RecordFull => write!(f, "the record would have more than 64 fields"),
            SendFault::OutOfMemory => write!(f, "out of memory"),
        }
    }
}

impl Error for SendFault {}

impl From<OutOfMemory> for SendFault {
    ghost from_gives = { λ _ e. e ≡ NoMemory };

    fn from(_error: OutOfMemory) -> SendFault {
        SendFault::OutOfMemory
    }
}

/// The sender of one topic: its record, and the number of updates in it. Its sender id is its number plus one.
#[derive(Debug, Drop)]
pub struct Publisher {
    alloc: Global,
    number: u32,
    held: Msg,
    seq: u32,
}

impl Model for Publisher {
    ghost use Rattle.std.specs.Prelude.{◌+◌, ◌^◌, ◌<◌, ◌≤◌, length};
    ghost use Rattle.mama_publisher.specs.Standing.{Standing};

    ghost Value = { Standing };

    ghost view = { λ p. record { number = p.number; held = p.held; seq = p.seq } };

    ghost invariant = { λ p. (length p.held ≤ 64) × (p.number + 1 < 2 ^ 32) };
}

/// Puts an event last.
fn put<L: Tagged>(event: ToBridge<L>, out: &mut Outbox<ToBridge<L>>) -> Result<(), OutOfMemory>
    ensures ok { OnOk result (out.new.items ≡ out.old.items ++ event ∷ []) }
    ensures err { OnErr result (out.new.items ≡ out.old.items) }
    ensures spare { out.old.spare ≤ out.new.spare + 1 }
{
    match out.push(event) {
        Ok(()) => Ok(()),
        Err(_) => Err(OutOfMemory),
    }
}

impl Publisher {
    /// A publisher of this number with this record and no updates yet. A base of more than 64 fields is given back.
    /// It takes no memory.
    pub fn new(alloc: Global, number: u32, base: Msg) -> Result<Publisher, Msg>
        requires { number + 1 < 2 ^ 32 }
        ensures ok { IfOk result (λ p. p ≡ record { number = number; held = base; seq = 0 }) }
        ensures full { IsErr result ↔ (64 < length base) }
        ensures back { IfErr result (λ given. given ≡ base) }
    {
        if base.len() > MOST_FIELDS {
            return Err(base);
        }
        Ok(Publisher {
            alloc,
            number,
            held: base,
            seq: 0,
        })
    }

    /// Applies an update to the record, under the next number, and gives the message that tells it.
    pub fn send(&mut self, update: &Msg) -> Result<MarketMsg, SendFault>
        ensures sent { IfOk result (λ msg. msg ≡ message_of self.old.number kind.Update (self.old.seq + 1) update.now) }
        ensures ok { OnOk result (self.new ≡ advanced self.old update.now) }
        ensures spent { (result ≡ Err SendFault.NumbersSpent) ↔ (self.old.seq ≡ 2 ^ 32 - 1) }
        ensures full { (result ≡ Err SendFault.RecordFull) ↔ ((self.old.seq < 2 ^ 32 - 1) × (64 < length (apply self.old.held update.now))) }
        ensures err { OnErr result (self.new ≡ self.old) }
    {
        if self.seq == u32::MAX {
            return Err(SendFault::NumbersSpent);
        }
        if self.held.len_after(update) > MOST_FIELDS {
            return Err(SendFault::RecordFull);
        }
        let body = update.try_clone()?;
        self.held.apply(update)?;
        self.seq += 1;
        Ok(self.message(MsgKind::Update, body))
    }

    /// The whole record, under the number of the last update in it, as an `Initial` or a `Recap`. It uses up no
    /// number.
    pub fn image(&self, kind: MsgKind) -> Result<MarketMsg, OutOfMemory>
        requires { kind ≢ MsgKind.Update }
        ensures { IfOk result (λ msg. msg ≡ message_of self.now.number kind self.now.seq self.now.held) }
    {
        self.whole(kind)
    }

    /// Answers an event. A message is packed before it is put. Where no memory is found the event is given back, and nothing
    /// has changed.
    pub fn take<L: Tagged>(
        &mut self,
        event: ToPublisher,
        out: &mut Outbox<ToBridge<L>>,
    ) -> Result<Took, ToPublisher>
        ensures puts { OnOk result (Answered L.tagged self.old (note_of event) out.old.items out.new.items) }
        ensures notes { OnOk result (map (bridge_note_of L.tagged) out.new.items ≡ map (bridge_note_of L.tagged) out.old.items ++ answer_of self.old.number self.old.held self.old.seq (note_of event)) }
        ensures stays { self.new ≡ self.old }
        ensures ended { (result ≡ Ok Took.Ended) ↔ (event ≡ ToPublisher.Fin) }
        ensures back { IfErr result (λ given. given ≡ event) }
        ensures err { OnErr result (out.new.items ≡ out.old.items) }
        ensures spare { out.old.spare ≤ out.new.spare + 1 }
    {
        if let ToPublisher::Fin = event {
            return Ok(Took::Ended);
        }
        match self.put_answer(&event, out) {
            Ok(()) => Ok(Took::Running),
            Err(_) => Err(event),
        }
    }

    /// The record.
    pub fn held(&self) -> &Msg
        ensures held { result.now ≡ self.now.held }
        ensures most { length self.now.held ≤ 64 }
    {
        &self.held
    }

    /// The number of the last update in the record, or 0.
    pub fn seq(&self) -> u32
        ensures { result ≡ self.now.seq }
    {
        self.seq
    }

    /// A message under the number of the last update.
    fn message(&self, kind: MsgKind, body: Msg) -> MarketMsg
        ensures { result ≡ message_of self.now.number kind self.now.seq body }
    {
        MarketMsg {
            kind,
            sender: self.number + 1,
            seq: self.seq,
            body,
        }
    }

    /// The whole record as a message of some kind.
    fn whole(&self, kind: MsgKind) -> Result<MarketMsg, OutOfMemory>
        ensures { IfOk result (λ msg. msg ≡ message_of self.now.number kind self.now.seq self.now.held) }
    {
        let body = self.held.try_clone()?;
        Ok(self.message(kind, body))
    }

    /// The fields that are asked for.
    fn asked(&self, fids: &Fids) -> Result<Msg, OutOfMemory>
        ensures { IfOk result (λ reply. reply ≡ asked_fields fids.now self.now.held) }
    {
        asked(self.alloc, &self.held, fids)
    }

    /// Puts what answers an event.
    fn put_answer<L: Tagged>(
        &self,
        event: &ToPublisher,
        out: &mut Outbox<ToBridge<L>>,
    ) -> Result<(), OutOfMemory>
        ensures ok { OnOk result (Answered L.tagged self.now (note_of event.now) out.old.items out.new.items) }
        ensures err { OnErr result (out.new.items ≡ out.old.items) }
        ensures spare { out.old.spare ≤ out.new.spare + 1 }
    {
        match event {
            ToPublisher::Want { sub, kind } => {
                let msg = packed_message(self.alloc, &self.whole(*kind)?)?;
                put(ToBridge::Image { sub: *sub, msg }, out)
            }
            ToPublisher::Ask { inbox, fids } => {
                let body = packed(self.alloc, &self.asked(fids)?)?;
                put(
                    ToBridge::Reply {
                        inbox: *inbox,
                        body,
                    },
                    out,
                )
            }
            ToPublisher::Settle => put(ToBridge::Settled, out),
            ToPublisher::Fin => Ok(()),
        }
    }
}
