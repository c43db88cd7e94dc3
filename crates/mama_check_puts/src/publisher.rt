ghost use Rattle.std.specs.Prelude.{◌≡◌, ◌++◌, ◌∷◌, [], drop, map, option_to_list, IfOk, IfSome, IfNone, OnOk};
ghost use Rattle.std.specs.List.{flat_map};
ghost use Rattle.mama_event.specs.declared.publisher_entry.PublisherEntry.TheVariants as entry;
ghost use Rattle.mama_event.specs.ToBridge.{note_of};
ghost use Rattle.mama_event.specs.Publisher.{publisher_puts_at};
ghost use Rattle.mama_event.specs.Publisher as send;
ghost use Rattle.mama_check_order.specs.Numbered.{numbered, from_entry};
ghost use Rattle.mama_rules_rounds.specs.Sections.{sends_in};
ghost use Rattle.mama_check_puts.specs.Sender.{sending_of, unsent, Does};
ghost use Rattle.mama_check_puts.specs.Dealing.{own_tag};
ghost use Rattle.mama_check_puts.specs.Puts.{script_of};

use crate::notes::{bridge_note, publisher_event};
use mama_event::{BridgeNote, MsgKind, ObjectId, PublisherEntry, PublisherNote, ToBridge};
use mama_memory::{Duplicate, OutOfMemory, Outbox};
use mama_msg::Msg;
use mama_publisher::{
    Publisher, SendFault, a_new_publisher_has_its_base, sending_a_recap, sending_an_update,
    taking_an_event, telling_the_end_of_sends,
};
use mama_script::PublisherLine;
use std::alloc::Global;

/// What the publisher of a number, with this base and these lines, put by its journal, each event with the number of the
/// entry that put it, counted from 0. The error is want of memory. It also comes where no [`Publisher`] can stand so: of
/// the number 2^32 - 1, with a base or a record of more than 64 fields, neither of which an accepted script has, or with
/// the 2^32nd update.
pub fn puts_of_publisher(
    alloc: Global,
    number: u32,
    base: &Msg,
    lines: &[PublisherLine],
    journal: &[PublisherEntry],
) -> Result<Vec<(usize, BridgeNote)>, OutOfMemory>
    ensures { IfOk result (λ puts. puts.items ≡ numbered (publisher_puts_at (script_of number base.now lines.now)) journal.now) }
{
    a_new_publisher_has_its_base();
    let mut sender = Sender {
        publisher: first(alloc, number, base)?,
        left: lines,
    };
    let mut puts = Vec::new(alloc);
    for (entry, did) in journal.iter().enumerate() {
        let put = sender.put(alloc, *did)?;
        add(&mut puts, entry, put)?;
    }
    Ok(puts)
}

/// A publisher that sent nothing yet.
fn first(alloc: Global, number: u32, base: &Msg) -> Result<Publisher, OutOfMemory>
    ensures { IfOk result (λ p. p ≡ record { number = number; held = base.now; seq = 0 }) }
{
    if number == u32::MAX {
        return Err(OutOfMemory);
    }
    match Publisher::new(alloc, number, base.try_clone()?) {
        Ok(publisher) => Ok(publisher),
        // A base of more than 64 fields.
        Err(_base) => Err(OutOfMemory),
    }
}

/// Adds what an entry put, if it put something.
fn add(
    puts: &mut Vec<(usize, BridgeNote)>,
    entry: usize,
    put: Option<BridgeNote>,
) -> Result<(), OutOfMemory>
    ensures { OnOk result (puts.new.items ≡ puts.old.items ++ from_entry entry (option_to_list put)) }
{
    if let Some(note) = put {
        puts.push((entry, note))?;
    }
    Ok(())
}

/// What a publisher sends next.
#[derive(Clone, Copy)]
enum Sending<'a> {
    Update(&'a Msg),
    Recap,
}

/// The next of some lines that sends something, and the lines after it.
fn next_send<'a>(lines: &'a [PublisherLine]) -> Option<(Sending<'a>, &'a [PublisherLine])>
    ensures next { IfSome result (λ found. flat_map sends_in lines.now ≡ sending_of found.0 ∷ flat_map sends_in found.1.now) }
    ensures none { IfNone result (flat_map sends_in lines.now ≡ []) }
{
    for (i, line) in lines.iter().enumerate() {
        match line {
            PublisherLine::Update(body) => return Some((Sending::Update(body), &lines[i + 1..])),
            PublisherLine::Recap => return Some((Sending::Recap, &lines[i + 1..])),
            PublisherLine::Pause(_) => {}
        }
    }
    None
}

/// A publisher that does its journal again: where it stands, and the lines that it has not sent.
#[derive(Drop)]
struct Sender<'a> {
    publisher: Publisher,
    left: &'a [PublisherLine],
}

impl<'a> Sender<'a> {
    /// Does an entry, and gives what it puts.
    fn put(
        &mut self,
        alloc: Global,
        entry: PublisherEntry,
    ) -> Result<Option<BridgeNote>, OutOfMemory>
        ensures { IfOk result (λ put. Does self.old self.new entry (option_to_list put)) }
    {
        match entry {
            PublisherEntry::Send => self.send(),
            PublisherEntry::Done => {
                telling_the_end_of_sends();
                Ok(Some(BridgeNote::SendsDone))
            }
            PublisherEntry::Took(note) => self.take(alloc, note),
        }
    }

    /// Sends the next of its lines that sends something, if there is one.
    fn send(&mut self) -> Result<Option<BridgeNote>, OutOfMemory>
        ensures { IfOk result (λ put. Does self.old self.new entry.Send (option_to_list put)) }
    {
        match next_send(self.left) {
            Some((Sending::Update(body), rest)) => Ok(Some(self.update(body, rest)?)),
            Some((Sending::Recap, rest)) => Ok(Some(self.recap(rest)?)),
            None => Ok(None),
        }
    }

    /// Sends an update, after which these lines are left.
    fn update(&mut self, body: &Msg, rest: &'a [PublisherLine]) -> Result<BridgeNote, OutOfMemory>
        requires { unsent self.old ≡ send.Update body.now ∷ flat_map sends_in rest.now }
        ensures { IfOk result (λ note. Does self.old self.new entry.Send (note ∷ [])) }
    {
        sending_an_update();
        match self.publisher.send(body) {
            Ok(msg) => {
                self.left = rest;
                Ok(BridgeNote::Publish { msg })
            }
            Err(SendFault::OutOfMemory | SendFault::NumbersSpent | SendFault::RecordFull) => {
                Err(OutOfMemory)
            }
        }
    }

    /// Sends its record again, after which these lines are left.
    fn recap(&mut self, rest: &'a [PublisherLine]) -> Result<BridgeNote, OutOfMemory>
        requires { unsent self.old ≡ send.Recap ∷ flat_map sends_in rest.now }
        ensures { IfOk result (λ note. Does self.old self.new entry.Send (note ∷ [])) }
    {
        sending_a_recap();
        let msg = self.publisher.image(MsgKind::Recap)?;
        self.left = rest;
        Ok(BridgeNote::Publish { msg })
    }

    /// Takes an event.
    fn take(
        &mut self,
        alloc: Global,
        note: PublisherNote,
    ) -> Result<Option<BridgeNote>, OutOfMemory>
        ensures { IfOk result (λ put. Does self.old self.new (entry.Took note) (option_to_list put)) }
    {
        taking_an_event();
        let mut out: Outbox<ToBridge<ObjectId>> = Outbox::new(alloc);
        match self.publisher.take(publisher_event(note), &mut out) {
            Ok(_) => {
                let first = first_note(out)?;
                Ok(first)
            }
            // An event is given back for want of memory alone.
            Err(_event) => Err(OutOfMemory),
        }
    }
}

/// The note of the first event, if there is one.
fn first_note(out: Outbox<ToBridge<ObjectId>>) -> Result<Option<BridgeNote>, OutOfMemory>
    ensures some { IfOk result (λ first. IfSome first (λ note. map (note_of own_tag) out.items ≡ note ∷ map (note_of own_tag) (drop 1 out.items))) }
    ensures none { IfOk result (λ first. IfNone first (out.items ≡ [])) }
{
    let mut out = out;
    match out.take_first() {
        Some(event) => Ok(Some(bridge_note(event)?)),
        None => Ok(None),
    }
}
