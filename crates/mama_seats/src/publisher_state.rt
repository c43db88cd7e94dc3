ghost use Rattle.std.specs.Prelude.{◌≡◌, ◌+◌, ◌-◌, ◌^◌, ◌<◌, ◌≤◌, List, [], ◌∷◌, ◌++◌, map, false, ◌||◌, nat_le, None, Some, if◌then◌else◌, length, IfOk, OnOk, OnErr, vec_len};
ghost use Rattle.std.specs.Vec.{vec_capacity};
ghost use Rattle.mama_event.specs.declared.publisher_entry.PublisherEntry.{PublisherEntry};
ghost use Rattle.mama_event.specs.declared.to_bridge.BridgeNote.{BridgeNote};
ghost use Rattle.mama_event.specs.Publisher.{PublisherScript, publisher_puts_at};
ghost use Rattle.mama_event.specs.ToBridge.{note_of};
ghost use Rattle.mama_event.specs.ToPublisher.{note_of as publisher_note_of};
ghost use Rattle.mama_publisher.specs.Laws.{StandsAt};
ghost use Rattle.mama_seats.specs.Sender.{IsSeatedIn, IsSeatedAt, sender_in, sender_of, IsSenderStep};
ghost use Rattle.mama_seats.specs.Said.{notes_sent};

use crate::line::next_at;
use mama_event::{
    MsgKind, PublisherEntry, PublisherNote, Stream, Tagged, ToBridge, ToPublisher, WireMsg,
};
use mama_memory::{Duplicate, OutOfMemory, Outbox};
use mama_msg::Msg;
use mama_publisher::{
    Publisher, SendFault, a_new_publisher_has_its_base, packed, packed_message, sending_a_recap,
    sending_an_update, taking_an_event, telling_the_end_of_sends, with_body,
};
use mama_script::{PublisherLine, PublisherPart};
use std::alloc::Global;
use std::marker::Model;

/// Where a publisher stands in its section of the script, with its journal. The section is handed in: always the same,
/// that of the publisher in its script.
#[derive(Drop)]
pub struct PublisherState {
    publisher: Publisher,
    journal: Vec<PublisherEntry>,
    line: usize,
    pause: u32,
    over: bool,
}

impl Model for PublisherState {
    ghost use Rattle.mama_seats.specs.Sender.{Progress};

    ghost Value = { Progress };

    ghost view = { λ s. record { publisher = s.publisher; journal = s.journal.items; line = s.line; pause = s.pause; over = s.over } };
}

/// What a publisher puts in a step.
#[derive(Drop)]
enum Sent {
    Nothing,
    Message(WireMsg),
    /// It tells the bridge that it has sent all its lines.
    Done,
}

/// Writes into a journal with room that a line was sent.
fn note_send(journal: &mut Vec<PublisherEntry>)
    requires { vec_len journal.old < vec_capacity journal.old }
    ensures { journal.new.items ≡ journal.old.items ++ PublisherEntry.Send ∷ [] }
{
    // The proof of a push asks that the function names each type that an entry can have in it.
    let _note: Option<PublisherNote> = None;
    journal.push_reserved(PublisherEntry::Send);
}

/// Writes into a journal with room that all lines were sent.
fn note_done(journal: &mut Vec<PublisherEntry>)
    requires { vec_len journal.old < vec_capacity journal.old }
    ensures { journal.new.items ≡ journal.old.items ++ PublisherEntry.Done ∷ [] }
{
    let _note: Option<PublisherNote> = None;
    journal.push_reserved(PublisherEntry::Done);
}

/// Writes into a journal with room that an event was taken.
fn note_taken(journal: &mut Vec<PublisherEntry>, note: PublisherNote)
    requires { vec_len journal.old < vec_capacity journal.old }
    ensures { journal.new.items ≡ journal.old.items ++ PublisherEntry.Took note ∷ [] }
{
    journal.push_reserved(PublisherEntry::Took(note));
}

/// Puts what was sent at the end of an outbox with room for it.
fn lay<M: Tagged>(sent: Sent, out: &mut Outbox<ToBridge<M>>)
    requires { 0 < out.old.spare }
    ensures { map (note_of M.tagged) out.new.items ≡ map (note_of M.tagged) out.old.items ++ notes_sent sent }
{
    match sent {
        Sent::Nothing => {}
        Sent::Message(msg) => out.push_reserved(ToBridge::Publish { msg }),
        Sent::Done => out.push_reserved(ToBridge::SendsDone),
    }
}

impl PublisherState {
    /// The publisher of this number and section, which has done nothing yet. A script has sections whose base has at
    /// most 64 fields, and no more of them than have a number.
    pub fn new(
        alloc: Global,
        number: u32,
        part: &PublisherPart,
    ) -> Result<PublisherState, OutOfMemory>
        requires number { number + 1 < 2 ^ 32 }
        requires base { length part.now.base ≤ 64 }
        ensures state { IfOk result (λ state. state ≡ record { publisher = record { number = number; held = part.now.base; seq = 0 }; journal = []; line = 0; pause = 0; over = false }) }
        ensures seated { IfOk result (λ state. IsSeatedAt part.now state) }
    {
        let publisher = match Publisher::new(alloc, number, part.base.try_clone()?) {
            Ok(publisher) => publisher,
            Err(_) => unreachable!(),
        };
        a_new_publisher_has_its_base();
        Ok(PublisherState {
            publisher,
            journal: Vec::new(alloc),
            line: 0,
            pause: 0,
            over: false,
        })
    }

    /// Whether it has made all its steps.
    pub fn is_over(&self) -> bool
        ensures { result ≡ self.now.over }
    {
        self.over
    }

    /// How many steps it still pauses; none where it is over.
    pub fn pause(&self) -> Option<u32>
        ensures { result ≡ if self.now.over then None else Some self.now.pause }
    {
        if self.over { None } else { Some(self.pause) }
    }

    /// Whether a pause covers as many steps, or it has none left to make.
    pub fn is_idle(&self, steps: u32) -> bool
        ensures { result ≡ (self.now.over || nat_le steps self.now.pause) }
    {
        self.over || steps <= self.pause
    }

    /// Passes over as many steps of a pause.
    pub fn rest(&mut self, steps: u32)
        ensures { self.new ≡ record self.old { pause = self.old.pause - steps } }
    {
        self.pause = self.pause.saturating_sub(steps);
    }

    /// The journal.
    pub fn into_journal(self) -> Vec<PublisherEntry>
        ensures { result.items ≡ self.journal }
    {
        self.journal
    }

    /// Takes an event, and puts what it puts at the end of the outbox. Where no memory is found all is as before.
    pub fn take<M: Tagged>(
        &mut self,
        event: ToPublisher,
        out: &mut Outbox<ToBridge<M>>,
    ) -> Result<(), OutOfMemory>
        ensures state { OnOk result (self.new ≡ record self.old { journal = self.old.journal ++ PublisherEntry.Took (publisher_note_of event) ∷ [] }) }
        ensures puts { OnOk result ((script : PublisherScript) → StandsAt script self.old.journal self.old.publisher → map (note_of M.tagged) out.new.items ≡ map (note_of M.tagged) out.old.items ++ publisher_puts_at script self.old.journal (PublisherEntry.Took (publisher_note_of event))) }
        ensures seated { OnOk result ((part : PublisherPart) → IsSeatedAt part self.old → IsSeatedAt part self.new) }
        ensures err { OnErr result (self.new ≡ self.old) }
        ensures out_err { OnErr result (out.new.items ≡ out.old.items) }
    {
        self.journal.reserve(1)?;
        let note = event.note()?;
        let Ok(_) = self.publisher.take(event, out) else {
            return Err(OutOfMemory);
        };
        taking_an_event();
        note_taken(&mut self.journal, note);
        Ok(())
    }

    /// Makes the next step, and puts what it puts at the end of the outbox: nothing during a pause and after the last
    /// step. The section is the one that it was made with. The error is want of memory, and comes also where
    /// [`Publisher::send`] refuses an update: one that makes a record of more than 64 fields, which no accepted script has,
    /// or the 2^32nd. Then all is as before.
    pub fn step<M: Tagged>(
        &mut self,
        part: &PublisherPart,
        out: &mut Outbox<ToBridge<M>>,
    ) -> Result<(), OutOfMemory>
        requires { IsSeatedAt part.now self.old }
        ensures step { OnOk result ((puts : List BridgeNote) × (map (note_of M.tagged) out.new.items ≡ map (note_of M.tagged) out.old.items ++ puts) × IsSenderStep (sender_of part.now self.old) (sender_of part.now self.new) puts) }
        ensures seated { IsSeatedAt part.now self.new }
        ensures err { OnErr result (self.new ≡ self.old) }
        ensures out_err { OnErr result (out.new.items ≡ out.old.items) }
    {
        if self.over {
            return Ok(());
        }
        if self.pause > 0 {
            self.pause -= 1;
            return Ok(());
        }
        out.reserve(1)?;
        let sent = self.go_on(&part.base, part.lines.as_slice())?;
        lay(sent, out);
        Ok(())
    }

    /// Does the next line of a section that begins with this record, or tells that all lines were sent.
    fn go_on(&mut self, base: &Msg, lines: &[PublisherLine]) -> Result<Sent, OutOfMemory>
        requires seated { IsSeatedIn base.now lines.now self.old }
        requires going { self.old.over ≡ false }
        requires awake { self.old.pause ≡ 0 }
        ensures step { IfOk result (λ sent. IsSenderStep (sender_in base.now lines.now self.old) (sender_in base.now lines.now self.new) (notes_sent sent)) }
        ensures seated { IsSeatedIn base.now lines.now self.new }
        ensures err { OnErr result (self.new ≡ self.old) }
    {
        self.journal.reserve(1)?;
        let alloc = *self.journal.allocator();
        let line = next_at(lines, self.line);
        if line >= lines.len() {
            telling_the_end_of_sends();
            note_done(&mut self.journal);
            self.line = line;
            self.over = true;
            return Ok(Sent::Done);
        }
        match &lines[line] {
            PublisherLine::Update(body) => {
                let packet = packed(alloc, body)?;
                let msg = match self.publisher.send(body) {
                    Ok(msg) => with_body(&msg, packet),
                    Err(SendFault::OutOfMemory | SendFault::NumbersSpent | SendFault::RecordFull) =>
                        return Err(OutOfMemory),
                };
                sending_an_update();
                note_send(&mut self.journal);
                self.line = line + 1;
                Ok(Sent::Message(msg))
            }
            PublisherLine::Recap => {
                let msg = packed_message(alloc, &self.publisher.image(MsgKind::Recap)?)?;
                sending_a_recap();
                note_send(&mut self.journal);
                self.line = line + 1;
                Ok(Sent::Message(msg))
            }
            PublisherLine::Pause(steps) => {
                self.pause = *steps - 1;
                self.line = line + 1;
                Ok(Sent::Nothing)
            }
        }
    }
}
