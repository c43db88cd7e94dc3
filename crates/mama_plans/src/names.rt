ghost use Rattle.std.specs.Prelude.{◌≡◌, ◌%◌, IfOk, OnOk, [], ◌∷◌, List, ℕ};
ghost use Rattle.mama_event.specs.declared.order.PlanRow.{PlanRow};
ghost use Rattle.mama_script.specs.declared.client.ClientLine.TheVariants as line;
ghost use Rattle.mama_rules_rounds.specs.Client.{queue_named, after_word};
ghost use Rattle.mama_plans.specs.Put.{note_of};
ghost use Rattle.mama_plans.specs.Names.{standing_of, DoesLine, Does};
ghost use Rattle.mama_plans.specs.Room.{HasRoom};

use crate::put_of;
use mama_event::{
    InboxId, InboxTerms, ObjectId, SubId, SubKind, SubTerms, TimerId, ToBridge, ToService, ToTimers,
};
use mama_link::Faults;
use mama_memory::{Duplicate, OutOfMemory};
use mama_script::{ClientLine, QueueWord};

/// How many objects of each kind a client has named so far, and how often it has taken the next queue in turn.
#[derive(Clone, Copy)]
pub struct Names {
    pub subs: u32,
    pub timers: u32,
    pub inboxes: u32,
    pub turns: u32,
}

/// What a line of a client does.
#[derive(Drop)]
pub enum Doing {
    /// It puts this event, and then the client has named so much.
    Puts(ToService<ObjectId>, Names),
    /// It passes over as many steps.
    Pauses(u32),
    /// It reads the clock, and tells the timer service what it says.
    ReadsClock,
}

/// What a line asks of a subscription, but for its faults and its plan.
#[derive(Clone, Copy)]
struct Asked {
    topic: u32,
    kind: SubKind,
    queue: QueueWord,
    cache: u32,
    recaps: u32,
}

/// The queue that is next in turn; where there are none, the number of the turn.
fn next_in_turn(turns: u32, queues: u32) -> u32
    ensures { result ≡ turns % queues }
{
    if queues == 0 { turns } else { turns % queues }
}

impl Names {
    /// Nothing is named yet.
    pub fn none() -> Names
        ensures { result ≡ record { subs = 0; timers = 0; inboxes = 0; turns = 0 } }
    {
        Names {
            subs: 0,
            timers: 0,
            inboxes: 0,
            turns: 0,
        }
    }

    /// That a number is left for one more object of each kind. The error is that none is.
    fn room(self) -> Result<(), OutOfMemory>
        ensures { OnOk result (HasRoom self) }
    {
        let most = self.subs.max(self.timers).max(self.inboxes);
        if most == u32::MAX || self.turns == u32::MAX {
            return Err(OutOfMemory);
        }
        Ok(())
    }

    /// The queue that a word names, and the names after it.
    pub(crate) fn queue_of(self, queues: u32, word: QueueWord) -> (u32, Names)
        requires { HasRoom self }
        ensures queue { (moments : List ℕ) → result.0 ≡ queue_named queues (standing_of self moments) word }
        ensures after { (moments : List ℕ) → standing_of result.1 moments ≡ after_word (standing_of self moments) word }
    {
        match word {
            QueueWord::Number(queue) => (queue, self),
            QueueWord::Any => {
                let mut names = self;
                names.turns += 1;
                (next_in_turn(self.turns, queues), names)
            }
        }
    }

    /// Does a line that joins a topic, under the next number.
    fn join(
        self,
        number: u32,
        queues: u32,
        asked: Asked,
        faults: &Faults,
    ) -> Result<(ToService<ObjectId>, Names), OutOfMemory>
        ensures { IfOk result (λ done. (plan : List PlanRow) → DoesLine queues number self done.1 (line.Sub asked.topic asked.kind asked.queue asked.cache asked.recaps faults.now plan) (note_of done.0)) }
    {
        self.room()?;
        let sub = SubId {
            client: number,
            number: self.subs,
        };
        let (queue, mut names) = self.queue_of(queues, asked.queue);
        names.subs = self.subs + 1;
        let terms = SubTerms {
            topic: asked.topic,
            kind: asked.kind,
            queue,
            cache: asked.cache,
            recaps: asked.recaps,
            faults: faults.try_clone()?,
        };
        let put = ToService::Bridge(ToBridge::Join {
            sub,
            terms,
            listener: ObjectId::Sub(sub),
        });
        Ok((put, names))
    }

    /// Does a line that arms a timer, under the next number.
    fn arm(
        self,
        number: u32,
        queues: u32,
        queue: QueueWord,
        interval: u32,
    ) -> Result<(ToService<ObjectId>, Names), OutOfMemory>
        ensures { IfOk result (λ done. (plan : List PlanRow) → DoesLine queues number self done.1 (line.Timer queue interval plan) (note_of done.0)) }
    {
        self.room()?;
        let timer = TimerId {
            client: number,
            number: self.timers,
        };
        let (queue, mut names) = self.queue_of(queues, queue);
        names.timers = self.timers + 1;
        let put = ToService::Timers(ToTimers::Arm {
            timer,
            queue,
            interval,
            listener: ObjectId::Timer(timer),
        });
        Ok((put, names))
    }

    /// Does a line that opens an inbox, under the next number.
    fn open(
        self,
        number: u32,
        queues: u32,
        queue: QueueWord,
        faults: &Faults,
    ) -> Result<(ToService<ObjectId>, Names), OutOfMemory>
        ensures { IfOk result (λ done. (plan : List PlanRow) → DoesLine queues number self done.1 (line.Inbox queue faults.now plan) (note_of done.0)) }
    {
        self.room()?;
        let inbox = InboxId {
            client: number,
            number: self.inboxes,
        };
        let (queue, mut names) = self.queue_of(queues, queue);
        names.inboxes = self.inboxes + 1;
        let terms = InboxTerms {
            queue,
            faults: faults.try_clone()?,
        };
        let put = ToService::Bridge(ToBridge::OpenInbox {
            inbox,
            terms,
            listener: ObjectId::Inbox(inbox),
        });
        Ok((put, names))
    }

    /// What a line does of the client of this number, where there are so many queues. The error is want of memory. It also
    /// comes where 2^32 - 1 objects of a kind, or queues in turn, were named: their numbers end there, and no client of an
    /// accepted script has as many.
    pub fn line(self, number: u32, queues: u32, line: &ClientLine) -> Result<Doing, OutOfMemory>
        ensures { IfOk result (λ doing. Does queues number self line.now doing) }
    {
        match line {
            ClientLine::Sub {
                topic,
                kind,
                queue,
                cache,
                recaps,
                faults,
                plan: _,
            } => {
                let asked = Asked {
                    topic: *topic,
                    kind: *kind,
                    queue: *queue,
                    cache: *cache,
                    recaps: *recaps,
                };
                let done = self.join(number, queues, asked, faults)?;
                Ok(Doing::Puts(done.0, done.1))
            }
            ClientLine::Timer {
                queue,
                interval,
                plan: _,
            } => {
                let done = self.arm(number, queues, *queue, *interval)?;
                Ok(Doing::Puts(done.0, done.1))
            }
            ClientLine::Inbox {
                queue,
                faults,
                plan: _,
            } => {
                let done = self.open(number, queues, *queue, faults)?;
                Ok(Doing::Puts(done.0, done.1))
            }
            ClientLine::Order(order) => Ok(Doing::Puts(put_of(*order), self)),
            ClientLine::Now(moment) => {
                let put = ToService::Timers(ToTimers::Now { moment: *moment });
                Ok(Doing::Puts(put, self))
            }
            ClientLine::NowClock => Ok(Doing::ReadsClock),
            ClientLine::Pause(steps) => Ok(Doing::Pauses(*steps)),
        }
    }
}
