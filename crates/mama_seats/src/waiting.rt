ghost use Rattle.std.specs.Prelude.{◌≡◌, [], ◌∷◌, true, Some, None, IfSome, IfNone};
ghost use Rattle.mama_seats.specs.Waiting.{waits};

use mama_memory::Outbox;
use std::alloc::Global;
use std::marker::Model;
use std::mem;

/// Events that wait to be put on their lanes, in order. The first is apart where its lane found no room for it.
#[derive(Drop)]
pub struct Waiting<T> {
    first: Option<T>,
    rest: Outbox<T>,
}

impl<T> Model for Waiting<T> {
    ghost use Rattle.mama_seats.specs.Waiting.{Queued};

    ghost Value = { Queued T };

    ghost view = { λ w. record { apart = w.first; rest = w.rest.items } };
}

impl<T> Waiting<T> {
    /// All of an outbox.
    pub fn all(events: Outbox<T>) -> Waiting<T>
        ensures { result ≡ record { apart = None; rest = events.items } }
    {
        Waiting {
            first: None,
            rest: events,
        }
    }

    /// Whether no event waits.
    pub fn is_empty(&self) -> bool
        ensures { result ≡ true → waits self.now ≡ [] }
    {
        match &self.first {
            Some(_) => false,
            None => self.rest.is_empty(),
        }
    }

    /// An empty outbox, with the room that events which are gone have left, so that the next ones want no new room. What waits
    /// is as before.
    pub fn lend(&mut self, alloc: Global) -> Outbox<T>
        ensures empty { result.items ≡ [] }
        ensures same { self.new ≡ self.old }
    {
        if !self.rest.is_empty() {
            return Outbox::new(alloc);
        }
        mem::replace(&mut self.rest, Outbox::new(alloc))
    }

    /// Takes the first event out. Then none is apart.
    pub fn take_first(&mut self) -> Option<T>
        ensures some { IfSome result (λ event. waits self.old ≡ event ∷ waits self.new) }
        ensures none { IfNone result (waits self.old ≡ []) }
        ensures unchanged { IfNone result (waits self.new ≡ []) }
        ensures apart { self.new.apart ≡ None }
    {
        match self.first.take() {
            Some(event) => Some(event),
            None => self.rest.take_first(),
        }
    }
}

impl<T: Drop> Waiting<T> {
    /// Puts back the event that was taken last. It takes no memory.
    pub fn put_back(&mut self, event: T)
        requires { self.old.apart ≡ None }
        ensures { waits self.new ≡ event ∷ waits self.old }
    {
        self.first = Some(event);
    }
}
