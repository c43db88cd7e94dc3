ghost use Rattle.std.specs.Prelude.{◌≡◌, ◌+◌, ◌<◌, ◌≤◌, ◌^◌, ◌++◌, ◌↔◌, [], ◌∷◌, length, IsTrue, IfOk, IfErr};
ghost use Rattle.mama_link.specs.Link.{copies};
ghost use Rattle.mama_link.specs.Steps.{held_back, copy_for};

use crate::cuttable::Cuttable;
use crate::faults::Fault;
use mama_memory::{Duplicate, Outbox};
use std::marker::Model;

/// A pass of one message through a link, for which all memory is there.
#[derive(Drop)]
pub struct Prepared<T> {
    place: u64,
    fault: Option<Fault>,
    message: T,
    copy: Option<T>,
    len: usize,
}

impl<T> Model for Prepared<T> {
    ghost use Rattle.std.specs.Prelude.{◌≡◌};
    ghost use Rattle.mama_link.specs.Prepared.{Readied};
    ghost use Rattle.mama_link.specs.Steps.{copy_for};

    ghost Value = { Readied T };

    ghost view = { λ p. record { place = p.place; fault = p.fault; message = p.message; len = p.len } };

    ghost invariant = { λ p. p.copy ≡ copy_for p.fault p.message };
}

impl<T> Prepared<T> {
    /// The number of messages that this pass will put out.
    pub fn len(&self) -> usize
        ensures { result ≡ self.now.len }
    {
        self.len
    }

    /// Whether this pass will put out nothing.
    pub fn is_empty(&self) -> bool
        ensures { IsTrue result ↔ (self.now.len ≡ 0) }
    {
        self.len == 0
    }

    /// The place of this pass, which is the number of its message.
    pub(crate) fn place(&self) -> u64
        ensures { result ≡ self.now.place }
    {
        self.place
    }

    /// What befalls the message.
    pub(crate) fn fault(&self) -> Option<Fault>
        ensures { result ≡ self.now.fault }
    {
        self.fault
    }
}

impl<T: Drop> Prepared<T> {
    /// The message.
    pub(crate) fn into_message(self) -> T
        ensures { result ≡ self.message }
    {
        self.message
    }
}

impl<T: Cuttable + Drop> Prepared<T> {
    /// Puts out what comes of the message in its place, and gives it back where it is held.
    pub(crate) fn put_own(self, out: &mut Outbox<T>) -> Option<T>
        requires { length (copies T.cut_to self.fault self.message) ≤ out.old.spare }
        ensures out { out.new.items ≡ out.old.items ++ copies T.cut_to self.fault self.message }
        ensures spare { out.new.spare + length (copies T.cut_to self.fault self.message) ≡ out.old.spare }
        ensures held { result ≡ held_back self.fault self.message }
    {
        match self.fault {
            None => {
                out.push_reserved(self.message);
                None
            }
            Some(Fault::Lose) => None,
            Some(Fault::Dup) => {
                out.push_reserved(self.message);
                if let Some(copy) = self.copy {
                    out.push_reserved(copy);
                }
                None
            }
            Some(Fault::Hold(_)) => Some(self.message),
            Some(Fault::Cut(keep)) => {
                put_cut(self.message, keep, out);
                None
            }
        }
    }
}

/// Puts out what a cut leaves of a message.
fn put_cut<T: Cuttable + Drop>(message: T, keep: u32, out: &mut Outbox<T>)
    requires { 0 < out.old.spare }
    ensures out { out.new.items ≡ out.old.items ++ T.cut_to keep message ∷ [] }
    ensures spare { out.new.spare + 1 ≡ out.old.spare }
{
    let mut message = message;
    message.cut(keep);
    out.push_reserved(message);
}

impl<T: Duplicate + Cuttable> Prepared<T> {
    /// A pass at a place where this many held messages come out besides, or the message.
    pub(crate) fn new(
        place: u64,
        fault: Option<Fault>,
        message: T,
        due: usize,
    ) -> Result<Prepared<T>, T>
        requires { due < 2 ^ 63 }
        ensures prepared { IfOk result (λ p. p ≡ record { place = place; fault = fault; message = message; len = length (copies T.cut_to fault message) + due }) }
        ensures refused { IfErr result (λ back. back ≡ message) }
    {
        let (copy, own) = match fault {
            None => (None, 1),
            Some(Fault::Lose) => (None, 0),
            Some(Fault::Dup) => match message.try_clone() {
                Ok(copy) => (Some(copy), 2),
                Err(_) => return Err(message),
            },
            Some(Fault::Hold(_)) => (None, 0),
            Some(Fault::Cut(_)) => (None, 1),
        };
        Ok(Prepared {
            place,
            fault,
            message,
            copy,
            len: own + due,
        })
    }
}
