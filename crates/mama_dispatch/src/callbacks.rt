ghost use Rattle.std.specs.Prelude.{◌≡◌, [], ◌≤◌, length, map, vec_capacity};
ghost use Rattle.mama_event.specs.Listener.{told};
ghost use Rattle.mama_dispatch.specs.Callbacks.{calls_to, without};
ghost use Rattle.mama_dispatch.specs.Noted.{lists_in};

use crate::notes::calls_of_rows;
use crate::seats::Seats;
use indexmap::IndexSet;
use mama_event::{CallNote, Listener, ObjectId};
use std::alloc::Global;
use std::marker::Model;

/// The callbacks of a queue's objects with the orders given in them. Those of one object at a time are moved out, and
/// found by its id.
#[derive(Drop)]
pub struct Callbacks {
    alloc: Global,
    places: IndexSet<ObjectId>,
    lists: Vec<(ObjectId, Vec<CallNote>)>,
}

impl Model for Callbacks {
    ghost use Rattle.std.specs.Prelude.{List};
    ghost use Rattle.mama_event.specs.declared.ids.ObjectId.{ObjectId};
    ghost use Rattle.mama_event.specs.declared.callback.CallNote.{CallNote};

    ghost Value = { List (ObjectId × List CallNote) };

    ghost use Rattle.std.specs.Prelude.{◌≡◌, map};
    ghost use Rattle.mama_dispatch.specs.Notes.{lists_of};

    ghost view = { λ c. lists_of c.lists.items };

    ghost invariant = { λ c. c.places.keys ≡ map (λ e. e.0) (lists_of c.lists.items) };
}

impl Callbacks {
    /// Those of a queue's objects, moved into a list that has room for them.
    pub(crate) fn of<L: Listener>(
        alloc: Global,
        seats: Seats<L>,
        room: Vec<(ObjectId, Vec<CallNote>)>,
    ) -> Callbacks
        requires none { room.items ≡ [] }
        requires enough { length seats ≤ vec_capacity room }
        ensures { result ≡ lists_in seats }
    {
        let (places, rows) = seats.into_parts();
        Callbacks {
            alloc,
            places,
            lists: calls_of_rows(rows, room),
        }
    }

    /// Moves the callbacks of an object out, in order; none for an object that never came. From then on it has none here.
    /// It takes no memory.
    pub fn take(&mut self, object: &ObjectId) -> Vec<CallNote>
        ensures calls { result.items ≡ calls_to object.now self.old }
        ensures rest { self.new ≡ without object.now self.old }
    {
        match self.places.get_index_of(object) {
            Some(place) => take_list(self.alloc, &mut self.lists[place]),
            None => Vec::new(self.alloc),
        }
    }
}

/// Moves the callbacks of an object out of its list.
fn take_list(alloc: Global, list: &mut (ObjectId, Vec<CallNote>)) -> Vec<CallNote>
    ensures calls { result.items ≡ list.old.1.items }
    ensures object { list.new.0 ≡ list.old.0 }
    ensures none { list.new.1.items ≡ [] }
{
    std::mem::replace(&mut list.1, Vec::new(alloc))
}
