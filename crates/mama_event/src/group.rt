ghost use Rattle.std.specs.Prelude.{◌≡◌, ◌==◌, ◌<◌, length};
ghost use Rattle.std.specs.List.{slice_get};

use crate::callback::Callback;
use crate::ids::SubId;
use mama_memory::{Duplicate, OutOfMemory};
use std::marker::Model;

/// The subscriptions of a group, in order.
#[derive(Debug, Drop)]
pub struct Members {
    subs: Vec<SubId>,
}

impl Model for Members {
    ghost use Rattle.std.specs.Prelude.{List};
    ghost use Rattle.mama_event.specs.declared.ids.SubId.{SubId};

    ghost Value = { List SubId };

    ghost view = { λ m. m.subs.items };
}

impl PartialEq for Members {
    ghost use Rattle.std.specs.Prelude.{◌≡◌};
    ghost use Rattle.std.specs.Cmp.{partial_equiv_from_equiv};
    ghost use Rattle.mama_event.specs.Equality.{same_members};
    ghost use Rattle.mama_event.specs.EqualityLaws.{same_members_equivalence};

    ghost eq = { same_members };

    ghost laws = { partial_equiv_from_equiv same_members_equivalence };

    fn eq(&self, other: &Members) -> bool
        ensures { result ≡ same_members self.now other.now }
    {
        self.as_slice() == other.as_slice()
    }
}

impl Eq for Members {
    ghost use Rattle.mama_event.specs.EqualityLaws.{same_members_equivalence};

    ghost laws = { same_members_equivalence };
}

impl Members {
    ghost use Rattle.std.specs.Prelude.{◌≡◌};

    /// These members. It takes no memory.
    pub fn new(subs: Vec<SubId>) -> Members
        ensures { result ≡ subs.items }
    {
        Members { subs }
    }

    /// How many members there are.
    pub fn len(&self) -> usize
        ensures { result ≡ length self.now }
    {
        self.subs.len()
    }

    /// Whether there is no member.
    pub fn is_empty(&self) -> bool
        ensures { result ≡ (length self.now == 0) }
    {
        self.subs.is_empty()
    }

    /// The member of a place, counted from 0.
    pub fn at(&self, i: usize) -> SubId
        requires { i < length self.now }
        ensures { slice_get self.now i ≡ Some result }
    {
        self.subs[i]
    }

    /// The members in order.
    pub fn as_slice(&self) -> &[SubId]
        ensures { result.now ≡ self.now }
    {
        self.subs.as_slice()
    }
}

impl Duplicate for Members {
    fn try_clone(&self) -> Result<Members, OutOfMemory> {
        let subs = Vec::from_slice(*self.subs.allocator(), self.subs.as_slice())?;
        Ok(Members { subs })
    }
}

/// A group of subscriptions, of which one listener hears.
#[derive(Debug, Drop, PartialEq, Eq)]
pub struct GroupRow {
    pub members: Members,
}

/// The state of a group.
#[derive(Clone, Copy, Debug, PartialEq, Eq)]
pub enum GroupState {
    /// Not all members are ended, and some member was told no message yet and is not ended.
    Waiting,
    /// No member waits, not all are ended, and each that is not ended was last told ok.
    Fresh,
    /// No member waits, and one that is not ended was last told stale: its image may lack updates.
    Stale,
    /// All members are ended.
    Ended,
}

/// What a group's listener hears.
#[derive(Debug, Drop)]
pub enum GroupNote {
    /// A member was called back so.
    Call { sub: SubId, call: Callback },
    /// The group's state is now this one, and was another before.
    State { state: GroupState },
}

impl PartialEq for GroupNote {
    ghost use Rattle.std.specs.Prelude.{◌≡◌};
    ghost use Rattle.std.specs.Cmp.{partial_equiv_from_equiv};
    ghost use Rattle.mama_event.specs.Equality.{same_group_note};
    ghost use Rattle.mama_event.specs.EqualityLaws.{same_group_note_equivalence};

    ghost eq = { same_group_note };

    ghost laws = { partial_equiv_from_equiv same_group_note_equivalence };

    fn eq(&self, other: &GroupNote) -> bool
        ensures { result ≡ same_group_note self.now other.now }
    {
        match (self, other) {
            (
                GroupNote::Call { sub, call },
                GroupNote::Call {
                    sub: other_sub,
                    call: other_call,
                },
            ) => sub == other_sub && call == other_call,
            (GroupNote::State { state }, GroupNote::State { state: other_state }) => {
                state == other_state
            }
            _ => false,
        }
    }
}

impl Eq for GroupNote {
    ghost use Rattle.mama_event.specs.EqualityLaws.{same_group_note_equivalence};

    ghost laws = { same_group_note_equivalence };
}

impl Duplicate for GroupNote {
    fn try_clone(&self) -> Result<GroupNote, OutOfMemory> {
        match self {
            GroupNote::Call { sub, call } => Ok(GroupNote::Call {
                sub: *sub,
                call: call.try_clone()?,
            }),
            GroupNote::State { state } => Ok(GroupNote::State { state: *state }),
        }
    }
}
