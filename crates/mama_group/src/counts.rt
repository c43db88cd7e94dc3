ghost use Rattle.std.specs.Prelude.{◌≡◌};
ghost use Rattle.mama_group.specs.Kept.{counts_with, counts_without, IsThere, AreBounded, state_by};

use crate::member::Member;
use mama_event::GroupState;

/// How many members a group has, and how many of them wait, are stale, and are ended.
#[derive(Clone, Copy, Debug)]
pub(crate) struct Counts {
    pub(crate) members: usize,
    pub(crate) waiting: usize,
    pub(crate) stale: usize,
    pub(crate) ended: usize,
}

impl Counts {
    /// The counts of so many members, which all wait.
    pub(crate) fn new(members: usize) -> Counts
        ensures { result ≡ record { members = members; waiting = members; stale = 0; ended = 0 } }
    {
        Counts {
            members,
            waiting: members,
            stale: 0,
            ended: 0,
        }
    }

    /// The counts without one of the members.
    fn without(self, member: Member) -> Counts
        requires { IsThere member self }
        ensures { result ≡ counts_without member self }
    {
        let mut counts = self;
        match member {
            Member::Waiting => counts.waiting -= 1,
            Member::Fresh => {}
            Member::Stale => counts.stale -= 1,
            Member::Ended => counts.ended -= 1,
        }
        counts
    }

    /// The counts with that member again, as it is now.
    fn with(self, member: Member) -> Counts
        requires { AreBounded (counts_with member self) }
        ensures { result ≡ counts_with member self }
    {
        let mut counts = self;
        match member {
            Member::Waiting => counts.waiting += 1,
            Member::Fresh => {}
            Member::Stale => counts.stale += 1,
            Member::Ended => counts.ended += 1,
        }
        counts
    }

    /// The counts after one member changed.
    pub(crate) fn moved(self, from: Member, to: Member) -> Counts
        requires there { IsThere from self }
        requires bounded { AreBounded (counts_with to (counts_without from self)) }
        ensures { result ≡ counts_with to (counts_without from self) }
    {
        self.without(from).with(to)
    }

    /// The state of the group.
    pub(crate) fn state(&self) -> GroupState
        ensures { result ≡ state_by self.now }
    {
        if self.ended == self.members {
            GroupState::Ended
        } else if self.waiting > 0 {
            GroupState::Waiting
        } else if self.stale > 0 {
            GroupState::Stale
        } else {
            GroupState::Fresh
        }
    }
}
