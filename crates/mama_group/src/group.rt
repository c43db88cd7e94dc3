ghost use Rattle.std.specs.Prelude.{◌≡◌, ◌<◌, ◌≤◌, ◌+◌, ◌^◌, ◌++◌, [], length, map, fold, vec_len, vec_capacity, OnOk, IfOk};
ghost use Rattle.mama_rules_queue.specs.Group.{member_after, state_told};
ghost use Rattle.mama_rules_queue.specs.GroupTurns.{calls_heard};
ghost use Rattle.mama_group.specs.Listener.{told, Heard};
ghost use Rattle.mama_group.specs.Table.{GroupHeard};
ghost use Rattle.mama_group.specs.Kept.{member_of, group_of, IsCounted, AreApart, IsMember, IsChange};

use crate::counts::Counts;
use crate::listener::GroupListener;
use crate::member::Member;
use mama_event::{CallNote, GroupNote, GroupState, Members, SubId};
use mama_memory::{Duplicate, OutOfMemory};
use std::alloc::Global;

/// A group of a table.
#[derive(Drop)]
pub(crate) struct Group<H: GroupListener> {
    pub(crate) number: u32,
    pub(crate) members: Members,
    pub(crate) counts: Counts,
    pub(crate) notes: Vec<GroupNote>,
    pub(crate) listener: H,
}

/// What a turn makes of a group: what it hears, the counts after it, and the member after it.
#[derive(Drop)]
pub(crate) struct Change {
    pub(crate) heard: Vec<GroupNote>,
    pub(crate) counts: Counts,
    pub(crate) member: Member,
}

/// Adds the callbacks of a member, as its group hears them, and gives the member after them.
fn add_calls(
    heard: &mut Vec<GroupNote>,
    sub: SubId,
    member: Member,
    notes: &[CallNote],
) -> Result<Member, OutOfMemory>
    ensures heard { OnOk result (heard.new.items ≡ heard.old.items ++ calls_heard sub (map (λ n. n.call) notes.now)) }
    ensures member { IfOk result (λ after. member_of after ≡ fold member_after (member_of member) (map (λ n. n.call) notes.now)) }
{
    let mut member = member;
    for note in notes {
        heard.push(GroupNote::Call {
            sub,
            call: note.call.try_clone()?,
        })?;
        member = member.after(&note.call);
    }
    Ok(member)
}

/// Adds a state, where it is another than before.
fn add_state(
    heard: &mut Vec<GroupNote>,
    before: GroupState,
    after: GroupState,
) -> Result<(), OutOfMemory>
    ensures { OnOk result (heard.new.items ≡ heard.old.items ++ state_told before after) }
{
    if before != after {
        heard.push(GroupNote::State { state: after })?;
    }
    Ok(())
}

impl<H: GroupListener> Group<H> {
    /// A group whose members all wait, and which has heard nothing.
    pub(crate) fn new(alloc: Global, number: u32, members: Members, listener: H) -> Group<H>
        ensures group { group_of (told H.tagged H.calls H.heard) result ≡ record { number = number; members = members; notes = []; listener = told H.tagged H.calls H.heard listener } }
        ensures counts { result.counts ≡ record { members = length members; waiting = length members; stale = 0; ended = 0 } }
    {
        let counts = Counts::new(members.len());
        Group {
            number,
            members,
            counts,
            notes: Vec::new(alloc),
            listener,
        }
    }

    /// What a turn in which a member was called back so makes of the group. Nothing has changed yet, and there is room for the
    /// notes.
    pub(crate) fn change(
        &mut self,
        alloc: Global,
        sub: SubId,
        member: Member,
        notes: &[CallNote],
    ) -> Result<Change, OutOfMemory>
        requires counted { IsCounted self.old }
        requires member { IsMember sub member self.old.members self.old.notes.items }
        requires apart { AreApart self.old }
        ensures same { record self.new { notes = self.old.notes } ≡ self.old }
        ensures notes { self.new.notes.items ≡ self.old.notes.items }
        ensures change { IfOk result (IsChange self.old.members self.old.notes.items sub (map (λ n. n.call) notes.now)) }
        ensures room { IfOk result (λ change. vec_len self.new.notes + length change.heard.items ≤ vec_capacity self.new.notes) }
    {
        let mut heard = Vec::with_capacity(alloc, notes.len().saturating_add(1))?;
        let after = add_calls(&mut heard, sub, member, notes)?;
        let counts = self.counts.moved(member, after);
        add_state(&mut heard, self.counts.state(), counts.state())?;
        self.notes.reserve(heard.len())?;
        Ok(Change {
            heard,
            counts,
            member: after,
        })
    }

    /// Tells the listener what the group hears, and notes it. There is room for it. The answer is the member after it.
    #[tactic(auto, using(crate::proofs::Placing::none_heard, crate::proofs::Placing::one_heard))]
    pub(crate) fn hear(&mut self, change: Change) -> Member
        requires { vec_len self.old.notes + length change.heard.items ≤ vec_capacity self.old.notes }
        ensures heard { GroupHeard change.heard.items (group_of (told H.tagged H.calls H.heard) self.old) (group_of (told H.tagged H.calls H.heard) self.new) }
        ensures counts { self.new.counts ≡ change.counts }
        ensures member { result ≡ change.member }
    {
        let Change {
            heard,
            counts,
            member,
        } = change;
        for note in heard {
            tell(&mut self.listener, &note);
            self.notes.push_reserved(note);
        }
        self.counts = counts;
        member
    }
}

/// Tells a listener one note.
fn tell<H: GroupListener>(listener: &mut H, note: &GroupNote)
    ensures { Heard note.now (told H.tagged H.calls H.heard listener.old) (told H.tagged H.calls H.heard listener.new) }
{
    match note {
        GroupNote::Call { sub, call } => listener.on_call(*sub, call),
        GroupNote::State { state } => listener.on_state(*state),
    }
}
