ghost use Rattle.std.specs.Prelude.{◌≡◌, ◌<◌, ◌≤◌, ◌∷◌, [], length, slice_set, IfSome, IfNone, IfOk, IfErr, OnOk, OnErr, OnSome};
ghost use Rattle.crossbeam_deque.specs.Handles.{view as pass_view, IsPassOf, stealer_deque};
ghost use Rattle.crossbeam_utils.specs.Seq.{cell_view};
ghost use Rattle.mama_pool.specs.Hand.{IsNote, HasCounted, HasLookedIn};
ghost use Rattle.mama_pool.specs.Steps.{with_take, with_counts, with_known};
ghost use Rattle.mama_pool.specs.Values.{taken_more, learnt_more, share_in, IsAfterLook};

use crate::numbered::Numbered;
use crate::rule::{DequePass, Reach, Tally, TallyPass};
use crate::steps;
use crossbeam_utils::Backoff;
use std::marker::Model;
use std::mem;
use std::sync::{Arc, Wait};

/// What a hand has of one deque: the end at which it takes, and a share in the deque and in the tally beside it.
///
/// In a clause a share is a record of which deque and tally these are, the numbers that were taken by it, how many of the
/// deque's first pushes it knows to be taken, and how many it learnt of.
#[derive(Drop)]
pub struct Share<D: Numbered> {
    pub(crate) reach: Reach<D>,
    pub(crate) pass: DequePass<D>,
    pub(crate) tally: Arc<Tally>,
    pub(crate) count: TallyPass,
}

impl<D: Numbered> Model for Share<D> {
    ghost use Rattle.std.specs.Prelude.{◌≡◌};
    ghost use Rattle.crossbeam_deque.specs.Handles.{view as knows, IsPassOf, stealer_deque};
    ghost use Rattle.crossbeam_utils.specs.Seq.{cell_view};
    ghost use Rattle.mama_pool.specs.Hand.{IsShare};
    ghost use Rattle.mama_pool.specs.Values.{ShareValue};

    ghost Value = { ShareValue };

    ghost view = { λ s. record { place = record { deque = stealer_deque s.reach; tally = s.tally.value.table.shared.table_id }; took = (knows s.pass).took; known = (cell_view s.count).known; learnt = (cell_view s.count).learnt } };

    ghost invariant = { λ s. IsPassOf (stealer_deque s.reach) s.pass × (s.count.table_id ≡ s.tally.value.table.shared.table_id) × IsShare (knows s.pass) (cell_view s.count) };
}

impl<D: Numbered> Share<D> {
    /// Takes the first item of the deque. The answer is `None` only by a look that found no more pushes counted than takes.
    pub fn take<R: Wait>(&mut self, rt: &R) -> Option<D>
        ensures some { IfSome result (λ item. self.new ≡ taken_more self.old (D.numbered item)) }
        ensures none { IfNone result (IsAfterLook self.old self.new) }
    {
        take_or_look(
            rt,
            &self.reach,
            &mut self.pass,
            &self.tally,
            &mut self.count,
        )
    }

    /// From now on the share knows that the deque had as many pushes as the note names.
    pub fn learn(&mut self, note: TallyPass)
        requires note { (note.table_id ≡ self.old.place.tally) × (note.me.1 ≡ []) }
        requires plain { IsNote (cell_view note) }
        ensures { self.new ≡ learnt_more self.old (cell_view note).learnt }
    {
        steps::learn(&self.tally, &mut self.count, note);
    }
}

// Takes the first item, and counts that, or looks.
fn take_or_look<R: Wait, D: Numbered>(
    rt: &R,
    reach: &Reach<D>,
    pass: &mut DequePass<D>,
    tally: &Tally,
    count: &mut TallyPass,
) -> Option<D>
    requires pass { IsPassOf (stealer_deque reach.now) pass.old × (0 < (pass_view pass.old).shares) }
    requires count { (count.old.table_id ≡ tally.now.table.shared.table_id) × (0 < (cell_view count.old).shares) }
    ensures pass { IsPassOf (stealer_deque reach.now) pass.new }
    ensures count { count.new.table_id ≡ count.old.table_id }
    ensures took { IfSome result (λ item. pass_view pass.new ≡ with_take (pass_view pass.old) (D.numbered item ∷ [])) }
    ensures counted { OnSome result (cell_view count.new ≡ with_counts (cell_view count.old) 0 1) }
    ensures left { IfNone result (pass_view pass.new ≡ pass_view pass.old) }
    ensures looked { IfNone result (HasCounted (cell_view count.old) (cell_view count.new)) }
{
    match take_counted(rt, reach, pass, tally, count) {
        Ok(item) => Some(item),
        Err(_taken) => None,
    }
}

// Takes the first item, and counts that. At `Err` a look found no more pushes counted than takes, so many as are named.
fn take_counted<R: Wait, D: Numbered>(
    rt: &R,
    reach: &Reach<D>,
    pass: &mut DequePass<D>,
    tally: &Tally,
    count: &mut TallyPass,
) -> Result<D, u64>
    requires pass { IsPassOf (stealer_deque reach.now) pass.old × (0 < (pass_view pass.old).shares) }
    requires count { (count.old.table_id ≡ tally.now.table.shared.table_id) × (0 < (cell_view count.old).shares) }
    ensures pass { IsPassOf (stealer_deque reach.now) pass.new }
    ensures count { count.new.table_id ≡ count.old.table_id }
    ensures took { IfOk result (λ item. pass_view pass.new ≡ with_take (pass_view pass.old) (D.numbered item ∷ [])) }
    ensures counted { OnOk result (cell_view count.new ≡ with_counts (cell_view count.old) 0 1) }
    ensures left { OnErr result (pass_view pass.new ≡ pass_view pass.old) }
    ensures looked { IfErr result (λ taken. cell_view count.new ≡ with_known (cell_view count.old) taken) }
    ensures learnt { IfErr result (λ taken. (cell_view count.old).learnt ≤ taken) }
    ensures known { IfErr result (λ taken. (cell_view count.old).known ≤ taken) }
{
    let backoff = Backoff::new();
    for _ in rt.forever() {
        if let Some(item) = steps::take(rt, reach, pass) {
            steps::count(rt, tally, count, 0, 1);
            return Ok(item);
        }
        if let Some(taken) = steps::look(rt, tally, count) {
            return Err(taken);
        }
        backoff.snooze();
    }
    unreachable!()
}

/// Takes the first item by one of these shares.
pub fn take_at<R: Wait, D: Numbered>(rt: &R, shares: &mut Vec<Share<D>>, at: usize) -> Option<D>
    requires { at < length shares.old.items }
    ensures some { IfSome result (λ item. shares.new.items ≡ slice_set shares.old.items at (taken_more (share_in shares.old.items at) (D.numbered item))) }
    ensures none { IfNone result (HasLookedIn shares.old.items at shares.new.items) }
{
    shares[at].take(rt)
}

/// One of these shares learns a note.
pub fn learn_at<D: Numbered>(shares: &mut Vec<Share<D>>, at: usize, note: TallyPass)
    requires at { at < length shares.old.items }
    requires note { (note.table_id ≡ (share_in shares.old.items at).place.tally) × (note.me.1 ≡ []) }
    requires plain { IsNote (cell_view note) }
    ensures { shares.new.items ≡ slice_set shares.old.items at (learnt_more (share_in shares.old.items at) (cell_view note).learnt) }
{
    shares[at].learn(note);
}

/// A share of the first and one of the others change places.
pub fn exchange_at<D: Numbered>(
    first: &mut Vec<Share<D>>,
    at: usize,
    other: &mut Vec<Share<D>>,
    other_at: usize,
)
    requires first { at < length first.old.items }
    requires other { other_at < length other.old.items }
    ensures first { first.new.items ≡ slice_set first.old.items at (share_in other.old.items other_at) }
    ensures other { other.new.items ≡ slice_set other.old.items other_at (share_in first.old.items at) }
{
    mem::swap(&mut first[at], &mut other[other_at]);
}
