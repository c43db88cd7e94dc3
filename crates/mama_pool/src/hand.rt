ghost use Rattle.std.specs.Prelude.{◌≡◌, ◌≢◌, ◌<◌, [], ◌∷◌, length, slice_set, IsOk, IfOk, OnOk, OnErr, IfErr, IfSome, IfNone};
ghost use Rattle.crossbeam_deque.specs.Handles.{worker_deque, worker_port, worker_view};
ghost use Rattle.crossbeam_utils.specs.Seq.{cell_view};
ghost use Rattle.mama_pool.specs.Steps.{with_push, with_counts};
ghost use Rattle.mama_pool.specs.Values.{share_in, share_of, with_share, learnt_more, SamePlaces, after_push, after_take, HasLooked, KnowsAll, note_of, after_learn};

use crate::note::HandNote;
use crate::numbered::Numbered;
use crate::rule::{Home, Tally, TallyPass};
use crate::share::{Share, exchange_at, learn_at, take_at};
use crate::steps;
use mama_memory::OutOfMemory;
use std::marker::{Model, PhantomData};
use std::sync::{Arc, Wait};

/// One of the numbered hands of a pool. It has a deque of its own, to which it alone pushes, and takes from the deque of any
/// hand. It may go to another thread.
///
/// In a clause a hand is a record of its number, the numbers of the items that it pushed, in order, and what it has of each
/// deque of the pool, in the order of the hands.
#[derive(Drop)]
pub struct Hand<D: Numbered> {
    pub(crate) number: u32,
    pub(crate) home: Home<D>,
    pub(crate) tally: Arc<Tally>,
    // The shares in the own tally that no hand has. It counts pushes.
    pub(crate) opener: TallyPass,
    pub(crate) shares: Vec<Share<D>>,
}

impl<D: Numbered> Model for Hand<D> {
    ghost use Rattle.std.specs.Prelude.{◌≡◌};
    ghost use Rattle.crossbeam_deque.specs.Handles.{worker_deque, worker_port, worker_view};
    ghost use Rattle.crossbeam_utils.specs.Seq.{cell_view};
    ghost use Rattle.mama_pool.specs.Hand.{IsHand};
    ghost use Rattle.mama_pool.specs.Values.{HandValue};

    ghost Value = { HandValue };

    ghost view = { λ h. record { number = h.number; pushed = (worker_view h.home).pushed; shares = h.shares.items } };

    ghost invariant = { λ h. (worker_port h.home ≡ 0) × (h.opener.table_id ≡ h.tally.value.table.shared.table_id) × IsHand h.number (record { deque = worker_deque h.home; tally = h.tally.value.table.shared.table_id }) (worker_view h.home) (cell_view h.opener) h.shares.items };
}

impl<D: Numbered> Hand<D> {
    /// The hand's number. Hands count from 0.
    pub fn number(&self) -> u32
        ensures number { result ≡ self.now.number }
        ensures there { result < length self.now.shares }
    {
        let _shares = &self.shares;
        self.number
    }

    /// How many hands the pool has, this one among them.
    pub fn hands(&self) -> u32
        ensures { result ≡ length self.now.shares }
    {
        self.shares.len() as u32
    }

    /// Pushes an item last to the own deque. Where the deque cannot grow the item comes back, which counts as want of memory.
    pub fn push<Rt: Wait + Copy>(&mut self, rt: Rt, item: D) -> Result<(), D>
        ensures ok { OnOk result (self.new ≡ after_push self.old (D.numbered item)) }
        ensures err { OnErr result (self.new ≡ self.old) }
        ensures back { IfErr result (λ back. back ≡ item) }
        ensures places { SamePlaces self.old self.new }
    {
        push_at(
            &rt,
            &mut self.home,
            &self.tally,
            &mut self.opener,
            &mut self.shares,
            self.number as usize,
            item,
        )
    }

    /// Takes the first item of the own deque. The answer is `None` only where all that this hand pushed was taken, or counted
    /// as taken by a call under way. It takes no memory.
    pub fn pop<Rt: Wait + Copy>(&mut self, rt: Rt) -> Option<D>
        ensures some { IfSome result (λ item. self.new ≡ after_take self.old self.old.number (D.numbered item)) }
        ensures none { IfNone result (KnowsAll self.old self.new) }
        ensures places { SamePlaces self.old self.new }
    {
        take_at(&rt, &mut self.shares, self.number as usize)
    }

    /// Takes the first item of the deque of the hand with this number. The answer is `None` only where all was taken, or counted
    /// as taken by a call under way, that the notes of that hand name which this hand learnt. Where it learnt none, no clause
    /// says that it looked. It takes no memory.
    pub fn steal<Rt: Wait + Copy>(&mut self, rt: Rt, from: u32) -> Option<D>
        requires { (from ≢ self.old.number) × (from < length self.old.shares) }
        ensures some { IfSome result (λ item. self.new ≡ after_take self.old from (D.numbered item)) }
        ensures none { IfNone result (HasLooked self.old from self.new) }
        ensures places { SamePlaces self.old self.new }
    {
        take_at(&rt, &mut self.shares, from as usize)
    }

    /// A note of how many items this hand has pushed so far. It takes no memory, and always succeeds.
    pub fn tell<Rt: Copy>(&mut self, _rt: Rt) -> Result<HandNote<D>, OutOfMemory>
        ensures ok { IsOk result }
        ensures note { IfOk result (λ note. note ≡ note_of self.old) }
        ensures same { self.new ≡ self.old }
    {
        let pass = steps::tell(&self.tally, &mut self.opener);
        Ok(HandNote {
            from: self.number,
            pass,
            of: PhantomData,
        })
    }

    /// From now on this hand knows that the hand which told the note had pushed as many items as it names. It takes no memory.
    pub fn learn<Rt: Copy>(&mut self, _rt: Rt, note: HandNote<D>)
        requires from { (note.from ≢ self.old.number) × (note.from < length self.old.shares) }
        requires note { note.tally ≡ (share_of self.old note.from).place.tally }
        ensures learnt { self.new ≡ after_learn self.old note }
        ensures places { SamePlaces self.old self.new }
    {
        let HandNote { from, pass, of: _ } = note;
        learn_at(&mut self.shares, from as usize, pass);
    }

    // Two hands give each other what each has of the other's deque.
    pub(crate) fn exchange(&mut self, other: &mut Hand<D>)
        requires apart { self.old.number ≢ other.old.number }
        requires numbers { (self.old.number < length other.old.shares) × (other.old.number < length self.old.shares) }
        ensures mine { self.new ≡ with_share self.old other.old.number (share_of other.old self.old.number) }
        ensures theirs { other.new ≡ with_share other.old self.old.number (share_of self.old other.old.number) }
    {
        exchange_at(
            &mut self.shares,
            other.number as usize,
            &mut other.shares,
            self.number as usize,
        );
    }
}

// Pushes an item, counts that, and lets the own share learn of it. The item comes back where the deque cannot grow.
fn push_at<R: Wait, D: Numbered>(
    rt: &R,
    home: &mut Home<D>,
    tally: &Tally,
    opener: &mut TallyPass,
    shares: &mut Vec<Share<D>>,
    own: usize,
    item: D,
) -> Result<(), D>
    requires home { worker_port home.old ≡ 0 }
    requires opener { (opener.old.table_id ≡ tally.now.table.shared.table_id) × (0 < (cell_view opener.old).shares) }
    requires own { (own < length shares.old.items) × ((share_in shares.old.items own).place.tally ≡ tally.now.table.shared.table_id) }
    ensures home { (worker_deque home.new ≡ worker_deque home.old) × (worker_port home.new ≡ 0) }
    ensures opener { opener.new.table_id ≡ opener.old.table_id }
    ensures pushed { OnOk result (worker_view home.new ≡ with_push (worker_view home.old) (D.numbered item ∷ [])) }
    ensures counted { OnOk result (cell_view opener.new ≡ with_counts (cell_view opener.old) 1 0) }
    ensures learnt { OnOk result (shares.new.items ≡ slice_set shares.old.items own (learnt_more (share_in shares.old.items own) (cell_view opener.new).pushes)) }
    ensures left { OnErr result (worker_view home.new ≡ worker_view home.old) }
    ensures uncounted { OnErr result (cell_view opener.new ≡ cell_view opener.old) }
    ensures unlearnt { OnErr result (shares.new.items ≡ shares.old.items) }
    ensures back { IfErr result (λ back. back ≡ item) }
{
    if let Err(item) = steps::push(home, item) {
        return Err(item);
    }
    steps::count(rt, tally, opener, 1, 0);
    let note = steps::tell(tally, opener);
    learn_at(shares, own, note);
    Ok(())
}
