ghost use Rattle.std.specs.Prelude.{◌≡◌, ◌-◌, ◌<◌, ◌≤◌, [], length, vec_capacity, IfOk, OnOk};
ghost use lib.ListN.{replicate};
ghost use Rattle.crossbeam_deque.specs.Handles.{worker_deque, worker_port, worker_view};
ghost use Rattle.crossbeam_utils.specs.Seq.{cell_view};
ghost use Rattle.mama_pool.specs.Deal.{AreNumbered, IsDealt, IsUndealt};
ghost use Rattle.mama_pool.specs.Steps.{opener as opener_view, counter, view_of, count_of, without_share, without_part};
ghost use Rattle.mama_pool.specs.Values.{IsNewPool, IsPool, new_share};

use crate::hand::Hand;
use crate::numbered::Numbered;
use crate::rule::{Home, Tally, TallyPass};
use crate::share::Share;
use crate::steps;
use mama_memory::OutOfMemory;
use std::alloc::Global;
use std::sync::Arc;

/// How many slots a deque has at first.
const FIRST_SLOTS: usize = 64;

/// A pool of so many hands, 1 to 64, in the order of their numbers, which count from 0. Nothing was pushed or taken. The error
/// is want of memory.
pub fn open_pool<D: Numbered, Rt: Copy>(
    _rt: Rt,
    alloc: Global,
    workers: u32,
) -> Result<Vec<Hand<D>>, OutOfMemory>
    requires { (0 < workers) × (workers ≤ 64) }
    ensures new { IfOk result (λ hands. IsNewPool workers hands.items) }
    ensures pool { IfOk result (λ hands. IsPool hands.items) }
{
    let mut hands = Vec::with_capacity(alloc, workers as usize)?;
    for number in 0..workers {
        let mut hand = make_hand(alloc, number, workers)?;
        deal(&mut hands, &mut hand);
        hands.push_reserved(hand);
    }
    Ok(hands)
}

// A hand that has all hands' shares in its own deque.
fn make_hand<D: Numbered>(alloc: Global, number: u32, workers: u32) -> Result<Hand<D>, OutOfMemory>
    requires { (number < workers) × (workers ≤ 64) }
    ensures { IfOk result (IsUndealt number workers) }
{
    let room = Vec::with_capacity(alloc, workers as usize)?;
    let mut home = Home::<D>::fifo_as(alloc, FIRST_SLOTS)?;
    let (tally, mut opener) = Tally::ruled(alloc, [0, 0])?;
    let tally = Arc::new(alloc, tally)?;
    let shares = make_shares(&mut home, &tally, &mut opener, room, workers)?;
    Ok(Hand {
        number,
        home,
        tally,
        opener,
        shares,
    })
}

// So many shares in a new deque and its tally, for which there is room.
fn make_shares<D: Numbered>(
    home: &mut Home<D>,
    tally: &Arc<Tally>,
    opener: &mut TallyPass,
    room: Vec<Share<D>>,
    workers: u32,
) -> Result<Vec<Share<D>>, OutOfMemory>
    requires workers { workers ≤ 64 }
    requires room { (room.items ≡ []) × (workers ≤ vec_capacity room) }
    requires home { (worker_port home.old ≡ 0) × (worker_view home.old ≡ opener_view) }
    requires opener { (opener.old.table_id ≡ tally.now.value.table.shared.table_id) × (cell_view opener.old ≡ counter) }
    ensures home { OnOk result ((worker_deque home.new ≡ worker_deque home.old) × (worker_port home.new ≡ 0) × (worker_view home.new ≡ view_of (65 - workers) [] [])) }
    ensures opener { OnOk result ((opener.new.table_id ≡ opener.old.table_id) × (cell_view opener.new ≡ count_of (65 - workers) 0 0 0 0)) }
    ensures shares { IfOk result (λ shares. shares.items ≡ replicate workers (new_share (record { deque = worker_deque home.old; tally = tally.now.value.table.shared.table_id }))) }
{
    let mut shares = room;
    for _ in 0..workers {
        shares.push_reserved(make_share(home, tally, opener)?);
    }
    Ok(shares)
}

// One more share in a deque and its tally.
fn make_share<D: Numbered>(
    home: &mut Home<D>,
    tally: &Arc<Tally>,
    opener: &mut TallyPass,
) -> Result<Share<D>, OutOfMemory>
    requires home { (worker_port home.old ≡ 0) × (1 < (worker_view home.old).shares) }
    requires opener { (opener.old.table_id ≡ tally.now.value.table.shared.table_id) × (1 < (cell_view opener.old).shares) }
    ensures home { OnOk result ((worker_deque home.new ≡ worker_deque home.old) × (worker_port home.new ≡ 0) × (worker_view home.new ≡ without_share (worker_view home.old))) }
    ensures opener { OnOk result ((opener.new.table_id ≡ opener.old.table_id) × (cell_view opener.new ≡ without_part (cell_view opener.old))) }
    ensures share { IfOk result (λ share. share ≡ new_share (record { deque = worker_deque home.old; tally = tally.now.value.table.shared.table_id })) }
{
    let reach = home.stealer()?;
    let mine = Arc::try_clone(tally)?;
    let pass = steps::share_deque(home);
    let count = steps::share_tally(tally, opener);
    Ok(Share {
        reach,
        pass,
        tally: mine,
        count,
    })
}

/// The hand and each of these give each other what each has of the other's deque.
pub(crate) fn deal<D: Numbered>(hands: &mut Vec<Hand<D>>, hand: &mut Hand<D>)
    requires hands { AreNumbered (length hand.old.shares) hands.old.items }
    requires hand { (hand.old.number ≡ length hands.old.items) × (length hands.old.items < length hand.old.shares) }
    ensures dealt { IsDealt (length hands.old.items) hands.old.items hands.new.items hand.old hand.new }
    ensures room { vec_capacity hands.new ≡ vec_capacity hands.old }
{
    for i in 0..hands.len() {
        hands[i].exchange(hand);
    }
}
