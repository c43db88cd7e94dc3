ghost use Rattle.std.specs.Prelude.{◌≡◌};
ghost use Rattle.std.specs.List.{All};
ghost use Rattle.crossbeam_deque.specs.Handles.{worker_deque, worker_port, worker_view};
ghost use Rattle.crossbeam_utils.specs.Seq.{cell_view};
ghost use Rattle.mama_pool.specs.Steps.{joined, added, share_view, share_count, joined_all, added_all};
ghost use Rattle.mama_pool.specs.Values.{IsPool, Closed, shares_at, own_share};

use crate::hand::Hand;
use crate::numbered::Numbered;
use crate::open::deal;
use crate::rule::{Home, Tally, TallyPass};
use crate::share::Share;
use crate::steps;
use std::sync::Wait;

/// Ends a pool. It takes in all hands, and tells of each one's deque what was taken from it. Items that are left are dropped. It
/// takes no memory.
pub fn close_pool<D: Numbered, Rt: Wait + Copy>(rt: Rt, mut hands: Vec<Hand<D>>)
    requires { IsPool hands.items }
    ensures { All (λ hand. Closed hand.pushed (shares_at hand.number hands.items)) hands.items }
{
    while let Some(mut hand) = hands.pop() {
        deal(&mut hands, &mut hand);
        close_deque(&rt, hand);
    }
}

// Ends the deque of a hand that has all shares in it.
fn close_deque<D: Numbered, R: Wait>(rt: &R, hand: Hand<D>)
    requires { All (λ share. share.place ≡ (own_share hand).place) hand.shares }
    ensures { Closed hand.pushed hand.shares }
{
    let Hand {
        number: _,
        mut home,
        tally,
        mut opener,
        shares,
    } = hand;
    join_all(&mut home, &tally, &mut opener, shares);
    steps::settle_deque(&mut home);
    steps::settle_tally(rt, &tally, &mut opener);
}

// The deque's own hand takes in all these shares.
fn join_all<D: Numbered>(
    home: &mut Home<D>,
    tally: &Tally,
    opener: &mut TallyPass,
    shares: Vec<Share<D>>,
)
    requires home { worker_port home.old ≡ 0 }
    requires opener { opener.old.table_id ≡ tally.now.table.shared.table_id }
    requires shares { All (λ share. share.place ≡ record { deque = worker_deque home.old; tally = tally.now.table.shared.table_id }) shares.items }
    ensures home { (worker_deque home.new ≡ worker_deque home.old) × (worker_port home.new ≡ 0) }
    ensures opener { opener.new.table_id ≡ opener.old.table_id }
    ensures view { worker_view home.new ≡ joined_all (worker_view home.old) shares.items }
    ensures count { cell_view opener.new ≡ added_all (cell_view opener.old) shares.items }
{
    for share in shares {
        join(home, tally, opener, share);
    }
}

// The deque's own hand takes in this share.
fn join<D: Numbered>(home: &mut Home<D>, tally: &Tally, opener: &mut TallyPass, share: Share<D>)
    requires home { worker_port home.old ≡ 0 }
    requires opener { opener.old.table_id ≡ tally.now.table.shared.table_id }
    requires share { share.place ≡ record { deque = worker_deque home.old; tally = tally.now.table.shared.table_id } }
    ensures home { (worker_deque home.new ≡ worker_deque home.old) × (worker_port home.new ≡ 0) }
    ensures opener { opener.new.table_id ≡ opener.old.table_id }
    ensures view { worker_view home.new ≡ joined (worker_view home.old) (share_view share) }
    ensures count { cell_view opener.new ≡ added (cell_view opener.old) (share_count share) }
{
    let Share {
        reach: _,
        pass,
        tally: _,
        count,
    } = share;
    steps::join_deque(home, pass);
    steps::join_tally(tally, opener, count);
}
