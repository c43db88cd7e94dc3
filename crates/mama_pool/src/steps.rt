// The steps of the passes of a deque and of its tally, as their views see them.
ghost use Rattle.std.specs.Prelude.{◌≡◌, ◌+◌, ◌<◌, ◌≤◌, ◌++◌, ◌∷◌, [], List, map, OnOk, OnErr, IfErr, IfSome, IfNone, MatchResult, if◌then◌else◌, true, false, nat_eq};
ghost use lib.Pointwise.{pointwise};
ghost use Rattle.crossbeam_deque.specs.Handles.{view, IsPassOf, worker_deque, stealer_deque, worker_port, worker_view};
ghost use Rattle.crossbeam_utils.specs.Register.{Turns, Forks, Merges};
ghost use Rattle.crossbeam_utils.specs.Seq.{cell_view};
ghost use Rattle.mama_pool.specs.Rule.{AreSettled, IsSettled, Tallied};
ghost use Rattle.mama_pool.specs.Steps.{blank, without_share, one_share, with_push, with_take, joined, without_part, one_part, with_counts, with_known, noted, with_learnt, added};

use crate::numbered::Numbered;
use crate::rule::{
    Add, DequePass, Home, JoinDeque, JoinTally, Learn, Look, Push, Reach, Read, Renew, ShareDeque,
    ShareTally, Take, Tally, TallyPass, Tell,
};
use crate::view::Count;
use atomic_table::{Join, Split};
use crossbeam_deque::Steal;
use crossbeam_utils::Backoff;
use crossbeam_utils::rule::Outcome as CellOutcome;
use std::sync::Wait;

/// Gives a share in the deque away.
pub fn share_deque<D: Numbered>(home: &mut Home<D>) -> DequePass<D>
    requires port { worker_port home.old ≡ 0 }
    requires share { 1 < (worker_view home.old).shares }
    ensures home { (worker_deque home.new ≡ worker_deque home.old) × (worker_port home.new ≡ 0) }
    ensures view { worker_view home.new ≡ without_share (worker_view home.old) }
    ensures pass { IsPassOf (worker_deque home.old) result × (view result ≡ one_share (worker_view home.old)) }
{
    home.another::<ShareDeque>()
}

/// Pushes an item, which comes back where the deque cannot grow.
pub fn push<D: Numbered>(home: &mut Home<D>, item: D) -> Result<(), D>
    requires { worker_port home.old ≡ 0 }
    ensures home { (worker_deque home.new ≡ worker_deque home.old) × (worker_port home.new ≡ 0) }
    ensures ok { OnOk result (worker_view home.new ≡ with_push (worker_view home.old) (D.numbered item ∷ [])) }
    ensures err { OnErr result (worker_view home.new ≡ worker_view home.old) }
    ensures back { IfErr result (λ back. back ≡ item) }
{
    home.push_as::<Push>(item)
}

/// Takes the first item, or finds none.
pub fn take<R: Wait, D: Numbered>(rt: &R, reach: &Reach<D>, pass: &mut DequePass<D>) -> Option<D>
    requires pass { IsPassOf (stealer_deque reach.now) pass.old }
    requires share { 0 < (view pass.old).shares }
    ensures pass { IsPassOf (stealer_deque reach.now) pass.new }
    ensures some { IfSome result (λ item. view pass.new ≡ with_take (view pass.old) (D.numbered item ∷ [])) }
    ensures none { IfNone result (view pass.new ≡ view pass.old) }
{
    for _ in rt.forever() {
        match reach.steal_as::<Take>(pass) {
            Steal::Success(item) => return Some(item),
            Steal::Empty => return None,
            Steal::Retry => {}
        }
    }
    unreachable!()
}

/// The deque's own hand takes in a share.
pub fn join_deque<D: Numbered>(home: &mut Home<D>, pass: DequePass<D>)
    requires home { worker_port home.old ≡ 0 }
    requires pass { IsPassOf (worker_deque home.old) pass }
    ensures home { (worker_deque home.new ≡ worker_deque home.old) × (worker_port home.new ≡ 0) }
    ensures view { worker_view home.new ≡ joined (worker_view home.old) (view pass) }
{
    home.absorb::<JoinDeque>(pass);
}

/// What is gone from the deque was taken by the pass that has all shares in it.
pub fn settle_deque<D: Numbered>(home: &mut Home<D>)
    requires home { worker_port home.old ≡ 0 }
    requires whole { (worker_view home.old).shares ≡ 65 }
    ensures { (left : List _) × AreSettled (worker_view home.old) (map D.numbered left) }
{
    let _left = home.len_as::<JoinDeque>();
}

// Reads the words of the tally, by a step that keeps the rule.
//
// This function and the next three take the step as a parameter, and say of it what the cell's own methods say. At a known
// step a call of such a method takes up to half a minute to check, and a call of these functions next to nothing.
fn read_words<M: CellOutcome<[u64; 2], Count>, R: Wait>(
    rt: &R,
    tally: &Tally,
    pass: &mut TallyPass,
) -> [u64; 2]
    requires pass { pass.old.table_id ≡ tally.now.table.shared.table_id }
    requires rule { Turns Tallied pass.old.id (cell_view pass.old) (λ x. x) M.then }
    ensures pass { pass.new.table_id ≡ pass.old.table_id }
    ensures told { M.then (cell_view pass.old) result result (cell_view pass.new) }
{
    tally.load_as::<M, R>(rt, pass)
}

// Changes the words of the tally where they are as they were seen, by a step that keeps the rule.
fn exchange_words<M: CellOutcome<[u64; 2], Count>, R: Wait>(
    rt: &R,
    tally: &Tally,
    pass: &mut TallyPass,
    seen: [u64; 2],
    new: [u64; 2],
) -> Result<[u64; 2], [u64; 2]>
    requires pass { pass.old.table_id ≡ tally.now.table.shared.table_id }
    requires rule { Turns Tallied pass.old.id (cell_view pass.old) (λ x. if pointwise nat_eq x seen then new else x) M.then }
    ensures pass { pass.new.table_id ≡ pass.old.table_id }
    ensures told { MatchResult result (λ x. (pointwise nat_eq x seen ≡ true) × M.then (cell_view pass.old) x new (cell_view pass.new)) (λ x. (pointwise nat_eq x seen ≡ false) × M.then (cell_view pass.old) x x (cell_view pass.new)) }
{
    tally.compare_exchange_as::<M, R>(rt, pass, seen, new)
}

// A pass of the tally gives a new one what it knows, or a part of it, by a step that keeps the rule.
fn split_passes<M: Split<Count>>(tally: &Tally, pass: &mut TallyPass) -> TallyPass
    requires pass { pass.old.table_id ≡ tally.now.table.shared.table_id }
    requires rule { Forks Tallied pass.old.id (cell_view pass.old) (M.left (cell_view pass.old)) (M.right (cell_view pass.old)) }
    ensures pass { pass.new.table_id ≡ pass.old.table_id }
    ensures left { cell_view pass.new ≡ M.left (cell_view pass.old) }
    ensures right { (result.table_id ≡ pass.old.table_id) × (result.me.1 ≡ []) × (cell_view result ≡ M.right (cell_view pass.old)) }
{
    tally.split_pass::<M>(pass)
}

// A pass of the tally takes in another, by a step that keeps the rule.
fn join_passes<M: Join<Count>>(tally: &Tally, pass: &mut TallyPass, other: TallyPass)
    requires pass { pass.old.table_id ≡ tally.now.table.shared.table_id }
    requires other { (other.table_id ≡ tally.now.table.shared.table_id) × (other.me.1 ≡ []) }
    requires rule { Merges Tallied pass.old.id (cell_view pass.old) other.id (cell_view other) (M.both (cell_view pass.old) (cell_view other)) M.spent }
    ensures pass { pass.new.table_id ≡ pass.old.table_id }
    ensures told { cell_view pass.new ≡ M.both (cell_view pass.old) (cell_view other) }
{
    tally.join_pass::<M>(pass, other);
}

/// Gives a share in the tally away.
pub fn share_tally(tally: &Tally, pass: &mut TallyPass) -> TallyPass
    requires pass { pass.old.table_id ≡ tally.now.table.shared.table_id }
    requires share { 1 < (cell_view pass.old).shares }
    ensures pass { pass.new.table_id ≡ pass.old.table_id }
    ensures view { cell_view pass.new ≡ without_part (cell_view pass.old) }
    ensures share { (result.table_id ≡ pass.old.table_id) × (cell_view result ≡ one_part (cell_view pass.old)) }
{
    split_passes::<ShareTally>(tally, pass)
}

// Counts so many pushes and takes more, unless another thread came between or the count is full.
fn try_count<R: Wait>(rt: &R, tally: &Tally, pass: &mut TallyPass, pushes: u64, takes: u64) -> bool
    requires pass { pass.old.table_id ≡ tally.now.table.shared.table_id }
    requires share { 0 < (cell_view pass.old).shares }
    requires one { (pushes ≤ 1) × (takes ≤ 1) }
    ensures pass { pass.new.table_id ≡ pass.old.table_id }
    ensures view { cell_view pass.new ≡ (if result then with_counts (cell_view pass.old) pushes takes else cell_view pass.old) }
{
    let seen = read_words::<Read, R>(rt, tally, pass);
    let [old_pushes, old_takes] = seen;
    if old_pushes == u64::MAX || old_takes == u64::MAX {
        return false;
    }
    let new = [old_pushes + pushes, old_takes + takes];
    exchange_words::<Add, R>(rt, tally, pass, seen, new).is_ok()
}

/// Counts so many pushes and takes more, of which there is at most one each. After 2^64 - 1 it waits for ever.
pub fn count<R: Wait>(rt: &R, tally: &Tally, pass: &mut TallyPass, pushes: u64, takes: u64)
    requires pass { pass.old.table_id ≡ tally.now.table.shared.table_id }
    requires share { 0 < (cell_view pass.old).shares }
    requires one { (pushes ≤ 1) × (takes ≤ 1) }
    ensures pass { pass.new.table_id ≡ pass.old.table_id }
    ensures view { cell_view pass.new ≡ with_counts (cell_view pass.old) pushes takes }
{
    let backoff = Backoff::new();
    for _ in rt.forever() {
        if try_count(rt, tally, pass, pushes, takes) {
            return;
        }
        backoff.spin();
    }
    unreachable!()
}

/// Looks whether as many takes as pushes are counted. If so, this pass knows that so many of the first pushes were taken, and
/// the answer is their number.
pub fn look<R: Wait>(rt: &R, tally: &Tally, pass: &mut TallyPass) -> Option<u64>
    requires { pass.old.table_id ≡ tally.now.table.shared.table_id }
    ensures pass { pass.new.table_id ≡ pass.old.table_id }
    ensures some { IfSome result (λ taken. cell_view pass.new ≡ with_known (cell_view pass.old) taken) }
    ensures learnt { IfSome result (λ taken. (cell_view pass.old).learnt ≤ taken) }
    ensures known { IfSome result (λ taken. (cell_view pass.old).known ≤ taken) }
    ensures none { IfNone result (cell_view pass.new ≡ cell_view pass.old) }
{
    let [pushes, takes] = read_words::<Look, R>(rt, tally, pass);
    if pushes <= takes { Some(takes) } else { None }
}

/// A note of how many pushes this pass counted.
pub fn tell(tally: &Tally, pass: &mut TallyPass) -> TallyPass
    requires { pass.old.table_id ≡ tally.now.table.shared.table_id }
    ensures pass { pass.new.table_id ≡ pass.old.table_id }
    ensures view { cell_view pass.new ≡ cell_view pass.old }
    ensures note { (result.table_id ≡ pass.old.table_id) × (result.me.1 ≡ []) × (cell_view result ≡ noted (cell_view pass.old)) }
{
    split_passes::<Tell>(tally, pass)
}

/// The pass keeps what the note names, if that is more than it had learnt of.
pub fn learn(tally: &Tally, pass: &mut TallyPass, note: TallyPass)
    requires pass { pass.old.table_id ≡ tally.now.table.shared.table_id }
    requires note { (note.table_id ≡ tally.now.table.shared.table_id) × (note.me.1 ≡ []) }
    requires plain { (cell_view note).shares ≡ 0 }
    ensures pass { pass.new.table_id ≡ pass.old.table_id }
    ensures view { cell_view pass.new ≡ with_learnt (cell_view pass.old) (cell_view note) }
{
    join_passes::<Learn>(tally, pass, note);
}

/// The pass takes in another's share and counts.
pub fn join_tally(tally: &Tally, pass: &mut TallyPass, mut other: TallyPass)
    requires pass { pass.old.table_id ≡ tally.now.table.shared.table_id }
    requires other { other.table_id ≡ tally.now.table.shared.table_id }
    ensures pass { pass.new.table_id ≡ pass.old.table_id }
    ensures view { cell_view pass.new ≡ added (cell_view pass.old) (cell_view other) }
{
    let whole = split_passes::<Renew>(tally, &mut other);
    join_passes::<JoinTally>(tally, pass, whole);
}

/// The counts are those of the pass that has all shares.
pub fn settle_tally<R: Wait>(rt: &R, tally: &Tally, pass: &mut TallyPass)
    requires pass { pass.old.table_id ≡ tally.now.table.shared.table_id }
    requires whole { (cell_view pass.old).shares ≡ 65 }
    ensures { (words : List _) × IsSettled (cell_view pass.old) words }
{
    let _counts = read_words::<JoinTally, R>(rt, tally, pass);
}
