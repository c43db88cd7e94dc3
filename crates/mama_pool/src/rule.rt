// The rules of a pool's deques and of the tallies beside them, and what each kind of step does to the view of its pass.
ghost use Rattle.std.specs.Prelude.{◌≡◌, map, [], ◌∷◌};
ghost use Rattle.mama_pool.specs.Rule.{IsKept, Tallied, AreSettled, IsSettled, IsLook};
ghost use Rattle.mama_pool.specs.Steps.{opener, spent, without_share, one_share, with_push, with_take, joined, counter, blank, without_part, one_part, counted, noted, with_learnt, added};

use crate::numbered::Numbered;
use crate::view::{Count, View};
use atomic_table::{Join, Split};
use crossbeam_deque::protocol::{Lesson, Outcome, Protocol};
use crossbeam_deque::{Pass, Stealer, Worker};
use crossbeam_utils::atomic::seq_cell::{Pass as CellPass, RuledSeqCell};
use crossbeam_utils::rule::{Outcome as CellOutcome, Protocol as CellProtocol};
use std::alloc::Global;

/// The end of a deque at which its own hand pushes.
pub type Home<D> = Worker<D, Global, View, Dealing>;

/// The end of a deque at which hands take.
pub type Reach<D> = Stealer<D, Global, View, Dealing>;

/// The value by which a hand makes its steps on a deque. It has no bytes.
pub type DequePass<D> = Pass<D, View>;

/// The counts of a deque's pushes and takes.
pub type Tally = RuledSeqCell<[u64; 2], Count, Tallying, 2>;

/// The value by which a hand or a note makes its steps on a tally. It has no bytes.
pub type TallyPass = CellPass<[u64; 2], Count>;

/// The rule of a deque.
pub struct Dealing;

impl<D: Numbered> Protocol<D, View> for Dealing {
    ghost holds = { IsKept D.numbered };

    ghost first = { opener };

    ghost guest = { spent };
}

/// The step split of a deque: a hand gets its share in it.
pub struct ShareDeque;

impl Split<View> for ShareDeque {
    ghost left = { without_share };

    ghost right = { one_share };
}

/// The step push: the item goes last in the deque, and what the deque's own hand pushed grows.
pub struct Push;

impl<D: Numbered> Outcome<D, View> for Push {
    ghost then = { λ v xs w. w ≡ with_push v (map D.numbered xs) };
}

/// The step take, of `pop` and `steal`: the first item leaves the deque, and what the hand took from it grows.
pub struct Take;

impl<D: Numbered> Outcome<D, View> for Take {
    ghost then = { λ v xs w. w ≡ with_take v (map D.numbered xs) };
}

/// The step join of a deque: its own hand takes in a share. A look with all shares shows what was taken.
pub struct JoinDeque;

impl Join<View> for JoinDeque {
    ghost both = { joined };

    ghost spent = { spent };
}

impl<D: Numbered> Lesson<D, View> for JoinDeque {
    ghost fact = { λ v items. AreSettled v (map D.numbered items) };
}

/// The rule of a tally. Its words are the pushes and the takes that were counted.
pub struct Tallying;

impl CellProtocol<[u64; 2], Count> for Tallying {
    ghost holds = { Tallied };

    ghost first = { counter };
}

/// The step split of a tally: a hand gets its share in it.
pub struct ShareTally;

impl Split<Count> for ShareTally {
    ghost left = { without_part };

    ghost right = { one_part };
}

/// The words are read, and nothing changes.
pub struct Read;

impl CellOutcome<[u64; 2], Count> for Read {
    ghost then = { λ v x y w. w ≡ v };
}

/// The step count: pushes or takes are counted.
pub struct Add;

impl CellOutcome<[u64; 2], Count> for Add {
    ghost then = { λ v x y w. w ≡ counted v x y };
}

/// The step empty look. Where as many takes as pushes are counted, all that the pass learnt of was taken.
pub struct Look;

impl CellOutcome<[u64; 2], Count> for Look {
    ghost then = { λ v x y w. IsLook v x w };
}

/// The step tell: a note names how many pushes the pass counted.
pub struct Tell;

impl Split<Count> for Tell {
    ghost left = { λ v. v };

    ghost right = { noted };
}

/// The step learn: the pass keeps what the note names, if that is more.
pub struct Learn;

impl Join<Count> for Learn {
    ghost both = { with_learnt };

    ghost spent = { blank };
}

/// All that a pass knows goes to a new one. A pass that read words can be joined only so.
pub struct Renew;

impl Split<Count> for Renew {
    ghost left = { λ v. blank };

    ghost right = { λ v. v };
}

/// The step join of a tally: a share is taken in. A look with all shares shows the counts.
pub struct JoinTally;

impl Join<Count> for JoinTally {
    ghost both = { added };

    ghost spent = { blank };
}

impl CellOutcome<[u64; 2], Count> for JoinTally {
    ghost then = { λ v x y w. (w ≡ v) × IsSettled v x };
}
