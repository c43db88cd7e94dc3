use crate::numbered::Numbered;
use crate::rule::TallyPass;
use std::marker::{Model, PhantomData};

/// A note that names how many items a hand had pushed when it was made. Another hand of the pool learns it, in whatever thread.
///
/// In a clause a note is a record of the number of the hand that told it, which pool's it is (the tally of that hand's deque),
/// and how many pushes it names.
#[derive(Drop)]
pub struct HandNote<D: Numbered> {
    pub(crate) from: u32,
    pub(crate) pass: TallyPass,
    pub(crate) of: PhantomData<D>,
}

impl<D: Numbered> Model for HandNote<D> {
    ghost use Rattle.std.specs.Prelude.{◌≡◌, []};
    ghost use Rattle.crossbeam_utils.specs.Seq.{cell_view};
    ghost use Rattle.mama_pool.specs.Hand.{IsNote};
    ghost use Rattle.mama_pool.specs.Values.{NoteValue};

    ghost Value = { NoteValue };

    ghost view = { λ n. record { from = n.from; tally = n.pass.table_id; count = (cell_view n.pass).learnt } };

    ghost invariant = { λ n. (n.pass.me.1 ≡ []) × IsNote (cell_view n.pass) };
}
