ghost use Rattle.std.specs.Prelude.{◌≡◌};
ghost use Rattle.mama_event.specs.declared.shape.Strategy.TheVariants as Strategy;
ghost use Rattle.mama_dq.specs.Table.{is_update, relation_of, decided};
ghost use Rattle.mama_dq.specs.Cells.{phase_of_one, phase_number, relation_number, kind_number};

use mama_event::{MarketMsg, MsgKind, Strategy};

/// Where a context stands.
#[derive(Clone, Copy, Debug, PartialEq, Eq, Hash)]
pub enum Phase {
    /// It waits for its first image.
    Await,
    /// It has an image, which is the sender's record.
    LiveOk,
    /// It has an image, which may lack updates.
    LiveStale,
    /// It has an image, which is the sender's record, and keeps updates that came before the image until the first gap.
    LiveKept,
}

/// What a message's sender and number are to the sender and the last number of an image.
#[derive(Clone, Copy, Debug, PartialEq, Eq, Hash)]
pub enum Relation {
    /// One above the last number.
    Next,
    /// The last number.
    Same,
    /// Below the last number.
    Old,
    /// More than one above the last number.
    Ahead,
    /// From another sender.
    Other,
}

/// What a message does to a context of a market subscription.
#[derive(Clone, Copy, Debug, PartialEq, Eq, Hash)]
pub enum Action {
    /// The update is added to the cache.
    Keep,
    /// The image is the first, and the cached updates above it are handled.
    Start,
    /// The update is applied to the image.
    Apply,
    /// The update is applied to the image and added to the cache.
    ApplyKeep,
    /// The update is added to the cache.
    KeepOnly,
    /// Nothing.
    Ignore,
    /// Updates are missing before this one, which is applied and added to the cache.
    Gap,
    /// The update is another sender's: it is applied, and the cache begins anew with it.
    Switch,
    /// The image is replaced.
    Replace,
    /// The image is replaced, if with the cached updates it lacks nothing.
    Heal,
    /// The image of another sender is taken.
    Adopt,
    /// The image is the first, and the cached updates above it are kept.
    StartKeep,
    /// Updates are missing before this one: it and the kept updates are handled, ascending.
    Catch,
    /// The update is late, which is told.
    Late,
    /// The update is late, which is told, and it is added to the cache.
    KeepLate,
}

/// The actions by cell: of a phase, a relation and a kind of message, where an update counts 1.
#[derive(Clone, Copy, Debug)]
pub struct Table<const N: usize> {
    cells: [Action; N],
}

/// How many cells the table of strategy one has: for 3 phases and 5 relations, one for image messages and one for updates.
pub const CELLS: usize = 30;

/// How many cells the table of strategy two has: for 4 phases and 5 relations, one for image messages and one for updates.
pub const CELLS_OF_TWO: usize = 40;

// The cells of a table: for each phase and relation the action for an image message and that for an update.
macro_rules! cells {
    ($($image:ident $update:ident),* $(,)?) => {
        [$(Action::$image, Action::$update),*]
    };
}

// In each phase: next, same, old, ahead, other.
const ACTIONS: Table<CELLS> = Table {
    cells: cells![
        // Await
        Start Keep, Start Keep, Start Keep, Start Keep, Start Keep,
        // LiveOk
        Replace Apply, Replace Ignore, Ignore Ignore, Replace Gap, Adopt Switch,
        // LiveStale
        Heal ApplyKeep, Heal KeepOnly, Heal KeepOnly, Heal Gap, Adopt Switch,
    ],
};

const ACTIONS_OF_TWO: Table<CELLS_OF_TWO> = Table {
    cells: cells![
        // Await
        StartKeep Keep, StartKeep Keep, StartKeep Keep, StartKeep Keep, StartKeep Keep,
        // LiveOk
        Replace Apply, Replace Late, Ignore Late, Replace Gap, Adopt Switch,
        // LiveStale
        Heal ApplyKeep, Heal KeepLate, Heal KeepLate, Heal Gap, Adopt Switch,
        // LiveKept
        Replace Apply, Replace Late, Ignore Late, Replace Catch, Adopt Switch,
    ],
};

const _: () = prove!(ACTIONS.cells.len() == CELLS);

const _: () = prove!(ACTIONS_OF_TWO.cells.len() == CELLS_OF_TWO);

fn phase_number(phase: Phase) -> usize
    ensures { result ≡ phase_number phase }
{
    phase as usize
}

fn relation_number(relation: Relation) -> usize
    ensures { result ≡ relation_number relation }
{
    relation as usize
}

fn kind_number(update: bool) -> usize
    ensures { result ≡ kind_number update }
{
    usize::from(update)
}

// The phase of strategy one in whose cells the actions of a phase stand.
fn phase_of_one(phase: Phase) -> Phase
    ensures { result ≡ phase_of_one phase }
{
    match phase {
        Phase::LiveKept => Phase::LiveOk,
        _ => phase,
    }
}

fn action_of_one(phase: Phase, relation: Relation, update: bool) -> Action
    ensures { result ≡ decided Strategy.One phase relation update }
{
    let phase = phase_of_one(phase);
    let cell = 10 * phase_number(phase) + 2 * relation_number(relation) + kind_number(update);
    ACTIONS.cells[cell]
}

fn action_of_two(phase: Phase, relation: Relation, update: bool) -> Action
    ensures { result ≡ decided Strategy.Two phase relation update }
{
    let cell = 10 * phase_number(phase) + 2 * relation_number(relation) + kind_number(update);
    ACTIONS_OF_TWO.cells[cell]
}

/// The action for a message in a phase: of this relation to the image, and an update or else an image message.
/// It is that of market subscriptions of this strategy. While there is no image the relation plays no part. Strategy one
/// never comes to `LiveKept`, and its actions there are those of `LiveOk`.
pub fn decide(strategy: Strategy, phase: Phase, relation: Relation, update: bool) -> Action
    ensures { result ≡ decided strategy phase relation update }
{
    match strategy {
        Strategy::One => action_of_one(phase, relation, update),
        Strategy::Two => action_of_two(phase, relation, update),
    }
}

// Whether a message of this kind is an update, and not an image message.
pub(crate) fn is_update(kind: MsgKind) -> bool
    ensures { result ≡ is_update kind }
{
    match kind {
        MsgKind::Update => true,
        MsgKind::Initial | MsgKind::Recap => false,
    }
}

// What a message is to a sender and its last number.
pub(crate) fn relation_to(sender: u32, last: u32, msg: &MarketMsg) -> Relation
    ensures { result ≡ relation_of sender last msg.now }
{
    if msg.sender != sender {
        return Relation::Other;
    }
    if msg.seq <= last {
        return if msg.seq == last {
            Relation::Same
        } else {
            Relation::Old
        };
    }
    if msg.seq - last == 1 {
        Relation::Next
    } else {
        Relation::Ahead
    }
}
