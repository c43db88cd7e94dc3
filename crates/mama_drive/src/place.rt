ghost use Rattle.std.specs.Prelude.{◌≡◌, Option, List, ℕ, IfOk, OnErr};
ghost use Rattle.mama_drive.specs.declared.place.Place.TheVariants as places;
ghost use Rattle.mama_drive.specs.Place.{GoesTo, GoesHearing};

use crate::run::Run;
use crate::turn::{Turn, is_drained, next_turn};
use mama_edge::Clock;
use mama_memory::OutOfMemory;

/// Where a run stands: between two rounds; before the step of a client, or of a publisher, of this number; or behind
/// such a step, of the actor before this number, with the turn that comes next.
#[derive(Clone, Copy)]
pub(crate) enum Place {
    Rounds,
    Client(u32),
    AfterClient(u32, Turn),
    Publisher(u32),
    AfterPublisher(u32, Turn),
}

/// Makes one step or one turn, and says where the run then stands. Where no memory is found the run is as before, and
/// the clock was not read.
pub(crate) fn next_place<C: Clock>(
    run: &mut Run,
    place: Place,
    clock: &mut C,
) -> Result<Place, OutOfMemory>
    ensures on { IfOk result (λ next. GoesHearing (C.left clock.old) (C.left clock.new) place run.old next run.new) }
    ensures err { OnErr result (run.new ≡ run.old) }
    ensures clock_err { OnErr result (C.left clock.new ≡ C.left clock.old) }
{
    match place {
        Place::Rounds => Ok(begin_round(run)),
        Place::Client(number) => client(run, number, clock),
        Place::AfterClient(next, turn) => after_client(run, next, turn),
        Place::Publisher(number) => publisher(run, number),
        Place::AfterPublisher(next, turn) => after_publisher(run, next, turn),
    }
}

/// Begins the next round, or makes at once all those in which every client and every publisher pauses.
fn begin_round(run: &mut Run) -> Place
    ensures { (o : Option (List ℕ)) → GoesTo o o places.Rounds run.old result run.new }
{
    if run.rests() {
        return Place::Rounds;
    }
    Place::Client(0)
}

/// A client's step, if there is one of this number.
fn client<C: Clock>(run: &mut Run, number: u32, clock: &mut C) -> Result<Place, OutOfMemory>
    ensures on { IfOk result (λ next. GoesHearing (C.left clock.old) (C.left clock.new) (places.Client number) run.old next run.new) }
    ensures err { OnErr result (run.new ≡ run.old) }
    ensures clock_err { OnErr result (C.left clock.new ≡ C.left clock.old) }
{
    if number < run.client_count() {
        run.client_turn(number, clock)?;
        return Ok(Place::AfterClient(number + 1, Turn::Bridge));
    }
    Ok(Place::Publisher(0))
}

/// One turn behind a client's step.
fn after_client(run: &mut Run, next: u32, turn: Turn) -> Result<Place, OutOfMemory>
    ensures on { IfOk result (λ place. (o : Option (List ℕ)) → GoesTo o o (places.AfterClient next turn) run.old place run.new) }
    ensures err { OnErr result (run.new ≡ run.old) }
{
    if is_drained(run, turn) {
        return Ok(Place::Client(next));
    }
    Ok(Place::AfterClient(next, next_turn(run, turn)?))
}

/// The step of the next publisher from this number on, if there is one. Those that have made all their steps are passed over.
fn publisher(run: &mut Run, number: u32) -> Result<Place, OutOfMemory>
    ensures on { IfOk result (λ next. (o : Option (List ℕ)) → GoesTo o o (places.Publisher number) run.old next run.new) }
    ensures err { OnErr result (run.new ≡ run.old) }
{
    let next = run.next_sender(number);
    if next < run.publisher_count() {
        run.sender_turn(next)?;
        return Ok(Place::AfterPublisher(next + 1, Turn::Bridge));
    }
    Ok(Place::Rounds)
}

/// One turn behind a publisher's step.
fn after_publisher(run: &mut Run, next: u32, turn: Turn) -> Result<Place, OutOfMemory>
    ensures on { IfOk result (λ place. (o : Option (List ℕ)) → GoesTo o o (places.AfterPublisher next turn) run.old place run.new) }
    ensures err { OnErr result (run.new ≡ run.old) }
{
    if is_drained(run, turn) {
        return Ok(Place::Publisher(next));
    }
    Ok(Place::AfterPublisher(next, next_turn(run, turn)?))
}
