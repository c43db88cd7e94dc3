ghost use Rattle.std.specs.Prelude.{◌≡◌, true, IfOk, OnErr};
ghost use Rattle.mama_rules_rounds.specs.World as world;
ghost use Rattle.mama_drive.specs.declared.turn.Turn.TheVariants as turns;
ghost use Rattle.mama_drive.specs.Scene.{world_in};
ghost use Rattle.mama_drive.specs.Turns.{GoesOn};

use crate::run::Run;
use mama_memory::OutOfMemory;

/// The turn of a pass that comes next: that of the bridge, of the timer service, or of the first publisher or the first
/// queue from a number on for which an event waits. Those for which nothing waits are passed over.
#[derive(Clone, Copy)]
pub(crate) enum Turn {
    Bridge,
    Timers,
    Publisher(u32),
    Queue(u32),
}

/// Whether no pass is under way and nothing waits.
pub(crate) fn is_drained(run: &Run, turn: Turn) -> bool
    ensures turn { result ≡ true → turn ≡ turns.Bridge }
    ensures quiet { result ≡ true → world.IsQuiet (world_in run.now) }
{
    match turn {
        Turn::Bridge => run.is_quiet(),
        _ => false,
    }
}

/// Makes a turn, and says which comes next. Where no memory is found the run is as before.
pub(crate) fn next_turn(run: &mut Run, turn: Turn) -> Result<Turn, OutOfMemory>
    ensures on { IfOk result (λ next. GoesOn turn run.old next run.new) }
    ensures err { OnErr result (run.new ≡ run.old) }
{
    match turn {
        Turn::Bridge => bridge(run),
        Turn::Timers => timers(run),
        Turn::Publisher(number) => publisher(run, number),
        Turn::Queue(number) => queue(run, number),
    }
}

/// The bridge's turn.
fn bridge(run: &mut Run) -> Result<Turn, OutOfMemory>
    ensures on { IfOk result (λ next. GoesOn turns.Bridge run.old next run.new) }
    ensures err { OnErr result (run.new ≡ run.old) }
{
    run.bridge_turn()?;
    Ok(Turn::Timers)
}

/// The timer service's turn.
fn timers(run: &mut Run) -> Result<Turn, OutOfMemory>
    ensures on { IfOk result (λ next. GoesOn turns.Timers run.old next run.new) }
    ensures err { OnErr result (run.new ≡ run.old) }
{
    run.timers_turn()?;
    Ok(Turn::Publisher(0))
}

/// The turn of the next publisher from this number on, if an event waits for one.
fn publisher(run: &mut Run, number: u32) -> Result<Turn, OutOfMemory>
    ensures on { IfOk result (λ next. GoesOn (turns.Publisher number) run.old next run.new) }
    ensures err { OnErr result (run.new ≡ run.old) }
{
    let found = run.next_publisher(number)?;
    match found {
        None => Ok(Turn::Queue(0)),
        Some(next) => {
            run.publisher_turn(next)?;
            Ok(Turn::Publisher(next + 1))
        }
    }
}

/// The turn of the next queue from this number on, if an event waits for one.
fn queue(run: &mut Run, number: u32) -> Result<Turn, OutOfMemory>
    ensures on { IfOk result (λ next. GoesOn (turns.Queue number) run.old next run.new) }
    ensures err { OnErr result (run.new ≡ run.old) }
{
    let found = run.next_queue(number)?;
    match found {
        None => Ok(Turn::Bridge),
        Some(next) => {
            run.queue_turn(next)?;
            Ok(Turn::Queue(next + 1))
        }
    }
}
