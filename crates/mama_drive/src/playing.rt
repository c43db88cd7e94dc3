ghost use Rattle.std.specs.Prelude.{◌≡◌, IfOk};
ghost use Rattle.mama_rules_rounds.specs.Round.{IsRound};
ghost use Rattle.mama_seats.specs.Moments.{AreHeard};

use crate::serial_run::SerialRun;
use mama_edge::Clock;
use mama_memory::OutOfMemory;
use mama_record::RunRecord;
use mama_script::Script;
use std::alloc::Global;

/// Plays the script on one thread. A round gives each client, and then each publisher, its next step, and everything
/// is drained after each step. The clock is read once for each line that asks for it, in the order in which the rounds
/// come to those lines, and the record has what it answered. The error is want of memory.
pub fn serial<C: Clock>(
    alloc: Global,
    script: &Script,
    clock: &mut C,
) -> Result<RunRecord, OutOfMemory>
    ensures rounds { IfOk result (λ run. IsRound script.now run) }
    ensures clock { IfOk result (λ run. AreHeard (C.left clock.old) (C.left clock.new) script.now.clients run.clients) }
{
    let mut run = SerialRun::new(alloc, script)?;
    run.go(clock)?;
    match run.into_record() {
        Ok(record) => Ok(record),
        Err(_) => unreachable!(),
    }
}
