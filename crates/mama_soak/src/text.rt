ghost use Rattle.std.specs.Prelude.{◌≡◌, string_bytes, IfOk};
ghost use Rattle.mama_soak.specs.Soak.{soak_text};
ghost use Rattle.mama_soak.specs.Soak as told;

use crate::counts::{joins_in, notices, sends};
use mama_memory::OutOfMemory;
use mama_record::RunRecord;
use std::alloc::Global;

/// The lines of these counts.
fn lines(alloc: Global, sent: u64, joined: u64, heard: u64) -> Result<String, OutOfMemory>
    ensures { IfOk result (λ out. string_bytes out ≡ told.lines sent joined heard) }
{
    Ok(format!(in alloc; "sends {sent}\nsubscriptions {joined}\nnotices {heard}\nlegal\n")?)
}

/// The lines of a soak of this run, which is legal. A count of 2^64 answers want of memory.
pub(crate) fn lines_of(alloc: Global, run: &RunRecord) -> Result<String, OutOfMemory>
    ensures { IfOk result (λ out. string_bytes out ≡ soak_text run.now) }
{
    let sent = sends(run.publishers()).ok_or(OutOfMemory)?;
    let heard = notices(run.calls()).ok_or(OutOfMemory)?;
    lines(alloc, sent, joins_in(run.bridge()) as u64, heard)
}
