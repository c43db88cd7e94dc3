ghost use Rattle.mama_plain.specs.LawfulRun.{LegalRecordsKeepPromises};
ghost use Rattle.mama_plain.specs.Own.{LogsOfSerialAreLawful, LogsOfSerialAreLegal, ScriptsOfSeedsAreAccepted};
ghost use Rattle.mama_plain.specs.Kept.{RewrittenIsKept};

use mama_check::legal_records_are_true;
use mama_gen::seeds_make_scripts;
use mama_laws_causal::rounds_are_causal;
use mama_laws_legal::round_is_legal;
use mama_laws_logged::{logs_tell_one_record, records_stay_in_two};

/// A law: a legal record keeps all promises, whichever thread ran what when.
pub fn legal_records_keep_promises()
    ensures { LegalRecordsKeepPromises }
{
    legal_records_are_true();
}

/// A law: the record of a log of `serial` is legal and causal, and keeps all promises.
pub fn logs_of_serial_are_lawful()
    ensures { LogsOfSerialAreLawful }
{
    legal_records_keep_promises();
    round_is_legal();
    rounds_are_causal();
}

/// A law: where `serial` wrote a log of a text, each line of it fits for `check` behind that text and the line `log`, and the
/// only verdict on it is that it is legal, and causal.
pub fn logs_of_serial_are_legal()
    ensures { LogsOfSerialAreLegal }
{
    logs_of_serial_are_lawful();
}

/// A law: the text of each seed, which `gen` writes, is an accepted script.
pub fn scripts_of_seeds_are_accepted()
    ensures { ScriptsOfSeedsAreAccepted }
{
    seeds_make_scripts();
}

/// A law: what `rewrite` writes of an accepted script is one, and what it writes of a script and its log is such too. `check` says
/// of it just what it says of the text that was read.
pub fn rewritten_is_kept()
    ensures { RewrittenIsKept }
{
    logs_tell_one_record();
    records_stay_in_two();
}
