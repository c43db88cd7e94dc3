ghost use Rattle.mama_laws_logged.specs.Telling.{LegalRecordsAreLogged, LogsTellOneRecord};
ghost use Rattle.mama_laws_logged.specs.InTwo.{RecordsStayInTwo};

/// A law: each entry, each callback, each order, each image and each note of a group or a watch of a legal record of a script
/// is one that a log of the script may have, where the script's text has at most 67,108,864 bytes.
pub fn legal_records_are_logged()
    ensures { LegalRecordsAreLogged }
{}

/// A law: two records of a script that its logs can tell, each in a version, are one record in one version if they have one log.
pub fn logs_tell_one_record()
    ensures { LogsTellOneRecord }
{}

/// A law: a record that a log of a script can tell is one that a log of the same script in version 2 can tell, and it is legal
/// there just where it was.
pub fn records_stay_in_two()
    ensures { RecordsStayInTwo }
{}
