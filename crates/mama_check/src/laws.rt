ghost use Rattle.mama_check.specs.Kept.{KeptIsLegal, LegalIsFormed};
ghost use Rattle.mama_check.specs.Verdict.{LegalIsTrue};

use mama_laws_callbacks::{
    legal_groups_are_true, legal_records_tell_all, legal_records_tell_plainly,
    legal_watches_are_true,
};
use mama_laws_genuine::{
    delivered_messages_are_sent, given_messages_are_sent, links_of_legal_records_are_calm,
    ok_images_are_records, told_gaps_are_true, updates_of_legal_records_are_given,
};
use mama_laws_legal::legal_records_have_streams;

/// A law: a record with a list of moments for each client, a journal for each publisher and queue, and callbacks for the
/// objects of the script is legal exactly where all rules are kept.
pub fn kept_rules_are_legal()
    ensures { KeptIsLegal }
{}

/// A law: a legal record has the form of the script's records, so that [`check`](crate::check) may judge it.
pub fn legal_records_are_formed()
    ensures { LegalIsFormed }
{}

/// A law: what a legal record promises is true of it.
pub fn legal_records_are_true()
    ensures { LegalIsTrue }
{
    legal_records_have_streams();
    legal_records_tell_all();
    delivered_messages_are_sent();
    given_messages_are_sent();
    ok_images_are_records();
    told_gaps_are_true();
    legal_records_tell_plainly();
    links_of_legal_records_are_calm();
    updates_of_legal_records_are_given();
    legal_groups_are_true();
    legal_watches_are_true();
}
