ghost use Rattle.mama_laws_gather.specs.Gathered.{GatheredIsLegal};
ghost use Rattle.mama_laws_gather.specs.Done.{GatheredDoLines};

use mama_laws_allowed::stopped_publishers_sent_out;

/// A law: a record is legal where its journals begin what was put, and are whole where the last event was taken; where
/// all that take have ended; where every line was done; and where the callbacks, the images and the lists are those of
/// the journals.
pub fn gathered_is_legal()
    ensures { GatheredIsLegal }
{}

/// A law: where the journals begin what was put, and are whole where the last event was taken, and all that take have
/// ended, clients and publishers that did what is theirs have done every line.
pub fn gathered_do_lines()
    ensures { GatheredDoLines }
{
    stopped_publishers_sent_out();
}
