ghost use Rattle.mama_laws_callbacks.specs.Laws.{LegalGroupsAreTrue, LegalWatchesAreTrue};
ghost use Rattle.mama_laws_callbacks.specs.Laws.{LegalRecordsTellPlainly};
ghost use Rattle.mama_laws_callbacks.specs.Laws.{LegalRecordsTellAll};
ghost use Rattle.mama_laws_callbacks.specs.Word.{LastWordsAreTrue};

/// A law: in a legal record of a script each subscription of the script is told what its strategy makes of exactly the
/// messages that its link lets through of what was sent while it was joined, between its create and its destroy notice,
/// in order and each once; each timer its ticks, and each inbox exactly the replies that its link lets through; and of each
/// message or reply that a cut left broken the code of its fault. If the object was muted, it is told so up to the order
/// that muted it, and then its notice alone. At each place of its queue's journal at which it is not muted, it was told all
/// that was taken for it so far.
pub fn legal_records_tell_all()
    ensures { LegalRecordsTellAll }
{}

/// A law: in a legal record of a script a market subscription whose line has no fault rows, on a topic that exactly one
/// publisher has, is told just the messages that were sent to it from the first image on, each once and as ok, as far as
/// it was not muted.
pub fn legal_records_tell_plainly()
    ensures { LegalRecordsTellPlainly }
{}

/// A law: whatever messages a market or a snapshot subscription handled, the last word that its strategy has on quality is
/// the quality of the image that it then has.
pub fn last_words_are_true()
    ensures { LastWordsAreTrue }
{}

/// A law: in a legal record a watch noted a timeout only at a tick of its timer that was called back, behind which its
/// subscription was live, was not muted and had no image, after as many such ticks as it has retries. It noted at most one,
/// and no more retries than its row has, and as many where it noted a timeout.
pub fn legal_watches_are_true()
    ensures { LegalWatchesAreTrue }
{}

/// A law: in a legal record of a script a group heard the callbacks of its members and its states as its queue's journal has
/// them; at each place of that journal the state that a group was told last is its state
/// by its members, and where it is fresh each of its members that is not ended has an image that is ok, and it is its sender's
/// record at its number.
pub fn legal_groups_are_true()
    ensures { LegalGroupsAreTrue }
{}
