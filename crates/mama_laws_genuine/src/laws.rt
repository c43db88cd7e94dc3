ghost use Rattle.mama_laws_genuine.specs.Laws.{LegalLinksAreCalm, LegalUpdatesAreGiven};
ghost use Rattle.mama_laws_genuine.specs.Faultless.{FaultlessLinksAreCalm};
ghost use Rattle.mama_laws_genuine.specs.Order.{WindowsAreInOrder};
ghost use Rattle.mama_laws_genuine.specs.Gaps.{ToldGapsAreTrue};
ghost use Rattle.mama_laws_genuine.specs.Records.{OkImagesAreRecords};
ghost use Rattle.mama_laws_genuine.specs.Sent.{DeliveredMessagesAreSent, GivenMessagesAreSent};

/// A law: in a record of a script whose edges are whole, each message that a queue took is one of a publisher of the
/// script: that publisher's update of its number, or that publisher's record at its number. Each reply has fields of a
/// publisher's record.
pub fn delivered_messages_are_sent()
    ensures { DeliveredMessagesAreSent }
{}

/// A law: in a record of a script whose edges are whole and whose callbacks are those that its queues make, each message
/// that a listener is given is one of a publisher of the script, and each reply has fields of a publisher's record.
pub fn given_messages_are_sent()
    ensures { GivenMessagesAreSent }
{}

/// A law: in a record of a script whose edges are whole and whose images are those that its queues leave, each image that
/// is ok is its sender's record at its number: the base of one of the script's publishers with its updates applied, up
/// to that number.
pub fn ok_images_are_records()
    ensures { OkImagesAreRecords }
{}

/// A law: in a record whose callbacks are those that its queues make, one of the messages that a subscription handled
/// tells what its listener is told of gaps, of quality and of recaps. Each number of a gap was not taken since the
/// subscription last turned to the sender, or was taken and dropped by a full cache before the first image. An image is
/// called stale only right after a gap, or where the sender changes.
pub fn told_gaps_are_true()
    ensures { ToldGapsAreTrue }
{}

/// A law: in a record of a script whose edges are whole, where one publisher alone feeds a subscription, what goes into
/// its link is in the publisher's order, without a hole: each update is numbered one above the last, and each image
/// carries the number of the last update before it.
pub fn windows_are_in_order()
    ensures { WindowsAreInOrder }
{}

/// A law: in a record of a script whose edges are whole, a subscription without fault rows that one publisher alone feeds,
/// and that came and went, is told no gap, no change of quality, no late update and no error, and asks for no recap.
pub fn faultless_links_are_calm()
    ensures { FaultlessLinksAreCalm }
{}

/// A law: in a legal record a subscription whose line has no fault rows, on a topic that exactly one publisher of the
/// script has, is told no gap, no change of quality, no late update and no error, and asks for no recap.
pub fn links_of_legal_records_are_calm()
    ensures { LegalLinksAreCalm }
{}

/// A law: in a legal record a market subscription whose line has no fault rows, on a topic that exactly one publisher of
/// the script has, is given each message that was sent to it while it was live, from its first image on, once and in
/// order, unless it was muted: and so each update that is numbered above that image.
pub fn updates_of_legal_records_are_given()
    ensures { LegalUpdatesAreGiven }
{}
