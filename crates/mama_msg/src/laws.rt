//! Laws of messages, over all lists of fields. The functions do nothing: each promises the law that it is named for.
ghost use Rattle.mama_msg.specs.Laws.{ApplyingItselfChangesNothing, ApplyingNothingChangesNothing, ApplyingToNothingGivesTheUpdate, TwoUpdatesAreOne, ApplyingUpdatesInOrder, ApplyingKeepsKeysDistinct, ApplyingByKeys, UnnamedFieldsStay, NamedFieldsAreReplaced, ApplyingAddsNewKeys};

/// A message applied to itself changes nothing.
pub fn applying_itself_changes_nothing()
    ensures { ApplyingItselfChangesNothing }
{}

/// An empty update changes nothing.
pub fn applying_nothing_changes_nothing()
    ensures { ApplyingNothingChangesNothing }
{}

/// An update applied to the empty message is the message.
pub fn applying_to_nothing_gives_the_update()
    ensures { ApplyingToNothingGivesTheUpdate }
{}

/// Two updates applied in turn are one update: the second applied to the first.
pub fn two_updates_are_one()
    ensures { TwoUpdatesAreOne }
{}

/// To apply an update is to update with each of its fields in order.
pub fn applying_updates_in_order()
    ensures { ApplyingUpdatesInOrder }
{}

/// After an update is applied, keys are distinct as before.
pub fn applying_keeps_keys_distinct()
    ensures { ApplyingKeepsKeysDistinct }
{}

/// At a key that the update names stands the update's field afterwards, and at each other key what stood there.
pub fn applying_by_keys()
    ensures { ApplyingByKeys }
{}

/// A field whose key the update does not name keeps its place and its value.
pub fn unnamed_fields_stay()
    ensures { UnnamedFieldsStay }
{}

/// A field whose key the update names is replaced in its place.
pub fn named_fields_are_replaced()
    ensures { NamedFieldsAreReplaced }
{}

/// The message grows by the number of the update's fields with new keys.
pub fn applying_adds_new_keys()
    ensures { ApplyingAddsNewKeys }
{}
