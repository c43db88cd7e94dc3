//! What a record of a script promises of the market's data, whatever the links lose, repeat, hold back and cut.
//!
//! Laws of the definitions, with no code. Where every edge of the record is whole, as it is whichever thread ran what
//! when: each message that a queue took, and each that a listener was given, is a publisher's own
//! ([`delivered_messages_are_sent`], [`given_messages_are_sent`], `specs/Sent.antt`), and each image that is ok is its
//! sender's record at its number ([`ok_images_are_records`], `specs/Records.antt`). What a listener is told of gaps, of
//! quality and of recaps is true of the messages that its subscription handled ([`told_gaps_are_true`],
//! `specs/Told.antt` and `specs/Gaps.antt`). A legal record is such a record, and so is that of a run in rounds. Where one
//! publisher alone feeds a subscription, what goes into its link is in that publisher's order, without a hole
//! ([`windows_are_in_order`], `specs/Order.antt`); and where that link has no faults, its listener is told no gap and
//! no change of quality ([`faultless_links_are_calm`], `specs/Faultless.antt`).
//!
//! In a legal record one publisher alone feeds a subscription if exactly one publisher of the script has its topic. So
//! where its line has no fault rows it is told no gap, no change of quality and no error ([`links_of_legal_records_are_calm`],
//! `specs/CalmLinks.antt`), and a market subscription is given all updates ([`updates_of_legal_records_are_given`],
//! `specs/GivenAll.antt`). The reason is in the rules alone, and not in the order in which things happen: a recap is
//! wished only of a sender whose updates came, and no publisher is asked for an update.
#![tactic(auto)]

mod laws;

pub use laws::{
    delivered_messages_are_sent, faultless_links_are_calm, given_messages_are_sent,
    links_of_legal_records_are_calm, ok_images_are_records, told_gaps_are_true,
    updates_of_legal_records_are_given, windows_are_in_order,
};
