//! The parts of two records, compared.
ghost use Rattle.std.specs.Prelude.{◌≡◌};
ghost use Rattle.std.specs.Cmp.Lexicographic.{pointwise};
ghost use Rattle.std.specs.Str.{bytes_eq};
ghost use Rattle.mama_record.specs.RunView as view;
ghost use Rattle.mama_record.specs.Equality as equality;

use mama_event::{
    CallNote, GroupNote, ImageHead, ObjectId, PublisherEntry, QueueNote, SubId, TimersNote,
    WatchNote,
};
use mama_msg::Msg;

#[tactic(auto, using(crate::proofs::Comparing::moments_compared))]
pub fn same_clients(a: &[Vec<u64>], b: &[Vec<u64>]) -> bool
    ensures { result ≡ pointwise bytes_eq (view.moments_of a.now) (view.moments_of b.now) }
{
    a == b
}

#[tactic(auto, using(crate::proofs::Comparing::entries_compared))]
pub fn same_publishers(a: &[Vec<PublisherEntry>], b: &[Vec<PublisherEntry>]) -> bool
    ensures { result ≡ pointwise equality.same_publisher_journal (view.entries_of a.now) (view.entries_of b.now) }
{
    a == b
}

pub fn same_timers(a: &[(u32, TimersNote)], b: &[(u32, TimersNote)]) -> bool
    ensures { result ≡ equality.same_timers_journal a.now b.now }
{
    a == b
}

#[tactic(auto, using(crate::proofs::Comparing::events_compared))]
pub fn same_queues(a: &[Vec<(u32, QueueNote)>], b: &[Vec<(u32, QueueNote)>]) -> bool
    ensures { result ≡ pointwise equality.same_queue_journal (view.events_of a.now) (view.events_of b.now) }
{
    a == b
}

#[tactic(auto, using(crate::proofs::Comparing::calls_compared))]
pub fn same_calls(a: &[(ObjectId, Vec<CallNote>)], b: &[(ObjectId, Vec<CallNote>)]) -> bool
    ensures { result ≡ pointwise equality.same_calls (view.calls_of a.now) (view.calls_of b.now) }
{
    a == b
}

#[tactic(auto, using(crate::proofs::Comparing::images_compared))]
pub fn same_images(a: &[(SubId, ImageHead, Msg)], b: &[(SubId, ImageHead, Msg)]) -> bool
    ensures { result ≡ pointwise equality.same_image (view.images_of a.now) (view.images_of b.now) }
{
    a == b
}

#[tactic(auto, using(crate::proofs::Comparing::groups_compared))]
pub fn same_groups(a: &[(u32, Vec<GroupNote>)], b: &[(u32, Vec<GroupNote>)]) -> bool
    ensures { result ≡ pointwise equality.same_group (view.groups_of a.now) (view.groups_of b.now) }
{
    a == b
}

#[tactic(auto, using(crate::proofs::Comparing::watches_compared))]
pub fn same_watches(a: &[(u32, Vec<WatchNote>)], b: &[(u32, Vec<WatchNote>)]) -> bool
    ensures { result ≡ pointwise equality.same_watch (view.watches_of a.now) (view.watches_of b.now) }
{
    a == b
}
