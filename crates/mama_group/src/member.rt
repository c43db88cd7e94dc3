ghost use Rattle.std.specs.Prelude.{◌≡◌};
ghost use Rattle.mama_rules_queue.specs.Group.{has, member_after};
ghost use Rattle.mama_group.specs.Kept.{member_of};

use mama_event::{Callback, Quality};

/// A member of a group: it waits for its first message, has an image of a quality, or is ended.
#[derive(Clone, Copy, Debug, PartialEq, Eq)]
pub(crate) enum Member {
    Waiting,
    Fresh,
    Stale,
    Ended,
}

fn with_quality(quality: Quality) -> Member
    ensures { member_of result ≡ has quality }
{
    match quality {
        Quality::Ok => Member::Fresh,
        Quality::Stale => Member::Stale,
    }
}

impl Member {
    /// The member after one callback more.
    pub(crate) fn after(self, call: &Callback) -> Member
        ensures { member_of result ≡ member_after (member_of self) call.now }
    {
        match (self, call) {
            (Member::Ended, _) => Member::Ended,
            (_, Callback::Destroy) => Member::Ended,
            (_, Callback::Msg { msg: _, quality }) => with_quality(*quality),
            (Member::Waiting, _) => Member::Waiting,
            (_, Callback::Quality { quality, number: _ }) => with_quality(*quality),
            (member, _) => member,
        }
    }
}
