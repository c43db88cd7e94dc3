ghost use Rattle.std.specs.Prelude.{◌≡◌, ◌↔◌, true, drop, length};

use crate::exact::Exact;
use mama_event::{CallNote, GroupNote, ImageHead, WatchNote};
use mama_msg::Msg;

// Whether two lists have the same items, in the same order.
fn are_same<N: Exact>(a: &[N], b: &[N]) -> bool
    ensures { (result ≡ true) ↔ (a.now ≡ b.now) }
{
    if a.len() != b.len() {
        return false;
    }
    for (i, x) in a.iter().enumerate() {
        if !x.is_same(&b[i]) {
            return false;
        }
    }
    true
}

/// Whether two lists of calls are one: the same callbacks with the same orders, in the same order.
pub fn are_same_calls(a: &[CallNote], b: &[CallNote]) -> bool
    ensures { (result ≡ true) ↔ (a.now ≡ b.now) }
{
    are_same(a, b)
}

/// Whether two lists of what a group heard are one: the same callbacks and states, in the same order.
pub fn are_same_group_notes(a: &[GroupNote], b: &[GroupNote]) -> bool
    ensures { (result ≡ true) ↔ (a.now ≡ b.now) }
{
    are_same(a, b)
}

/// Whether two lists of what a watch noted are one: the same retries and timeouts, in the same order.
pub fn are_same_watch_notes(a: &[WatchNote], b: &[WatchNote]) -> bool
    ensures { (result ≡ true) ↔ (a.now ≡ b.now) }
{
    are_same(a, b)
}

/// Whether two heads of images are one.
pub fn is_same_head(a: &ImageHead, b: &ImageHead) -> bool
    ensures { (result ≡ true) ↔ (a.now ≡ b.now) }
{
    a.is_same(b)
}

/// Whether two messages are one: the same fields in the same order.
pub fn is_same_message(a: &Msg, b: &Msg) -> bool
    ensures { (result ≡ true) ↔ (a.now ≡ b.now) }
{
    a.is_same(b)
}
