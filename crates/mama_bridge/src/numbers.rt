ghost use Rattle.std.specs.Prelude.{◌≡◌, ◌+◌, ◌<◌, ◌≤◌, ℕ, true, false, length, slice_index_or, IsSome, None, Some, if◌then◌else◌};
ghost use Rattle.std.specs.BTreeMap.{get, is_at};
ghost use Rattle.mama_event.specs.declared.ids.SubId.{SubId as Sub};
ghost use Rattle.mama_bridge.specs.Ids.{sub_cmp};
ghost use Rattle.mama_bridge.specs.Linked.{is_link_of, subs_in, IsAbsent, IsGap, AreIndexed};
ghost use Rattle.mama_bridge.specs.Placed.{IsAt, entry_passes, present};

use crate::subs::SubLink;
use mama_event::SubId;
use std::collections::BTreeMap;

/// Whether an entry is the link of a subscription.
fn is_of(entry: &Option<SubLink>, sub: SubId) -> bool
    ensures { result ≡ entry_passes (is_link_of sub) entry.now }
{
    match entry {
        Some(link) => link.sub == sub,
        None => false,
    }
}

/// The index, if the entry there is the link of a subscription.
fn own_index(entries: &Vec<Option<SubLink>>, i: usize, sub: SubId) -> Option<usize>
    ensures { result ≡ (if entry_passes (is_link_of sub) (slice_index_or entries.now.items i None) then Some i else None) }
{
    if i < entries.len() && is_of(&entries[i], sub) {
        Some(i)
    } else {
        None
    }
}

/// The index of a subscription's link, if it is live.
pub(crate) fn index_of(
    indexes: &BTreeMap<SubId, usize>,
    entries: &Vec<Option<SubLink>>,
    sub: SubId,
) -> Option<usize>
    requires { AreIndexed indexes.now entries.now.items }
    ensures { IsAt (is_link_of sub) entries.now.items result }
{
    match indexes.get(&sub) {
        Some(i) => own_index(entries, *i, sub),
        None => None,
    }
}

/// Notes another index for a subscription that has one.
fn point(indexes: &mut BTreeMap<SubId, usize>, sub: SubId, at: usize)
    requires { IsSome (get sub_cmp indexes.old sub) }
    ensures { (q : Sub) → get sub_cmp indexes.new q ≡ (if is_at (sub_cmp sub) q then Some at else get sub_cmp indexes.old q) }
{
    if let Some(index) = indexes.get_mut(&sub) {
        *index = at;
    }
}

/// Moves the link of an entry down to the first of the empty entries before it, and tells which is the first now.
fn move_down(
    indexes: &mut BTreeMap<SubId, usize>,
    entries: &mut Vec<Option<SubLink>>,
    i: usize,
    next: usize,
) -> usize
    requires within { i < length entries.old.items }
    requires next { next ≤ i }
    requires gap { IsGap entries.old.items next i }
    requires indexed { AreIndexed indexes.old entries.old.items }
    ensures next { result ≤ i + 1 }
    ensures gap { IsGap entries.new.items result (i + 1) }
    ensures indexed { AreIndexed indexes.new entries.new.items }
    ensures len { length entries.new.items ≡ length entries.old.items }
    ensures links { present entries.new.items ≡ present entries.old.items }
{
    match entries[i].take() {
        Some(link) => {
            point(indexes, link.sub, next);
            entries[next] = Some(link);
            next + 1
        }
        None => next,
    }
}

/// Moves all links together, in order. It takes no memory.
fn compact(indexes: &mut BTreeMap<SubId, usize>, entries: &mut Vec<Option<SubLink>>)
    requires { AreIndexed indexes.old entries.old.items }
    ensures indexed { AreIndexed indexes.new entries.new.items }
    ensures links { present entries.new.items ≡ present entries.old.items }
{
    let mut next: usize = 0;
    for i in 0..entries.len() {
        next = move_down(indexes, entries, i, next);
    }
    entries.truncate(next);
}

/// Notes no index for a subscription that left, and moves the links together where they are few.
pub(crate) fn forget(
    indexes: &mut BTreeMap<SubId, usize>,
    entries: &mut Vec<Option<SubLink>>,
    sub: SubId,
)
    requires absent { IsAbsent sub entries.old.items }
    requires indexed { AreIndexed indexes.old entries.old.items }
    ensures indexed { AreIndexed indexes.new entries.new.items }
    ensures links { present entries.new.items ≡ present entries.old.items }
{
    indexes.remove(&sub);
    if indexes.len() < entries.len() / 2 {
        compact(indexes, entries);
    }
}
