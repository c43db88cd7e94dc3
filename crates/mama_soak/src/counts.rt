ghost use Rattle.std.specs.Prelude.{◌≡◌, count_by, sum_by, IfSome};
ghost use Rattle.mama_event.specs.Publisher as entries;
ghost use Rattle.mama_record.specs.RunView.{entries_of, calls_of};
ghost use Rattle.mama_soak.specs.Soak as soak;

use mama_event::{BridgeNote, CallNote, Callback, ObjectId, PublisherEntry};

fn is_send(entry: &PublisherEntry) -> bool
    ensures { result ≡ entries.is_send entry.now }
{
    matches!(entry, PublisherEntry::Send)
}

fn is_join(entry: &(u32, BridgeNote)) -> bool
    ensures { result ≡ soak.is_join entry.now }
{
    matches!(entry.1, BridgeNote::Join { .. })
}

fn is_notice(note: &CallNote) -> bool
    ensures { result ≡ soak.is_notice note.now }
{
    matches!(note.call, Callback::Destroy)
}

fn sends_in(journal: &[PublisherEntry]) -> usize
    ensures { result ≡ count_by entries.is_send journal.now }
{
    let mut count = 0;
    for entry in journal {
        if is_send(entry) {
            count += 1;
        }
    }
    count
}

/// How many subscriptions joined at the bridge, of which this is the journal.
pub(crate) fn joins_in(journal: &[(u32, BridgeNote)]) -> usize
    ensures { result ≡ count_by soak.is_join journal.now }
{
    let mut count = 0;
    for entry in journal {
        if is_join(entry) {
            count += 1;
        }
    }
    count
}

fn ends_in(calls: &[CallNote]) -> usize
    ensures { result ≡ count_by soak.is_notice calls.now }
{
    let mut count = 0;
    for note in calls {
        if is_notice(note) {
            count += 1;
        }
    }
    count
}

fn notices_in(object: ObjectId, calls: &[CallNote]) -> usize
    ensures { result ≡ soak.notices_in (record { object = object; calls = calls.now }) }
{
    match object {
        ObjectId::Sub(_) => ends_in(calls),
        ObjectId::Timer(_) | ObjectId::Inbox(_) => 0,
    }
}

/// How many lines the publishers sent, of which these are the journals. None: 2^64 or more.
pub(crate) fn sends(journals: &[Vec<PublisherEntry>]) -> Option<u64>
    ensures { IfSome result (λ count. count ≡ sum_by (count_by entries.is_send) (entries_of journals.now)) }
{
    let mut count = 0u64;
    for journal in journals {
        count = count.checked_add(sends_in(journal.as_slice()) as u64)?;
    }
    Some(count)
}

/// How many subscriptions heard their end, where these are the callbacks of all objects. None: 2^64 or more.
pub(crate) fn notices(objects: &[(ObjectId, Vec<CallNote>)]) -> Option<u64>
    ensures { IfSome result (λ count. count ≡ sum_by soak.notices_in (calls_of objects.now)) }
{
    let mut count = 0u64;
    for (object, calls) in objects {
        count = count.checked_add(notices_in(*object, calls.as_slice()) as u64)?;
    }
    Some(count)
}
