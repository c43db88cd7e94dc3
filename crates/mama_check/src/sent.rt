ghost use Rattle.std.specs.Prelude.{◌≡◌, ◌↔◌, ◌∷◌, ◌++◌, true, false, count_by, IfSome, IfNone};
ghost use Rattle.std.specs.List.{list_any, list_all};
ghost use Rattle.mama_journal.specs.Journal.{count_of};
ghost use Rattle.mama_event.specs.declared.to_publisher.PublisherNote.TheVariants.{Fin};
ghost use Rattle.mama_event.specs.declared.publisher_entry.PublisherEntry.TheVariants.{Done, Took};
ghost use Rattle.mama_event.specs.Publisher.{is_send};
ghost use Rattle.mama_rules_legal.specs.Lines.{is_take, is_done, takes_settle, IsSentOut};
ghost use Rattle.mama_check.specs.Sent.{takes_fin, IsSettled, IsEnd, IsSentBefore};

use mama_event::{PublisherEntry, PublisherNote};

fn is_done(entry: &PublisherEntry) -> bool
    ensures { result ≡ is_done entry.now }
{
    matches!(entry, PublisherEntry::Done)
}

fn is_send(entry: &PublisherEntry) -> bool
    ensures { result ≡ is_send entry.now }
{
    matches!(entry, PublisherEntry::Send)
}

fn is_take(entry: &PublisherEntry) -> bool
    ensures { result ≡ is_take entry.now }
{
    matches!(entry, PublisherEntry::Took(_))
}

fn takes_settle(entry: &PublisherEntry) -> bool
    ensures { result ≡ takes_settle entry.now }
{
    matches!(entry, PublisherEntry::Took(PublisherNote::Settle))
}

fn takes_fin(entry: &PublisherEntry) -> bool
    ensures { result ≡ takes_fin entry.now }
{
    matches!(entry, PublisherEntry::Took(PublisherNote::Fin))
}

fn are_takes(entries: &[PublisherEntry]) -> bool
    ensures { result ≡ list_all is_take entries.now }
{
    entries.iter().all(|entry| is_take(entry))
}

fn has_settle(entries: &[PublisherEntry]) -> bool
    ensures { result ≡ list_any takes_settle entries.now }
{
    entries.iter().any(|entry| takes_settle(entry))
}

fn sends_among(entries: &[PublisherEntry]) -> usize
    ensures { result ≡ count_by is_send entries.now }
{
    entries.iter().filter(|entry| is_send(*entry)).count()
}

// What stands before the first Done, and what after it.
fn at_done(journal: &[PublisherEntry]) -> Option<(&[PublisherEntry], &[PublisherEntry])>
    ensures some { IfSome result (λ found. (journal.now ≡ found.0.now ++ Done ∷ found.1.now) × (list_any is_done found.0.now ≡ false)) }
    ensures none { IfNone result (list_any is_done journal.now ≡ false) }
{
    for (i, entry) in journal.iter().enumerate() {
        if is_done(entry) {
            return Some((&journal[..i], &journal[i + 1..]));
        }
    }
    None
}

// Whether entries have so many sends.
fn has_sent(sends: usize, entries: &[PublisherEntry]) -> bool
    ensures { (result ≡ true) ↔ (count_of is_send entries.now ≡ sends) }
{
    sends_among(entries) == sends
}

// Whether so many sends stand before the Done, and no Settle.
fn is_sent_before(sends: usize, before: &[PublisherEntry]) -> bool
    ensures { (result ≡ true) ↔ IsSentBefore sends before.now }
{
    has_sent(sends, before) && !has_settle(before)
}

// Whether entries only take, and the last of them a Settle.
fn is_settled(entries: &[PublisherEntry]) -> bool
    ensures { (result ≡ true) ↔ IsSettled entries.now }
{
    match entries.split_last() {
        Some((last, between)) => takes_settle(last) && are_takes(between),
        None => false,
    }
}

// Whether entries only take, and the last two of them a Settle and a Fin.
fn is_end(entries: &[PublisherEntry]) -> bool
    ensures { (result ≡ true) ↔ IsEnd entries.now }
{
    match entries.split_last() {
        Some((last, rest)) => takes_fin(last) && is_settled(rest),
        None => false,
    }
}

/// Whether a publisher with so many lines that send did what it had to: a Send for each, then one Done before any
/// Settle, and then only takes, the last two of them a Settle and a Fin.
pub fn has_sent_all(sends: usize, journal: &[PublisherEntry]) -> bool
    ensures { (result ≡ true) ↔ IsSentOut sends journal.now }
{
    match at_done(journal) {
        Some((before, after)) => is_sent_before(sends, before) && is_end(after),
        None => false,
    }
}
