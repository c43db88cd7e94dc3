ghost use Rattle.std.specs.Prelude.{◌≡◌, [], ◌∷◌, ◌++◌, map, Some, IfOk, IfSome};
ghost use Rattle.mama_words.specs.Answer.{Gives};
ghost use Rattle.mama_event.specs.declared.publisher_entry.PublisherEntry.{PublisherEntry};
ghost use Rattle.mama_record.specs.LogText.{publisher_entry_line};
ghost use Rattle.mama_log_line.specs.Entering.{MayEnterPublisher};
ghost use Rattle.mama_log_line.specs.Journal as journals;

use crate::head::{Head, read_head};
use crate::names::Names;
use crate::word::{alone, read_fids, read_inbox, read_sub, read_wanted};
use mama_event::{PublisherEntry, PublisherNote};
use mama_memory::OutOfMemory;
use mama_words::{ReadError, parted_into};

#[tactic(auto, unfolding(crate::specs::Journal::want_in))]
fn read_want(names: &Names, words: &[&[u8]]) -> Result<PublisherEntry, ReadError>
    ensures { Gives (λ x. x) result (journals.want_in names.now (map (λ w. w.now) words.now)) }
{
    match words {
        [sub, kind] => {
            let sub = read_sub(names, sub)?;
            let kind = read_wanted(kind).ok_or(ReadError::Fault(4))?;
            Ok(PublisherEntry::Took(PublisherNote::Want { sub, kind }))
        }
        _ => Err(ReadError::Fault(4)),
    }
}

#[tactic(auto, unfolding(crate::specs::Journal::asked_of_in))]
fn read_ask(names: &Names, words: &[&[u8]]) -> Result<PublisherEntry, ReadError>
    ensures { Gives (λ x. x) result (journals.asked_of_in names.now (map (λ w. w.now) words.now)) }
{
    match words {
        [inbox, fids @ ..] => {
            let inbox = read_inbox(names, inbox)?;
            let fids = read_fids(fids)?;
            Ok(PublisherEntry::Took(PublisherNote::Ask { inbox, fids }))
        }
        _ => Err(ReadError::Fault(4)),
    }
}

// The entry that begins with this head.
fn read_entry(names: &Names, head: Head, words: &[&[u8]]) -> Result<PublisherEntry, ReadError>
    ensures { Gives (λ x. x) result (journals.publisher_body_in names.now head (map (λ w. w.now) words.now)) }
{
    match head {
        Head::Send => alone(PublisherEntry::Send, words),
        Head::Done => alone(PublisherEntry::Done, words),
        Head::Want => read_want(names, words),
        Head::Ask => read_ask(names, words),
        Head::Settle => alone(PublisherEntry::Took(PublisherNote::Settle), words),
        Head::Fin => alone(PublisherEntry::Took(PublisherNote::Fin), words),
        _ => Err(ReadError::Fault(3)),
    }
}

#[tactic(auto, unfolding(crate::specs::Journal::publisher_words_in))]
fn read_words(names: &Names, words: &[&[u8]]) -> Result<PublisherEntry, ReadError>
    ensures { Gives (λ x. x) result (journals.publisher_words_in names.now (map (λ w. w.now) words.now)) }
{
    match words {
        [head, rest @ ..] => {
            let head = read_head(head).ok_or(ReadError::Fault(3))?;
            read_entry(names, head, rest)
        }
        [] => Err(ReadError::Fault(4)),
    }
}

#[tactic(auto, unfolding(crate::specs::Journal::publisher_line_in))]
fn read_line<'a>(
    names: &Names,
    words: &mut Vec<&'a [u8]>,
    line: &'a [u8],
) -> Result<PublisherEntry, ReadError>
    ensures { Gives (λ x. x) result (journals.publisher_line_in names.now line.now) }
{
    parted_into(words, line)?;
    read_words(names, words)
}

// What was read, without the number of a fault. The checker does not carry `without_fault` over to this type.
fn entry_of<'a>(
    names: &Names,
    words: &mut Vec<&'a [u8]>,
    line: &'a [u8],
) -> Result<Option<PublisherEntry>, OutOfMemory>
    ensures { IfOk result (λ o. o ≡ journals.told (journals.publisher_line_in names.now line.now)) }
{
    match read_line(names, words, line) {
        Ok(entry) => Ok(Some(entry)),
        Err(ReadError::Fault(_)) => Ok(None),
        Err(ReadError::Memory) => Err(OutOfMemory),
    }
}

/// The entry of a publisher's journal that a line without its line feed spells. None where it spells none that such a
/// journal may have.
pub fn publisher_entry_in<'a>(
    names: &Names,
    words: &mut Vec<&'a [u8]>,
    line: &'a [u8],
) -> Result<Option<PublisherEntry>, OutOfMemory>
    ensures found { IfOk result (λ o. IfSome o (λ e. MayEnterPublisher names.now e × (line.now ++ 10 ∷ [] ≡ publisher_entry_line e))) }
    ensures again { IfOk result (λ o. (e : PublisherEntry) → MayEnterPublisher names.now e → line.now ++ 10 ∷ [] ≡ publisher_entry_line e → o ≡ Some e) }
{
    entry_of(names, words, line)
}
