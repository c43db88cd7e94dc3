ghost use Rattle.std.specs.Prelude.{◌≡◌, [], ◌∷◌, ◌++◌, map, Some, IfOk, IfSome};
ghost use Rattle.mama_words.specs.Answer.{Gives};
ghost use Rattle.mama_event.specs.declared.group.GroupNote.{GroupNote};
ghost use Rattle.mama_event.specs.declared.watch.WatchNote.{WatchNote};
ghost use Rattle.mama_record.specs.LogText as text;
ghost use Rattle.mama_log_line.specs.Entering.{MayHearGroup, MayNote};
ghost use Rattle.mama_log_line.specs.Lists as lists;

use crate::calls::call_words;
use crate::head::{Head, read_head};
use crate::names::Names;
use crate::word::{read_moment, read_small, read_sub, without_fault};
use mama_event::{GroupNote, ObjectId, WatchNote};
use mama_memory::OutOfMemory;
use mama_words::{ReadError, parted_into, read_group_state};
use std::alloc::Global;

#[tactic(auto, unfolding(crate::specs::Lists::state_in))]
fn read_state(words: &[&[u8]]) -> Result<GroupNote, ReadError>
    ensures { Gives (λ x. x) result (lists.state_in (map (λ w. w.now) words.now)) }
{
    match words {
        [word] => {
            let state = read_group_state(word).ok_or(ReadError::Fault(4))?;
            Ok(GroupNote::State { state })
        }
        _ => Err(ReadError::Fault(4)),
    }
}

#[tactic(auto, unfolding(crate::specs::Lists::member_in))]
fn read_member(
    alloc: Global,
    names: &Names,
    sub: &[u8],
    words: &[&[u8]],
) -> Result<GroupNote, ReadError>
    ensures { Gives (λ x. x) result (lists.member_in names.now sub.now (map (λ w. w.now) words.now)) }
{
    let sub = read_sub(names, sub)?;
    let call = call_words(alloc, names.nums(), ObjectId::Sub(sub), words)?;
    Ok(GroupNote::Call { sub, call })
}

#[tactic(auto, unfolding(crate::specs::Lists::group_words_in))]
fn group_words(alloc: Global, names: &Names, words: &[&[u8]]) -> Result<GroupNote, ReadError>
    ensures { Gives (λ x. x) result (lists.group_words_in names.now (map (λ w. w.now) words.now)) }
{
    match words {
        [first, rest @ ..] => {
            if *first == b"state".as_slice() {
                read_state(rest)
            } else {
                read_member(alloc, names, first, rest)
            }
        }
        [] => Err(ReadError::Fault(4)),
    }
}

#[tactic(auto, unfolding(crate::specs::Lists::group_line_in))]
fn group_line<'a>(
    alloc: Global,
    names: &Names,
    words: &mut Vec<&'a [u8]>,
    line: &'a [u8],
) -> Result<GroupNote, ReadError>
    ensures { Gives (λ x. x) result (lists.group_line_in names.now line.now) }
{
    parted_into(words, line)?;
    group_words(alloc, names, words)
}

/// What a group heard, as a line without its line feed spells it. None where it spells nothing that a group may hear.
pub fn group_note_in<'a>(
    alloc: Global,
    names: &Names,
    words: &mut Vec<&'a [u8]>,
    line: &'a [u8],
) -> Result<Option<GroupNote>, OutOfMemory>
    ensures found { IfOk result (λ o. IfSome o (λ n. MayHearGroup names.now n × (line.now ++ 10 ∷ [] ≡ text.group_note_line n))) }
    ensures again { IfOk result (λ o. (n : GroupNote) → MayHearGroup names.now n → line.now ++ 10 ∷ [] ≡ text.group_note_line n → o ≡ Some n) }
{
    without_fault(group_line(alloc, names, words, line))
}

#[tactic(auto, unfolding(crate::specs::Lists::retry_in))]
fn read_retry(words: &[&[u8]]) -> Result<WatchNote, ReadError>
    ensures { Gives (λ x. x) result (lists.retry_in (map (λ w. w.now) words.now)) }
{
    match words {
        [count, moment] => {
            let count = read_small(count)?;
            let moment = read_moment(moment)?;
            Ok(WatchNote::Retry { count, moment })
        }
        _ => Err(ReadError::Fault(4)),
    }
}

#[tactic(auto, unfolding(crate::specs::Lists::timeout_in))]
fn read_timeout(words: &[&[u8]]) -> Result<WatchNote, ReadError>
    ensures { Gives (λ x. x) result (lists.timeout_in (map (λ w. w.now) words.now)) }
{
    match words {
        [moment] => {
            let moment = read_moment(moment)?;
            Ok(WatchNote::Timeout { moment })
        }
        _ => Err(ReadError::Fault(4)),
    }
}

fn watch_by(head: Head, words: &[&[u8]]) -> Result<WatchNote, ReadError>
    ensures { Gives (λ x. x) result (lists.watch_by head (map (λ w. w.now) words.now)) }
{
    match head {
        Head::Retry => read_retry(words),
        Head::Timeout => read_timeout(words),
        _ => Err(ReadError::Fault(3)),
    }
}

#[tactic(auto, unfolding(crate::specs::Lists::watch_words_in))]
fn watch_words(words: &[&[u8]]) -> Result<WatchNote, ReadError>
    ensures { Gives (λ x. x) result (lists.watch_words_in (map (λ w. w.now) words.now)) }
{
    match words {
        [head, rest @ ..] => {
            let head = read_head(head).ok_or(ReadError::Fault(3))?;
            watch_by(head, rest)
        }
        [] => Err(ReadError::Fault(4)),
    }
}

#[tactic(auto, unfolding(crate::specs::Lists::watch_line_in))]
fn watch_line<'a>(words: &mut Vec<&'a [u8]>, line: &'a [u8]) -> Result<WatchNote, ReadError>
    ensures { Gives (λ x. x) result (lists.watch_line_in line.now) }
{
    parted_into(words, line)?;
    watch_words(words)
}

/// What a watch noted, as a line without its line feed spells it. None where it spells no such note.
pub fn watch_note_in<'a>(
    words: &mut Vec<&'a [u8]>,
    line: &'a [u8],
) -> Result<Option<WatchNote>, OutOfMemory>
    ensures found { IfOk result (λ o. IfSome o (λ n. MayNote n × (line.now ++ 10 ∷ [] ≡ text.watch_note_line n))) }
    ensures again { IfOk result (λ o. (n : WatchNote) → MayNote n → line.now ++ 10 ∷ [] ≡ text.watch_note_line n → o ≡ Some n) }
{
    without_fault(watch_line(words, line))
}
