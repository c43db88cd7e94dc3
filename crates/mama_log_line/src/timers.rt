ghost use Rattle.std.specs.Prelude.{◌≡◌, ℕ, [], ◌∷◌, ◌++◌, map, Some, IfOk, IfSome};
ghost use Rattle.mama_words.specs.Answer.{Gives};
ghost use Rattle.mama_event.specs.declared.to_timers.TimersNote.{TimersNote};
ghost use Rattle.mama_record.specs.LogText.{timers_entry_line};
ghost use Rattle.mama_log_line.specs.Entering.{MayEnterTimers};
ghost use Rattle.mama_log_line.specs.Journal as journals;

use crate::head::{Head, read_head};
use crate::names::Names;
use crate::word::{alone, port_of, read_moment, read_port, read_timer, without_fault};
use mama_event::{ObjectId, TimersNote};
use mama_memory::OutOfMemory;
use mama_words::{ReadError, parted_into};

#[tactic(auto, unfolding(crate::specs::Journal::arm_in))]
fn read_arm(names: &Names, words: &[&[u8]]) -> Result<TimersNote, ReadError>
    ensures { Gives (λ x. x) result (journals.arm_in names.now (map (λ w. w.now) words.now)) }
{
    match words {
        [word] => {
            let timer = read_timer(names, word)?;
            let terms = names.timer_terms(timer).ok_or(ReadError::Fault(10))?;
            Ok(TimersNote::Arm {
                timer,
                queue: terms.queue,
                interval: terms.interval,
                tag: ObjectId::Timer(timer),
            })
        }
        _ => Err(ReadError::Fault(4)),
    }
}

#[tactic(auto, unfolding(crate::specs::Journal::disarm_in))]
fn read_disarm(names: &Names, words: &[&[u8]]) -> Result<TimersNote, ReadError>
    ensures { Gives (λ x. x) result (journals.disarm_in names.now (map (λ w. w.now) words.now)) }
{
    match words {
        [word] => {
            let timer = read_timer(names, word)?;
            Ok(TimersNote::Disarm { timer })
        }
        _ => Err(ReadError::Fault(4)),
    }
}

#[tactic(auto, unfolding(crate::specs::Journal::now_in))]
fn read_now(words: &[&[u8]]) -> Result<TimersNote, ReadError>
    ensures { Gives (λ x. x) result (journals.now_in (map (λ w. w.now) words.now)) }
{
    match words {
        [word] => {
            let moment = read_moment(word)?;
            Ok(TimersNote::Now { moment })
        }
        _ => Err(ReadError::Fault(4)),
    }
}

// What a client puts.
fn client_note(names: &Names, head: Head, words: &[&[u8]]) -> Result<TimersNote, ReadError>
    ensures { Gives (λ x. x) result (journals.timers_client_in names.now head (map (λ w. w.now) words.now)) }
{
    match head {
        Head::Arm => read_arm(names, words),
        Head::Disarm => read_disarm(names, words),
        Head::Now => read_now(words),
        Head::Done => alone(TimersNote::ClientDone, words),
        _ => Err(ReadError::Fault(3)),
    }
}

// What a queue puts.
fn queue_note(names: &Names, head: Head, words: &[&[u8]]) -> Result<TimersNote, ReadError>
    ensures { Gives (λ x. x) result (journals.timers_queue_in names.now head (map (λ w. w.now) words.now)) }
{
    match head {
        Head::Disarm => read_disarm(names, words),
        Head::Bye => alone(TimersNote::Bye, words),
        _ => Err(ReadError::Fault(3)),
    }
}

// What the bridge puts.
fn bridge_note(head: Head, words: &[&[u8]]) -> Result<TimersNote, ReadError>
    ensures { Gives (λ x. x) result (journals.timers_bridge_in head (map (λ w. w.now) words.now)) }
{
    match head {
        Head::Fin => alone(TimersNote::Fin, words),
        _ => Err(ReadError::Fault(3)),
    }
}

fn client_port(names: &Names, digits: &[u8]) -> Option<u32>
    ensures { result ≡ journals.timers_client_port names.now digits.now }
{
    read_port(0, u64::from(names.shape().clients), digits)
}

fn queue_port(names: &Names, digits: &[u8]) -> Option<u32>
    ensures { result ≡ journals.timers_queue_port names.now digits.now }
{
    let shape = names.shape();
    read_port(
        u64::from(shape.clients),
        u64::from(shape.bounds.queues),
        digits,
    )
}

// The bridge's port has no number.
fn bridge_port(names: &Names, digits: &[u8]) -> Option<u32>
    ensures { result ≡ journals.timers_bridge_port names.now digits.now }
{
    match digits {
        [] => {
            let shape = names.shape();
            port_of(u64::from(shape.clients) + u64::from(shape.bounds.queues), 0)
        }
        _ => None,
    }
}

fn from_client(
    names: &Names,
    digits: &[u8],
    head: Head,
    words: &[&[u8]],
) -> Result<(u32, TimersNote), ReadError>
    ensures { Gives (λ x. x) result (journals.came_by (journals.timers_client_port names.now digits.now) (journals.timers_client_in names.now head (map (λ w. w.now) words.now))) }
{
    let port = client_port(names, digits).ok_or(ReadError::Fault(9))?;
    let note = client_note(names, head, words)?;
    Ok((port, note))
}

fn from_queue(
    names: &Names,
    digits: &[u8],
    head: Head,
    words: &[&[u8]],
) -> Result<(u32, TimersNote), ReadError>
    ensures { Gives (λ x. x) result (journals.came_by (journals.timers_queue_port names.now digits.now) (journals.timers_queue_in names.now head (map (λ w. w.now) words.now))) }
{
    let port = queue_port(names, digits).ok_or(ReadError::Fault(9))?;
    let note = queue_note(names, head, words)?;
    Ok((port, note))
}

fn from_bridge(
    names: &Names,
    digits: &[u8],
    head: Head,
    words: &[&[u8]],
) -> Result<(u32, TimersNote), ReadError>
    ensures { Gives (λ x. x) result (journals.came_by (journals.timers_bridge_port names.now digits.now) (journals.timers_bridge_in head (map (λ w. w.now) words.now))) }
{
    let port = bridge_port(names, digits).ok_or(ReadError::Fault(9))?;
    let note = bridge_note(head, words)?;
    Ok((port, note))
}

// By the letter of the port: a client's, a queue's or the bridge's.
#[tactic(auto, unfolding(crate::specs::Journal::timers_by))]
fn read_by(
    names: &Names,
    port: &[u8],
    head: Head,
    words: &[&[u8]],
) -> Result<(u32, TimersNote), ReadError>
    ensures { Gives (λ x. x) result (journals.timers_by names.now port.now head (map (λ w. w.now) words.now)) }
{
    match port {
        [] => Err(ReadError::Fault(5)),
        [letter, digits @ ..] => {
            if *letter == b'c' {
                from_client(names, digits, head, words)
            } else if *letter == b'q' {
                from_queue(names, digits, head, words)
            } else if *letter == b'b' {
                from_bridge(names, digits, head, words)
            } else {
                Err(ReadError::Fault(5))
            }
        }
    }
}

#[tactic(auto, unfolding(crate::specs::Journal::timers_words_in))]
fn read_words(names: &Names, words: &[&[u8]]) -> Result<(u32, TimersNote), ReadError>
    ensures { Gives (λ x. x) result (journals.timers_words_in names.now (map (λ w. w.now) words.now)) }
{
    match words {
        [port, head, rest @ ..] => {
            let head = read_head(head).ok_or(ReadError::Fault(3))?;
            read_by(names, port, head, rest)
        }
        _ => Err(ReadError::Fault(4)),
    }
}

#[tactic(auto, unfolding(crate::specs::Journal::timers_line_in))]
fn read_line<'a>(
    names: &Names,
    words: &mut Vec<&'a [u8]>,
    line: &'a [u8],
) -> Result<(u32, TimersNote), ReadError>
    ensures { Gives (λ x. x) result (journals.timers_line_in names.now line.now) }
{
    parted_into(words, line)?;
    read_words(names, words)
}

/// The entry of the timer service's journal that a line without its line feed spells, with its port. None where it
/// spells none that the journal may have.
pub fn timers_entry_in<'a>(
    names: &Names,
    words: &mut Vec<&'a [u8]>,
    line: &'a [u8],
) -> Result<Option<(u32, TimersNote)>, OutOfMemory>
    ensures found { IfOk result (λ o. IfSome o (λ e. MayEnterTimers names.now e × (line.now ++ 10 ∷ [] ≡ timers_entry_line names.now.shape e))) }
    ensures again { IfOk result (λ o. (e : ℕ × TimersNote) → MayEnterTimers names.now e → line.now ++ 10 ∷ [] ≡ timers_entry_line names.now.shape e → o ≡ Some e) }
{
    without_fault(read_line(names, words, line))
}
