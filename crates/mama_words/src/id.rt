ghost use Rattle.std.specs.Prelude.{◌≡◌, ◌++◌, length, take, OnOk, OnErr};
ghost use Rattle.std.specs.Option.{option_map, option_and_then};

use crate::appending::all_or_nothing;
use crate::number::read_number;
use crate::parting::cut_at;
use mama_edge::print_u64;
use mama_event::{InboxId, ObjectId, SubId, TimerId};
use mama_memory::OutOfMemory;

/// An id as a text names it: the client's number and the object's. It may name what no run can have.
#[derive(Clone, Copy, Debug, PartialEq, Eq, Hash)]
pub struct IdWord {
    pub client: u64,
    pub number: u64,
}

ghost use Rattle.mama_words.specs.Id as ids;

// The id that a word with this letter in front spells.
fn read_id(letter: u8, word: &[u8]) -> Option<IdWord>
    ensures { result ≡ ids.id_in letter word.now }
{
    match word {
        [] => None,
        [first, rest @ ..] => {
            if *first == letter {
                read_pair(rest)
            } else {
                None
            }
        }
    }
}

// The two numbers of an id.
fn read_pair(text: &[u8]) -> Option<IdWord>
    ensures { result ≡ option_and_then ids.pair_in (parts.cut_at 46 text.now) }
{
    let (before, after) = cut_at(b'.', text)?;
    let client = read_number(before)?;
    let number = read_number(after)?;
    Some(IdWord { client, number })
}

ghost use Rattle.mama_words.specs.Parting as parts;

/// The subscription that a word names, as `s0.1`.
pub fn read_sub_id(word: &[u8]) -> Option<IdWord>
    ensures { result ≡ ids.id_in 115 word.now }
{
    read_id(b's', word)
}

/// The timer that a word names, as `t0.1`.
pub fn read_timer_id(word: &[u8]) -> Option<IdWord>
    ensures { result ≡ ids.id_in 116 word.now }
{
    read_id(b't', word)
}

/// The inbox that a word names, as `i0.1`.
pub fn read_inbox_id(word: &[u8]) -> Option<IdWord>
    ensures { result ≡ ids.id_in 105 word.now }
{
    read_id(b'i', word)
}

// The id of a subscription, as a text names it.
pub(crate) fn sub_word(id: SubId) -> IdWord
    ensures { result ≡ ids.sub_word id }
{
    IdWord {
        client: u64::from(id.client),
        number: u64::from(id.number),
    }
}

// The id of a timer, as a text names it.
pub(crate) fn timer_word(id: TimerId) -> IdWord
    ensures { result ≡ ids.timer_word id }
{
    IdWord {
        client: u64::from(id.client),
        number: u64::from(id.number),
    }
}

// The id of an inbox, as a text names it.
pub(crate) fn inbox_word(id: InboxId) -> IdWord
    ensures { result ≡ ids.inbox_word id }
{
    IdWord {
        client: u64::from(id.client),
        number: u64::from(id.number),
    }
}

// Appends the spelling of an id.
pub(crate) fn put_id(letter: u8, id: IdWord, out: &mut Vec<u8>) -> Result<(), OutOfMemory>
    ensures ok { OnOk result (out.new.items ≡ out.old.items ++ ids.id_text letter id) }
    ensures err { OnErr result (take (length out.old.items) out.new.items ≡ out.old.items) }
{
    out.push(letter)?;
    print_u64(id.client, out)?;
    out.push(b'.')?;
    print_u64(id.number, out)?;
    Ok(())
}

fn print_id(letter: u8, id: IdWord, out: &mut Vec<u8>) -> Result<(), OutOfMemory>
    ensures ok { OnOk result (out.new.items ≡ out.old.items ++ ids.id_text letter id) }
    ensures err { OnErr result (out.new.items ≡ out.old.items) }
{
    let start = out.len();
    let printed = put_id(letter, id, out);
    all_or_nothing(printed, start, out)
}

/// Appends the id of a subscription. Where no memory is found, nothing is appended.
pub fn print_sub_id(id: SubId, out: &mut Vec<u8>) -> Result<(), OutOfMemory>
    ensures ok { OnOk result (out.new.items ≡ out.old.items ++ ids.sub_text id) }
    ensures err { OnErr result (out.new.items ≡ out.old.items) }
{
    print_id(b's', sub_word(id), out)
}

/// Appends the id of a timer. Where no memory is found, nothing is appended.
pub fn print_timer_id(id: TimerId, out: &mut Vec<u8>) -> Result<(), OutOfMemory>
    ensures ok { OnOk result (out.new.items ≡ out.old.items ++ ids.timer_text id) }
    ensures err { OnErr result (out.new.items ≡ out.old.items) }
{
    print_id(b't', timer_word(id), out)
}

/// Appends the id of an inbox. Where no memory is found, nothing is appended.
pub fn print_inbox_id(id: InboxId, out: &mut Vec<u8>) -> Result<(), OutOfMemory>
    ensures ok { OnOk result (out.new.items ≡ out.old.items ++ ids.inbox_text id) }
    ensures err { OnErr result (out.new.items ≡ out.old.items) }
{
    print_id(b'i', inbox_word(id), out)
}

/// Appends the id of an object. Where no memory is found, nothing is appended.
pub fn print_object_id(id: ObjectId, out: &mut Vec<u8>) -> Result<(), OutOfMemory>
    ensures ok { OnOk result (out.new.items ≡ out.old.items ++ ids.object_text id) }
    ensures err { OnErr result (out.new.items ≡ out.old.items) }
{
    match id {
        ObjectId::Sub(sub) => print_sub_id(sub, out),
        ObjectId::Timer(timer) => print_timer_id(timer, out),
        ObjectId::Inbox(inbox) => print_inbox_id(inbox, out),
    }
}
