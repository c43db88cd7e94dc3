//! What groups heard and what watches noted, line by line.
ghost use Rattle.std.specs.Prelude.{◌≡◌, ◌++◌, OnOk};
ghost use Rattle.std.specs.List.{flat_map};
ghost use Rattle.mama_record.specs.LogText as text;

use crate::calls::put_callback;
use crate::words::put_number;
use mama_edge::print_u64;
use mama_event::{Callback, GroupNote, GroupState, SubId, WatchNote};
use mama_memory::OutOfMemory;
use mama_words::{print_group_state, print_sub_id};

fn put_member_call(sub: SubId, call: &Callback, out: &mut Vec<u8>) -> Result<(), OutOfMemory>
    ensures { OnOk result (out.new.items ≡ out.old.items ++ text.group_note_text (GroupNote.Call sub call.now)) }
{
    print_sub_id(sub, out)?;
    out.push(b' ')?;
    put_callback(call, out)
}

fn put_state(state: GroupState, out: &mut Vec<u8>) -> Result<(), OutOfMemory>
    ensures { OnOk result (out.new.items ≡ out.old.items ++ text.group_note_text (GroupNote.State state)) }
{
    out.extend_from_slice(b"state ")?;
    print_group_state(state, out)
}

fn put_group_note(note: &GroupNote, out: &mut Vec<u8>) -> Result<(), OutOfMemory>
    ensures { OnOk result (out.new.items ≡ out.old.items ++ text.group_note_text note.now) }
{
    match note {
        GroupNote::Call { sub, call } => put_member_call(*sub, call, out),
        GroupNote::State { state } => put_state(*state, out),
    }
}

fn put_group_line(note: &GroupNote, out: &mut Vec<u8>) -> Result<(), OutOfMemory>
    ensures { OnOk result (out.new.items ≡ out.old.items ++ text.group_note_line note.now) }
{
    put_group_note(note, out)?;
    Ok(out.push(b'\n')?)
}

/// What a group heard.
#[tactic(auto, using(crate::proofs::Printed::printed_next))]
pub fn put_group_notes(notes: &[GroupNote], out: &mut Vec<u8>) -> Result<(), OutOfMemory>
    ensures { OnOk result (out.new.items ≡ out.old.items ++ flat_map text.group_note_line notes.now) }
{
    for note in notes {
        put_group_line(note, out)?;
    }
    Ok(())
}

fn put_retry(count: u32, moment: u64, out: &mut Vec<u8>) -> Result<(), OutOfMemory>
    ensures { OnOk result (out.new.items ≡ out.old.items ++ text.watch_note_text (WatchNote.Retry count moment)) }
{
    out.extend_from_slice(b"retry ")?;
    put_number(count, out)?;
    out.push(b' ')?;
    print_u64(moment, out)
}

fn put_timeout(moment: u64, out: &mut Vec<u8>) -> Result<(), OutOfMemory>
    ensures { OnOk result (out.new.items ≡ out.old.items ++ text.watch_note_text (WatchNote.Timeout moment)) }
{
    out.extend_from_slice(b"timeout ")?;
    print_u64(moment, out)
}

fn put_watch_note(note: WatchNote, out: &mut Vec<u8>) -> Result<(), OutOfMemory>
    ensures { OnOk result (out.new.items ≡ out.old.items ++ text.watch_note_text note) }
{
    match note {
        WatchNote::Retry { count, moment } => put_retry(count, moment, out),
        WatchNote::Timeout { moment } => put_timeout(moment, out),
    }
}

fn put_watch_line(note: WatchNote, out: &mut Vec<u8>) -> Result<(), OutOfMemory>
    ensures { OnOk result (out.new.items ≡ out.old.items ++ text.watch_note_line note) }
{
    put_watch_note(note, out)?;
    Ok(out.push(b'\n')?)
}

/// What a watch noted.
#[tactic(auto, using(crate::proofs::Printed::printed_next))]
pub fn put_watch_notes(notes: &[WatchNote], out: &mut Vec<u8>) -> Result<(), OutOfMemory>
    ensures { OnOk result (out.new.items ≡ out.old.items ++ flat_map text.watch_note_line notes.now) }
{
    for note in notes {
        put_watch_line(*note, out)?;
    }
    Ok(())
}
