ghost use Rattle.std.specs.Prelude.{◌≡◌, ◌++◌, map, length, codes, IfOk, OnOk};
ghost use Rattle.std.specs.List.{flat_map};
ghost use Rattle.mama_edge.specs.Decimal.{decimal};
ghost use Rattle.mama_record.specs.LogText as text;
ghost use Rattle.mama_record.specs.RunView as view;
ghost use Rattle.mama_record.specs.SectionText.{section_text, head_text, call_lines};
ghost use Rattle.mama_words.specs.Id.{object_text};

use crate::calls::{put_call, put_image};
use crate::lists::{put_group_notes, put_watch_notes};
use crate::notes::{put_bridge_entry, put_publisher_entry, put_queue_entry, put_timers_entry};
use crate::record::RunRecord;
use mama_edge::print_u64;
use mama_event::{
    BridgeNote, CallNote, GroupNote, ImageHead, ObjectId, PublisherEntry, QueueNote, Shape,
    Strategy, SubId, TimersNote, WatchNote,
};
use mama_memory::OutOfMemory;
use mama_msg::Msg;
use mama_words::{Version, print_object_id, print_strategy};
use std::alloc::Global;

/// The log of a run in a version, for a system of this shape: one line for each entry, ended by one LF. A log of version 1 is
/// read again only where the record has no groups and no watches.
#[tactic(auto, using(crate::proofs::Sections::log_printed))]
pub fn print_log(
    alloc: Global,
    shape: &Shape,
    run: &RunRecord,
    version: Version,
) -> Result<Vec<u8>, OutOfMemory>
    ensures { IfOk result (λ log. log.items ≡ text.log_text version shape.now run.now) }
{
    let mut out = Vec::new(alloc);
    put_title(version, shape.strategy, &mut out)?;
    put_clients(version, run.clients(), &mut out)?;
    put_publishers(version, run.publishers(), &mut out)?;
    put_bridge(version, shape, run.bridge(), &mut out)?;
    put_timers(version, shape, run.timers(), &mut out)?;
    put_queues(version, run.queues(), &mut out)?;
    put_objects(version, run.calls(), &mut out)?;
    put_groups(version, run.groups(), &mut out)?;
    put_watches(version, run.watches(), &mut out)?;
    put_images(version, run.images(), &mut out)?;
    out.extend_from_slice(b"end\n")?;
    Ok(out)
}

// The lines before the sections.
fn put_title(version: Version, strategy: Strategy, out: &mut Vec<u8>) -> Result<(), OutOfMemory>
    ensures { OnOk result (out.new.items ≡ out.old.items ++ text.lines_text (text.title version strategy)) }
{
    match version {
        Version::One => Ok(out.extend_from_slice(b"mama log 1\n")?),
        Version::Two => put_strategy(strategy, out),
    }
}

fn put_strategy(strategy: Strategy, out: &mut Vec<u8>) -> Result<(), OutOfMemory>
    ensures { OnOk result (out.new.items ≡ out.old.items ++ text.lines_text (text.title Version.Two strategy)) }
{
    out.extend_from_slice(b"mama log 2\nstrategy ")?;
    print_strategy(strategy, out)?;
    Ok(out.push(b'\n')?)
}

// The number of a section's lines, where the version tells it.
fn put_told(version: Version, count: u64, out: &mut Vec<u8>) -> Result<(), OutOfMemory>
    ensures { OnOk result (out.new.items ≡ out.old.items ++ text.told version count) }
{
    match version {
        Version::One => Ok(()),
        Version::Two => put_count(count, out),
    }
}

fn put_count(count: u64, out: &mut Vec<u8>) -> Result<(), OutOfMemory>
    ensures { OnOk result (out.new.items ≡ out.old.items ++ text.told Version.Two count) }
{
    out.push(b' ')?;
    print_u64(count, out)
}

// The first line of a section of so many lines: its word.
fn put_word(
    version: Version,
    word: &[u8],
    count: usize,
    out: &mut Vec<u8>,
) -> Result<(), OutOfMemory>
    ensures { OnOk result (out.new.items ≡ out.old.items ++ head_text version word.now count) }
{
    out.extend_from_slice(word)?;
    put_told(version, count as u64, out)?;
    Ok(out.push(b'\n')?)
}

// The same: its word, with a space behind it, and its number.
fn put_head(
    version: Version,
    word: &[u8],
    number: usize,
    count: usize,
    out: &mut Vec<u8>,
) -> Result<(), OutOfMemory>
    ensures { OnOk result (out.new.items ≡ out.old.items ++ head_text version (word.now ++ decimal number) count) }
{
    out.extend_from_slice(word)?;
    print_u64(number as u64, out)?;
    put_told(version, count as u64, out)?;
    Ok(out.push(b'\n')?)
}

fn put_client(
    version: Version,
    number: usize,
    moments: &Vec<u64>,
    out: &mut Vec<u8>,
) -> Result<(), OutOfMemory>
    ensures { OnOk result (out.new.items ≡ out.old.items ++ section_text version (text.client_section number moments.now.items)) }
{
    put_head(version, b"client ", number, moments.len(), out)?;
    put_moments(moments.as_slice(), out)
}

#[tactic(auto, using(crate::proofs::Printed::printed_next))]
fn put_moments(moments: &[u64], out: &mut Vec<u8>) -> Result<(), OutOfMemory>
    ensures { OnOk result (out.new.items ≡ out.old.items ++ flat_map text.clock_line moments.now) }
{
    for moment in moments {
        put_moment(*moment, out)?;
    }
    Ok(())
}

fn put_moment(moment: u64, out: &mut Vec<u8>) -> Result<(), OutOfMemory>
    ensures { OnOk result (out.new.items ≡ out.old.items ++ text.clock_line moment) }
{
    out.extend_from_slice(b"clock ")?;
    print_u64(moment, out)?;
    Ok(out.push(b'\n')?)
}

fn put_clients(version: Version, clients: &[Vec<u64>], out: &mut Vec<u8>) -> Result<(), OutOfMemory>
    ensures { OnOk result (out.new.items ≡ out.old.items ++ flat_map (section_text version) (text.numbered text.client_section 0 (view.moments_of clients.now))) }
{
    for number in 0..clients.len() {
        put_client(version, number, &clients[number], out)?;
    }
    Ok(())
}

fn put_publisher(
    version: Version,
    number: usize,
    journal: &Vec<PublisherEntry>,
    out: &mut Vec<u8>,
) -> Result<(), OutOfMemory>
    ensures { OnOk result (out.new.items ≡ out.old.items ++ section_text version (text.publisher_section number journal.now.items)) }
{
    put_head(version, b"publisher ", number, journal.len(), out)?;
    put_entries(journal.as_slice(), out)
}

#[tactic(auto, using(crate::proofs::Printed::printed_next))]
fn put_entries(journal: &[PublisherEntry], out: &mut Vec<u8>) -> Result<(), OutOfMemory>
    ensures { OnOk result (out.new.items ≡ out.old.items ++ flat_map text.publisher_entry_line journal.now) }
{
    for entry in journal {
        put_entry_line(entry, out)?;
    }
    Ok(())
}

fn put_entry_line(entry: &PublisherEntry, out: &mut Vec<u8>) -> Result<(), OutOfMemory>
    ensures { OnOk result (out.new.items ≡ out.old.items ++ text.publisher_entry_line entry.now) }
{
    put_publisher_entry(entry, out)?;
    Ok(out.push(b'\n')?)
}

fn put_publishers(
    version: Version,
    publishers: &[Vec<PublisherEntry>],
    out: &mut Vec<u8>,
) -> Result<(), OutOfMemory>
    ensures { OnOk result (out.new.items ≡ out.old.items ++ flat_map (section_text version) (text.numbered text.publisher_section 0 (view.entries_of publishers.now))) }
{
    for number in 0..publishers.len() {
        put_publisher(version, number, &publishers[number], out)?;
    }
    Ok(())
}

fn put_bridge(
    version: Version,
    shape: &Shape,
    entries: &[(u32, BridgeNote)],
    out: &mut Vec<u8>,
) -> Result<(), OutOfMemory>
    ensures { OnOk result (out.new.items ≡ out.old.items ++ section_text version (text.bridge_section shape.now entries.now)) }
{
    put_word(version, b"bridge", entries.len(), out)?;
    put_bridge_entries(shape, entries, out)
}

#[tactic(auto, using(crate::proofs::Printed::printed_next))]
fn put_bridge_entries(
    shape: &Shape,
    entries: &[(u32, BridgeNote)],
    out: &mut Vec<u8>,
) -> Result<(), OutOfMemory>
    ensures { OnOk result (out.new.items ≡ out.old.items ++ flat_map (text.bridge_entry_line shape.now) entries.now) }
{
    for entry in entries {
        put_bridge_entry(shape, entry.0, &entry.1, out)?;
    }
    Ok(())
}

fn put_timers(
    version: Version,
    shape: &Shape,
    entries: &[(u32, TimersNote)],
    out: &mut Vec<u8>,
) -> Result<(), OutOfMemory>
    ensures { OnOk result (out.new.items ≡ out.old.items ++ section_text version (text.timers_section shape.now entries.now)) }
{
    put_word(version, b"timers", entries.len(), out)?;
    put_timers_entries(shape, entries, out)
}

#[tactic(auto, using(crate::proofs::Printed::printed_next))]
fn put_timers_entries(
    shape: &Shape,
    entries: &[(u32, TimersNote)],
    out: &mut Vec<u8>,
) -> Result<(), OutOfMemory>
    ensures { OnOk result (out.new.items ≡ out.old.items ++ flat_map (text.timers_entry_line shape.now) entries.now) }
{
    for entry in entries {
        put_timers_entry(shape, entry.0, &entry.1, out)?;
    }
    Ok(())
}

fn put_queue(
    version: Version,
    number: usize,
    journal: &Vec<(u32, QueueNote)>,
    out: &mut Vec<u8>,
) -> Result<(), OutOfMemory>
    ensures { OnOk result (out.new.items ≡ out.old.items ++ section_text version (text.queue_section number journal.now.items)) }
{
    put_head(version, b"queue ", number, journal.len(), out)?;
    put_queue_entries(journal.as_slice(), out)
}

#[tactic(auto, using(crate::proofs::Printed::printed_next))]
fn put_queue_entries(journal: &[(u32, QueueNote)], out: &mut Vec<u8>) -> Result<(), OutOfMemory>
    ensures { OnOk result (out.new.items ≡ out.old.items ++ flat_map text.queue_entry_line journal.now) }
{
    for entry in journal {
        put_queue_entry(entry.0, &entry.1, out)?;
    }
    Ok(())
}

fn put_queues(
    version: Version,
    queues: &[Vec<(u32, QueueNote)>],
    out: &mut Vec<u8>,
) -> Result<(), OutOfMemory>
    ensures { OnOk result (out.new.items ≡ out.old.items ++ flat_map (section_text version) (text.numbered text.queue_section 0 (view.events_of queues.now))) }
{
    for number in 0..queues.len() {
        put_queue(version, number, &queues[number], out)?;
    }
    Ok(())
}

// The callbacks with their orders, and how many lines they are.
#[tactic(auto, using(crate::proofs::Printed::printed_next, crate::proofs::Sections::count_more))]
fn put_calls(calls: &[CallNote], out: &mut Vec<u8>) -> Result<u64, OutOfMemory>
    ensures lines { OnOk result (out.new.items ≡ out.old.items ++ flat_map call_lines calls.now) }
    ensures count { IfOk result (λ count. count ≡ length (flat_map text.call_texts calls.now)) }
{
    let mut count = 0u64;
    for call in calls {
        put_call(call, out)?;
        count += 1 + call.orders.len() as u64;
    }
    Ok(count)
}

fn put_object_head(
    version: Version,
    object: ObjectId,
    count: u64,
    out: &mut Vec<u8>,
) -> Result<(), OutOfMemory>
    ensures { OnOk result (out.new.items ≡ out.old.items ++ head_text version (codes "on " ++ object_text object) count) }
{
    out.extend_from_slice(b"on ")?;
    print_object_id(object, out)?;
    put_told(version, count, out)?;
    Ok(out.push(b'\n')?)
}

// The lines are put beside first, since the section's first line tells their number.
fn put_object(
    version: Version,
    object: ObjectId,
    calls: &[CallNote],
    out: &mut Vec<u8>,
) -> Result<(), OutOfMemory>
    ensures { OnOk result (out.new.items ≡ out.old.items ++ section_text version (text.object_section (record { object = object; calls = calls.now }))) }
{
    let mut lines = Vec::new(*out.allocator());
    let count = put_calls(calls, &mut lines)?;
    put_object_head(version, object, count, out)?;
    Ok(out.extend_from_slice(&lines)?)
}

#[tactic(auto, using(crate::proofs::Printed::printed_mapped))]
fn put_objects(
    version: Version,
    objects: &[(ObjectId, Vec<CallNote>)],
    out: &mut Vec<u8>,
) -> Result<(), OutOfMemory>
    ensures { OnOk result (out.new.items ≡ out.old.items ++ flat_map (section_text version) (map text.object_section (view.calls_of objects.now))) }
{
    for object in objects {
        put_object(version, object.0, object.1.as_slice(), out)?;
    }
    Ok(())
}

fn put_group(
    version: Version,
    number: u32,
    notes: &[GroupNote],
    out: &mut Vec<u8>,
) -> Result<(), OutOfMemory>
    ensures { OnOk result (out.new.items ≡ out.old.items ++ section_text version (text.group_section (record { group = number; notes = notes.now }))) }
{
    put_head(version, b"group ", number as usize, notes.len(), out)?;
    put_group_notes(notes, out)
}

#[tactic(auto, using(crate::proofs::Printed::printed_mapped))]
fn put_groups(
    version: Version,
    groups: &[(u32, Vec<GroupNote>)],
    out: &mut Vec<u8>,
) -> Result<(), OutOfMemory>
    ensures { OnOk result (out.new.items ≡ out.old.items ++ flat_map (section_text version) (map text.group_section (view.groups_of groups.now))) }
{
    for group in groups {
        put_group(version, group.0, group.1.as_slice(), out)?;
    }
    Ok(())
}

fn put_watch(
    version: Version,
    number: u32,
    notes: &[WatchNote],
    out: &mut Vec<u8>,
) -> Result<(), OutOfMemory>
    ensures { OnOk result (out.new.items ≡ out.old.items ++ section_text version (text.watch_section (record { watch = number; notes = notes.now }))) }
{
    put_head(version, b"watch ", number as usize, notes.len(), out)?;
    put_watch_notes(notes, out)
}

#[tactic(auto, using(crate::proofs::Printed::printed_mapped))]
fn put_watches(
    version: Version,
    watches: &[(u32, Vec<WatchNote>)],
    out: &mut Vec<u8>,
) -> Result<(), OutOfMemory>
    ensures { OnOk result (out.new.items ≡ out.old.items ++ flat_map (section_text version) (map text.watch_section (view.watches_of watches.now))) }
{
    for watch in watches {
        put_watch(version, watch.0, watch.1.as_slice(), out)?;
    }
    Ok(())
}

fn put_images(
    version: Version,
    images: &[(SubId, ImageHead, Msg)],
    out: &mut Vec<u8>,
) -> Result<(), OutOfMemory>
    ensures { OnOk result (out.new.items ≡ out.old.items ++ section_text version (text.images_section (view.images_of images.now))) }
{
    put_word(version, b"images", images.len(), out)?;
    put_image_lines(images, out)
}

#[tactic(auto, using(crate::proofs::Printed::printed_seen))]
fn put_image_lines(images: &[(SubId, ImageHead, Msg)], out: &mut Vec<u8>) -> Result<(), OutOfMemory>
    ensures { OnOk result (out.new.items ≡ out.old.items ++ flat_map text.image_line (view.images_of images.now)) }
{
    for image in images {
        put_image(image.0, image.1, &image.2, out)?;
    }
    Ok(())
}
