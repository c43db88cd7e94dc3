ghost use Rattle.std.specs.Prelude.{◌≡◌, ◌+◌, ◌<◌, ◌≤◌, [], ◌∷◌, ◌++◌, length, vec_len, None, is_some, IsTrue, OnOk, option_to_list, slice_get, slice_index_or, slice_set, if◌then◌else◌};
ghost use Rattle.std.specs.List.{flat_map};
ghost use Rattle.std.specs.Vec.{vec_capacity};
ghost use Rattle.mama_link.specs.Slots.{fault_here, found_at, taken_at, emptied_at};

use crate::faults::Fault;
use mama_memory::{OutOfMemory, Outbox};

/// The fault of the entry at the cursor, if it is the entry of the place.
pub(crate) fn fault_at_cursor(table: &[(u32, Fault)], cursor: usize, place: u64) -> Option<Fault>
    ensures { result ≡ fault_here (slice_get table.now cursor) place }
{
    match table.get(cursor) {
        Some((index, fault)) if *index as u64 == place => Some(*fault),
        _ => None,
    }
}

/// How many of the slots of these numbers have a message.
pub(crate) fn count_found<T>(numbers: &[usize], slots: &[Option<T>]) -> usize
    ensures count { result ≡ length (found_at numbers.now slots.now) }
    ensures few { result ≤ length numbers.now }
{
    let mut count = 0;
    for number in numbers {
        if has_message(slots, *number) {
            count += 1;
        }
    }
    count
}

fn has_message<T>(slots: &[Option<T>], number: usize) -> bool
    ensures { result ≡ is_some (slice_index_or slots.now number None) }
{
    match slots.get(number) {
        Some(slot) => slot.is_some(),
        None => false,
    }
}

/// Takes the message out of a slot.
fn take_message<T>(slots: &mut Vec<Option<T>>, number: usize) -> Option<T>
    ensures message { result ≡ slice_index_or slots.old.items number None }
    ensures emptied { slots.new.items ≡ slice_set slots.old.items number None }
    ensures len { vec_len slots.new ≡ vec_len slots.old }
    ensures capacity { vec_capacity slots.new ≡ vec_capacity slots.old }
{
    if number < slots.len() {
        slots[number].take()
    } else {
        None
    }
}

/// Puts the message out, if there is one, and tells how many there were.
pub(crate) fn put_some<T>(message: Option<T>, out: &mut Outbox<T>) -> usize
    requires { length (option_to_list message) ≤ out.old.spare }
    ensures out { out.new.items ≡ out.old.items ++ option_to_list message }
    ensures spare { out.new.spare + length (option_to_list message) ≡ out.old.spare }
    ensures count { result ≡ length (option_to_list message) }
{
    match message {
        Some(message) => {
            out.push_reserved(message);
            1
        }
        None => 0,
    }
}

/// Empties the slots of these numbers in turn into an outbox with room, and tells how many messages there were.
pub(crate) fn release<T>(
    numbers: &[usize],
    slots: &mut Vec<Option<T>>,
    out: &mut Outbox<T>,
) -> usize
    requires { length (taken_at numbers.now slots.old.items) ≤ out.old.spare }
    ensures out { out.new.items ≡ out.old.items ++ taken_at numbers.now slots.old.items }
    ensures spare { out.new.spare + length (taken_at numbers.now slots.old.items) ≡ out.old.spare }
    ensures count { result ≡ length (taken_at numbers.now slots.old.items) }
    ensures slots { slots.new.items ≡ emptied_at numbers.now slots.old.items }
    ensures len { vec_len slots.new ≡ vec_len slots.old }
    ensures capacity { vec_capacity slots.new ≡ vec_capacity slots.old }
{
    let mut released = 0;
    for number in numbers {
        let message = take_message(slots, *number);
        released += put_some(message, out);
    }
    released
}

/// How many messages a slot has.
pub(crate) fn count_slot<T>(slot: &Option<T>) -> usize
    ensures { result ≡ length (option_to_list slot.now) }
{
    if slot.is_some() { 1 } else { 0 }
}

/// Makes room for one more slot, where the message has a fault.
pub(crate) fn make_room<T>(slots: &mut Vec<Option<T>>, faulty: bool) -> Result<(), OutOfMemory>
    ensures slots { slots.new.items ≡ slots.old.items }
    ensures room { OnOk result (IsTrue faulty → vec_len slots.new < vec_capacity slots.new) }
    ensures capacity { vec_capacity slots.old ≤ vec_capacity slots.new }
{
    if faulty {
        slots.reserve(1)?;
    }
    Ok(())
}

/// Adds a slot, where the message has a fault.
pub(crate) fn keep<T: Drop>(slots: &mut Vec<Option<T>>, faulty: bool, slot: Option<T>)
    requires { IsTrue faulty → vec_len slots.old < vec_capacity slots.old }
    ensures slots { slots.new.items ≡ (if faulty then slots.old.items ++ slot ∷ [] else slots.old.items) }
{
    if faulty {
        slots.push_reserved(slot);
    }
}

/// Puts all messages of the slots out, in order, into an outbox with room.
pub(crate) fn put_all<T: Drop>(slots: Vec<Option<T>>, out: &mut Outbox<T>)
    requires { length (flat_map option_to_list slots.items) ≤ out.old.spare }
    ensures out { out.new.items ≡ out.old.items ++ flat_map option_to_list slots.items }
    ensures spare { out.new.spare + length (flat_map option_to_list slots.items) ≡ out.old.spare }
{
    for slot in slots {
        put_some(slot, out);
    }
}
