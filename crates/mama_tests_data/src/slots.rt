use crate::rows::numbered;
use mama_slots::Slots;
use std::alloc::Global;
use std::process::Abort;
use std::test::Fail;

// Each step names a queue: `take` the least slot of it that is free, `next` asks for it, `free` lets one go, and `new`
// begins again. The least that is free is taken, and each queue has slots of its own. A slot that is free is let go again
// without effect, and one that is told and not held stays free.
const STEPS: &str = "new
take 7 0
take 7 1
take 7 2
free 7 1
free 7 0
take 7 0
take 7 1
take 7 3
new
take 0 0
take 4294967295 0
free 0 0
take 4294967295 1
take 0 0
new
free 0 3
free 0 4294967295
take 0 0
take 0 1
free 0 0
free 0 0
take 0 0
take 0 2
new
next 0 0
next 0 0
take 0 0
next 0 1";

// The slot that is next, which is taken where that is said.
fn next(slots: &mut Slots, queue: u32, takes: bool) -> Result<u32, Fail> {
    let slot = slots.next(queue)?;
    if takes {
        slots.hold(queue, slot);
    }
    Ok(slot)
}

fn step(
    rt: &impl Abort,
    alloc: Global,
    slots: &mut Slots,
    word: &str,
    rest: &str,
) -> Result<(), Fail> {
    let (queue, rest) = numbered(rest);
    let (slot, _) = numbered(rest);
    if word == "new" {
        *slots = Slots::new(alloc);
    } else if word == "free" {
        slots.release(queue, slot)?;
    } else {
        let found = next(slots, queue, word == "take")?;
        assert_eq!(rt; found, slot, "{word} {queue}");
    }
    Ok(())
}

#[test]
fn the_least_slot_that_is_free_is_next(rt: HostRuntime) -> Result<(), Fail> {
    let mut slots = Slots::new(rt.alloc());
    for row in STEPS.lines() {
        let (word, rest) = row.split_once(' ').unwrap_or((row, ""));
        step(&rt, rt.alloc(), &mut slots, word, rest)?;
    }
    Ok(())
}
