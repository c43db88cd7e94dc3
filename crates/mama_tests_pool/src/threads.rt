//! Two hands in two threads: one pushes and takes, and the other steals from it.
use crate::hands::{EACH, Item};
use mama_pool::{Hand, Numbered, open_pool};
use std::sync::Wait;
use std::sync::atomic::AtomicU32;
use std::sync::atomic::Ordering::SeqCst;
use std::test::Fail;
use std::thread;
use std::thread::Threads;

// How many items a hand took, and their numbers added up.
#[derive(Clone, Copy)]
struct Taken {
    items: u32,
    numbers: u32,
}

const NONE: Taken = Taken {
    items: 0,
    numbers: 0,
};

impl Taken {
    fn with(self, item: Item) -> Taken {
        Taken {
            items: self.items.wrapping_add(1),
            numbers: self.numbers.wrapping_add(item.number()),
        }
    }
}

// Pushes an item for each number up to `EACH`, and then takes until nothing is left. `waiting` counts what no hand has taken.
fn push_and_pop<R: Wait + Copy>(rt: R, mut hand: Hand<Item>, waiting: &AtomicU32) -> Taken {
    let mut taken = NONE;
    for number in 1..=EACH {
        if hand.push(rt, Item { number }).is_err() {
            waiting.fetch_sub(1, SeqCst);
        }
    }
    for _ in rt.forever() {
        match hand.pop(rt) {
            Some(item) => taken = taken.with(item),
            None => return taken,
        }
        waiting.fetch_sub(1, SeqCst);
    }
    taken
}

// Steals from the hand of number 0, if this is another.
fn steal<R: Wait + Copy>(rt: R, hand: &mut Hand<Item>) -> Option<Item> {
    if hand.number() == 0 {
        return None;
    }
    hand.steal(rt, 0)
}

// Steals from the hand of number 0 until no item waits.
fn steal_all<R: Wait + Copy>(rt: R, mut hand: Hand<Item>, waiting: &AtomicU32) -> Taken {
    let mut taken = NONE;
    for _ in rt.forever() {
        if waiting.load(SeqCst) == 0 {
            break;
        }
        match steal(rt, &mut hand) {
            Some(item) => {
                taken = taken.with(item);
                waiting.fetch_sub(1, SeqCst);
            }
            None => thread::yield_now(),
        }
    }
    taken
}

// What two hands in two threads took.
fn taken_by_both<R: Threads + Wait + Copy + Sync + Send>(
    rt: R,
    zero: Hand<Item>,
    one: Hand<Item>,
) -> (Taken, Taken) {
    let waiting = AtomicU32::new(EACH);
    let shared = &waiting;
    thread::join(
        &rt,
        move || push_and_pop(rt, zero, shared),
        move || steal_all(rt, one, shared),
    )
}

#[test]
fn two_hands_in_two_threads(rt: HostRuntime) -> Result<(), Fail> {
    let mut hands = open_pool::<Item, HostRuntime>(rt, rt.alloc(), 2)?;
    let one = hands.pop().ok_or("no hand")?;
    let zero = hands.pop().ok_or("no hand")?;
    let (popped, stolen) = taken_by_both(rt, zero, one);
    assert_eq!(rt; popped.items.wrapping_add(stolen.items), EACH);
    assert_eq!(rt; popped.numbers.wrapping_add(stolen.numbers), 5050);
    Ok(())
}
