//! Two hands, and four of which each takes from the next.
ghost use Rattle.std.specs.Prelude.{◌≡◌, ◌≢◌, ◌<◌, length};
ghost use Rattle.mama_pool.specs.Values.{IsPool};

use mama_pool::{Hand, Numbered, OutOfMemory, close_pool, open_pool};
use std::alloc::Global;
use std::sync::Wait;
use std::test::Fail;

// How many items each of four hands pushes.
pub const EACH: u32 = 100;

// An item that is its number.
#[derive(Drop)]
pub struct Item {
    pub number: u32,
}

impl Numbered for Item {
    ghost numbered = { λ item. item.number };

    fn number(&self) -> u32 {
        self.number
    }
}

// The item's number, or 0 where there is none.
fn number_of(item: Option<Item>) -> u32 {
    match item {
        Some(item) => item.number(),
        None => 0,
    }
}

// A hand pushes an item, and says whether there was room for it.
fn push<R: Wait + Copy>(rt: R, hands: &mut Vec<Hand<Item>>, at: usize, number: u32) -> bool
    requires pool { IsPool hands.old.items }
    requires at { at < length hands.old.items }
    ensures pool { IsPool hands.new.items }
    ensures count { length hands.new.items ≡ length hands.old.items }
{
    hands[at].push(rt, Item { number }).is_ok()
}

// A hand takes an item of its own deque.
fn pop<R: Wait + Copy>(rt: R, hands: &mut Vec<Hand<Item>>, at: usize) -> u32
    requires pool { IsPool hands.old.items }
    requires at { at < length hands.old.items }
    ensures pool { IsPool hands.new.items }
    ensures count { length hands.new.items ≡ length hands.old.items }
{
    number_of(hands[at].pop(rt))
}

// A hand takes an item of another's deque.
fn steal<R: Wait + Copy>(rt: R, hands: &mut Vec<Hand<Item>>, at: usize, from: u32) -> u32
    requires pool { IsPool hands.old.items }
    requires at { at < length hands.old.items }
    requires from { (from ≢ at) × (from < length hands.old.items) }
    ensures pool { IsPool hands.new.items }
    ensures count { length hands.new.items ≡ length hands.old.items }
{
    number_of(hands[at].steal(rt, from))
}

// One hand tells another what it pushed.
fn inform<R: Wait + Copy>(
    rt: R,
    hands: &mut Vec<Hand<Item>>,
    from: usize,
    to: usize,
) -> Result<(), OutOfMemory>
    requires pool { IsPool hands.old.items }
    requires apart { from ≢ to }
    requires hands { (from < length hands.old.items) × (to < length hands.old.items) }
    ensures pool { IsPool hands.new.items }
    ensures count { length hands.new.items ≡ length hands.old.items }
{
    let note = hands[from].tell(rt)?;
    hands[to].learn(rt, note);
    Ok(())
}

#[test]
fn two_hands_share_their_items(rt: HostRuntime) -> Result<(), Fail> {
    let mut hands = open_pool::<Item, HostRuntime>(rt, rt.alloc(), 2)?;
    assert!(rt; push(rt, &mut hands, 0, 5));
    assert!(rt; push(rt, &mut hands, 0, 6));
    inform(rt, &mut hands, 0, 1)?;
    assert_eq!(rt; steal(rt, &mut hands, 1, 0), 5);
    assert_eq!(rt; pop(rt, &mut hands, 0), 6);
    assert_eq!(rt; pop(rt, &mut hands, 0), 0);
    assert_eq!(rt; steal(rt, &mut hands, 1, 0), 0);
    close_pool(rt, hands);
    Ok(())
}

// A look needs no word of what was pushed.
#[test]
fn an_item_is_stolen_before_any_word_of_it(rt: HostRuntime) -> Result<(), Fail> {
    let mut hands = open_pool::<Item, HostRuntime>(rt, rt.alloc(), 2)?;
    assert!(rt; push(rt, &mut hands, 0, 5));
    assert_eq!(rt; steal(rt, &mut hands, 1, 0), 5);
    close_pool(rt, hands);
    Ok(())
}

#[test]
fn the_least_and_the_greatest_pool(rt: HostRuntime) -> Result<(), Fail> {
    let mut one = open_pool::<Item, HostRuntime>(rt, rt.alloc(), 1)?;
    assert!(rt; push(rt, &mut one, 0, 5));
    assert_eq!(rt; pop(rt, &mut one, 0), 5);
    close_pool(rt, one);
    let mut most = open_pool::<Item, HostRuntime>(rt, rt.alloc(), 64)?;
    assert!(rt; push(rt, &mut most, 63, 7));
    assert_eq!(rt; steal(rt, &mut most, 0, 63), 7);
    assert_eq!(rt; steal(rt, &mut most, 62, 63), 0);
    close_pool(rt, most);
    Ok(())
}

// Each of four hands pushes as many items, all with numbers of their own.
fn push_all<R: Wait + Copy>(rt: R, hands: &mut Vec<Hand<Item>>) -> bool
    requires pool { IsPool hands.old.items }
    requires four { length hands.old.items ≡ 4 }
    ensures pool { IsPool hands.new.items }
    ensures count { length hands.new.items ≡ length hands.old.items }
{
    for i in 0..4 * EACH {
        if !push(rt, hands, (i % 4) as usize, i + 1) {
            return false;
        }
    }
    true
}

// Four hands take in turns, of the next one's deque or else of their own, and the numbers that they took are answered.
fn take_all<R: Wait + Copy>(
    rt: R,
    alloc: Global,
    hands: &mut Vec<Hand<Item>>,
) -> Result<Vec<u32>, OutOfMemory>
    requires pool { IsPool hands.old.items }
    requires four { length hands.old.items ≡ 4 }
    ensures pool { IsPool hands.new.items }
    ensures count { length hands.new.items ≡ length hands.old.items }
{
    let mut took = Vec::new(alloc);
    for i in 0..8 * EACH {
        let at = i % 4;
        let stolen = steal(rt, hands, at as usize, (at + 1) % 4);
        if stolen > 0 {
            took.push(stolen)?;
        }
        let popped = pop(rt, hands, at as usize);
        if popped > 0 {
            took.push(popped)?;
        }
    }
    Ok(took)
}

// Whether these are the numbers from 1 to this one, each once.
fn is_each_once(alloc: Global, took: &[u32], last: u32) -> Result<bool, OutOfMemory> {
    let mut sorted = Vec::from_slice(alloc, took)?;
    sorted.sort()?;
    for i in 0..sorted.len() {
        if sorted[i] as usize != i + 1 {
            return Ok(false);
        }
    }
    Ok(sorted.len() == last as usize)
}

#[test]
fn each_number_comes_back_once(rt: HostRuntime) -> Result<(), Fail> {
    let mut hands = open_pool::<Item, HostRuntime>(rt, rt.alloc(), 4)?;
    assert!(rt; push_all(rt, &mut hands));
    let took = take_all(rt, rt.alloc(), &mut hands)?;
    assert!(rt; is_each_once(rt.alloc(), took.as_slice(), 4 * EACH)?);
    close_pool(rt, hands);
    Ok(())
}
