use mama_check_order::{Need, has_order};
use mama_memory::OutOfMemory;
use std::alloc::{AllocError, Global};
use std::test::Fail;

// Whether there is an order, and the actors' journals, each behind a bar. An entry is the actor and the entry that it
// needs, or a dash.
//
// Entries that need nothing; chains and rings; two actors that need each other in turn; what an actor did before; what
// does not exist; several that wait for one entry; and an actor that was asked goes on no further than it may.
const ORDERS: &str = "yes
yes|
yes|- - -
yes|1.0|2.0|3.0|-
no|1.0|0.0
no|1.0|2.0|3.0|1.0
yes|- 1.0|- 0.0
yes|- 1.0 1.1|0.0 0.1 0.2
no|1.0 1.1|0.0 0.1
yes|- 0.0 0.0
no|- 0.1
no|0.1 -
no|-|- 0.1
no|-|- 2.0
no|1.0|
yes|3.1|3.1|3.1 1.0|- -
no|3.1|3.1|3.1|- 2.0
yes|1.1 -|- - 0.1
yes|1.1 1.2|2.0 - 0.0|- 0.1";

fn need_of(word: &str) -> Option<Need> {
    let (actor, entry) = word.split_once('.')?;
    Some(Need {
        actor: actor.parse::<usize>().ok()?,
        entry: entry.parse::<usize>().ok()?,
    })
}

fn needs_of(alloc: Global, text: &str) -> Result<Vec<Option<Need>>, AllocError> {
    let mut needs = Vec::new(alloc);
    if text.is_empty() {
        return Ok(needs);
    }
    for word in text.split(' ') {
        needs.push(need_of(word))?;
    }
    Ok(needs)
}

fn is_ordered(alloc: Global, row: &str) -> Result<bool, Fail> {
    let mut all = Vec::new(alloc);
    for journal in row.split('|').skip(1) {
        all.push(needs_of(alloc, journal)?)?;
    }
    Ok(are_ordered(alloc, &all)?)
}

fn are_ordered(alloc: Global, needs: &[Vec<Option<Need>>]) -> Result<bool, OutOfMemory> {
    has_order(alloc, needs)
}

fn is_so(alloc: Global, row: &str) -> Result<bool, Fail> {
    Ok(is_ordered(alloc, row)? == row.starts_with("yes"))
}

#[test]
fn entries_have_an_order_or_none(rt: HostRuntime) -> Result<(), Fail> {
    for row in ORDERS.lines() {
        assert!(rt; is_so(rt.alloc(), row)?, "{row}");
    }
    Ok(())
}
