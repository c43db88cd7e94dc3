//! Many subscriptions, each ended by another client, on one thread and on many.

use crate::words::{log_of, verdict_of};
use mama_edge::OpenGate;
use std::alloc::Global;
use std::sync::Wait;
use std::test::Fail;
use std::thread::Threads;

const CLIENTS: u32 = 32;

const SUBS: u32 = 100;

// A script of 32 clients, each of which subscribes 100 times, and ends what the next client has subscribed.
fn storm(alloc: Global) -> Result<Vec<u8>, Fail> {
    let head = "mama script 1\nqueues 2\ntopic \"T\"\npublisher 0\n";
    let mut text = Vec::from_slice(alloc, head.as_bytes())?;
    for number in 0..SUBS {
        text.extend_from_slice(format!(in alloc; "update 1:a:u32:{number}\n")?.as_bytes())?;
    }
    for client in 0..CLIENTS {
        text.extend_from_slice("client\n".as_bytes())?;
        let next = client.saturating_add(1) % CLIENTS;
        for number in 0..SUBS {
            text.extend_from_slice("sub 0 market any 10 10\n".as_bytes())?;
            text.extend_from_slice(format!(in alloc; "stop s{next}.{number}\n")?.as_bytes())?;
        }
    }
    Ok(text)
}

fn notices(log: &[u8]) -> Result<usize, Fail> {
    let log = str::from_utf8(log).ok().ok_or("a text")?;
    Ok(log.lines().filter(|line| *line == "destroy").count())
}

// Whether the storm's log by these words has the notice of each subscription, and a verdict that begins so.
fn is_weathered<R: Threads + Wait + Copy + Drop + Send + Sync>(
    rt: &R,
    alloc: Global,
    words: &str,
    verdict: &str,
) -> Result<bool, Fail> {
    let script = storm(alloc)?;
    let log = log_of(rt, alloc, words, &script, &OpenGate)?;
    let said = verdict_of(rt, alloc, &script, &log)?;
    Ok(notices(&log)? == 3200 && said.as_slice().starts_with(verdict.as_bytes()))
}

#[test]
fn each_subscription_of_a_storm_has_its_notice(rt: HostRuntime) -> Result<(), Fail> {
    assert!(rt; is_weathered(&rt, rt.alloc(), "serial", "legal\ncausal yes\n")?);
    assert!(rt; is_weathered(&rt, rt.alloc(), "play 4", "legal\n")?);
    Ok(())
}
