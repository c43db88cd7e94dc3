use mama_dq::{
    Action, Callback, Calls, DqContext, MarketMsg, Msg, MsgKind, Phase, Quality, Relation,
    Strategy, SubKind, decide,
};
use mama_memory::OutOfMemory;
use mama_msg::{Field, Name, Value};
use std::alloc::Global;
use std::process::Abort;
use std::test::Fail;

fn put(body: &mut Msg, fid: u16, name: &[u8], value: u32) -> Result<(), Fail> {
    let name = Name::new(name).ok_or("no name")?;
    let field = Field::new(fid, name, Value::U32(value)).ok_or("no field")?;
    body.update(field)?;
    Ok(())
}

// Prices, 0 where the field is not there.
fn body(alloc: Global, bid: u32, ask: u32) -> Result<Msg, Fail> {
    let mut body = Msg::new(alloc);
    if bid != 0 {
        put(&mut body, 22, b"bid", bid)?;
    }
    if ask != 0 {
        put(&mut body, 25, b"ask", ask)?;
    }
    Ok(body)
}

fn write_fields(alloc: Global, text: &mut String, body: &Msg) -> Result<(), Fail> {
    for i in 0..body.len() {
        let field = body.at(i);
        let name = if field.fid() == 22 { "bid" } else { "ask" };
        let value = match field.value() {
            Value::U32(value) => *value,
            _ => 0,
        };
        text.push_str(format!(in alloc; " {name}={value}")?.as_str())?;
    }
    Ok(())
}

fn kind_word(kind: MsgKind) -> &'static str {
    match kind {
        MsgKind::Initial => "initial",
        MsgKind::Update => "update",
        MsgKind::Recap => "recap",
    }
}

fn quality_word(quality: Quality) -> &'static str {
    match quality {
        Quality::Ok => "ok",
        Quality::Stale => "stale",
    }
}

// A callback, with a bar at its end.
fn write_call(alloc: Global, text: &mut String, call: &Callback) -> Result<(), Fail> {
    match call {
        Callback::Msg { msg, quality } => {
            let kind = kind_word(msg.kind);
            let sender = msg.sender;
            let seq = msg.seq;
            let quality = quality_word(*quality);
            text.push_str(format!(in alloc; "msg {kind} {sender} {seq} {quality}")?.as_str())?;
            write_fields(alloc, text, &msg.body)?;
        }
        Callback::Gap { first, to } => {
            text.push_str(format!(in alloc; "gap {first} {to}")?.as_str())?;
        }
        Callback::Quality { quality, number } => {
            let quality = quality_word(*quality);
            text.push_str(format!(in alloc; "quality {quality} {number}")?.as_str())?;
        }
        Callback::RecapRequest { sender } => {
            text.push_str(format!(in alloc; "request {sender}")?.as_str())?;
        }
        Callback::Late { sender, seq } => {
            text.push_str(format!(in alloc; "late {sender} {seq}")?.as_str())?;
        }
        _ => text.push_str("other")?,
    }
    text.push_str("|")?;
    Ok(())
}

// The context's image, if it has one.
fn write_image(alloc: Global, text: &mut String, context: &DqContext) -> Result<(), Fail> {
    let Some(image) = context.image() else {
        return Ok(());
    };
    let quality = quality_word(context.quality());
    let sender = context.sender();
    let last = context.last();
    text.push_str(format!(in alloc; "image {quality} {sender} {last}")?.as_str())?;
    write_fields(alloc, text, image)?;
    text.push_str("|")?;
    Ok(())
}

// The callbacks, which are taken out, and the image; a dash where there is neither.
fn told(alloc: Global, context: &DqContext, calls: &mut Calls) -> Result<String, Fail> {
    let mut text = String::new(alloc);
    for _ in 0..calls.len() {
        if let Some(call) = calls.take_first() {
            write_call(alloc, &mut text, &call)?;
        }
    }
    write_image(alloc, &mut text, context)?;
    if text.is_empty() {
        text.push_str("-")?;
    }
    Ok(text)
}

// The first number of a row, and what stands behind the space.
fn numbered(row: &str) -> (u32, &str) {
    match row.split_once(' ') {
        Some((number, rest)) => (number.parse::<u32>().unwrap_or(0), rest),
        None => (row.parse::<u32>().unwrap_or(0), ""),
    }
}

fn kind_of(word: &str) -> MsgKind {
    if word == "initial" {
        MsgKind::Initial
    } else if word == "recap" {
        MsgKind::Recap
    } else {
        MsgKind::Update
    }
}

// A step with a message: its kind, and a row with its sender, its number and its two prices.
fn step(
    alloc: Global,
    context: &mut DqContext,
    calls: &mut Calls,
    kind: MsgKind,
    row: &str,
) -> Result<(), Fail> {
    let (sender, row) = numbered(row);
    let (seq, row) = numbered(row);
    let (bid, row) = numbered(row);
    let (ask, _) = numbered(row);
    let msg = MarketMsg {
        kind,
        sender,
        seq,
        body: body(alloc, bid, ask)?,
    };
    // Where no memory was found all is as before, so the step is made again.
    if context.step(&msg, calls).is_err() && context.step(&msg, calls).is_err() {
        return Err(Fail::new("a step is refused twice"));
    }
    Ok(())
}

// What a market context that stands so has taken: update 2 into its cache; an image at 5; update 7 after that; or, kept
// past the image, update 8 before it.
fn taken_by(word: &str) -> &'static str {
    if word == "await" {
        "update 1 2 102 0"
    } else if word == "ok" {
        "initial 1 5 105 0"
    } else if word == "stale" {
        "initial 1 5 105 0\nupdate 1 7 0 107"
    } else if word == "kept" {
        "update 1 8 0 108\ninitial 1 5 105 0"
    } else {
        ""
    }
}

// A context with a cache of 10 that stands so.
fn standing(alloc: Global, strategy: Strategy, word: &str) -> Result<DqContext, Fail> {
    let mut context = DqContext::new(alloc, SubKind::Market, 10, strategy);
    let mut calls = Calls::new(alloc);
    for row in taken_by(word).lines() {
        let (kind, rest) = row.split_once(' ').unwrap_or((row, ""));
        step(alloc, &mut context, &mut calls, kind_of(kind), rest)?;
    }
    Ok(context)
}

// The context that a row begins, if it begins one: one that stands, or a new one of a kind with a cache.
fn begun(
    alloc: Global,
    strategy: Strategy,
    word: &str,
    rest: &str,
) -> Result<Option<DqContext>, Fail> {
    let (cache, _) = numbered(rest);
    if word == "new" {
        Ok(Some(DqContext::new(alloc, SubKind::Market, cache, strategy)))
    } else if word == "snapshot" {
        Ok(Some(DqContext::new(alloc, SubKind::Snapshot, cache, strategy)))
    } else if word == "basic" {
        Ok(Some(DqContext::new(alloc, SubKind::Basic, cache, strategy)))
    } else if taken_by(word) != "" {
        Ok(Some(standing(alloc, strategy, word)?))
    } else {
        Ok(None)
    }
}

// Plays rows with a strategy. Each begins a context, is a message for it, or says what it has told since it began, and
// its image.
fn play(rt: &impl Abort, alloc: Global, strategy: Strategy, rows: &str) -> Result<(), Fail> {
    let mut context = DqContext::new(alloc, SubKind::Market, 0, strategy);
    let mut calls = Calls::new(alloc);
    for row in rows.lines() {
        let (word, rest) = row.split_once(' ').unwrap_or((row, ""));
        if word == "=" {
            assert_eq!(rt; told(alloc, &context, &mut calls)?.as_str(), rest);
        } else if let Some(next) = begun(alloc, strategy, word, rest)? {
            context = next;
        } else {
            step(alloc, &mut context, &mut calls, kind_of(word), rest)?;
        }
    }
    Ok(())
}

// Of each cell, a message, and its callbacks and the image after it. Messages of a context without an image are next,
// same, ahead and other to the number 0; no number is old to that. Of an old image of a stale context three: the cached
// update follows it, or does not, and one that lacks more than the cache has.
const STEPS: &str = "await
initial 1 1 101 0
= msg initial 1 1 ok bid=101|msg update 1 2 ok bid=102|image ok 1 2 bid=102|
await
update 1 1 101 0
= -
await
recap 1 0 100 0
= msg recap 1 0 ok bid=100|gap 1 1|quality stale 0|request 1|msg update 1 2 stale bid=102|image stale 1 2 bid=102|
await
update 1 0 100 0
= -
await
initial 1 2 0 102
= msg initial 1 2 ok ask=102|image ok 1 2 ask=102|
await
update 1 5 105 0
= -
await
initial 2 1 201 0
= msg initial 2 1 ok bid=201|image ok 2 1 bid=201|
await
update 2 1 201 0
= -
ok
recap 1 6 0 106
= msg recap 1 6 ok ask=106|image ok 1 6 ask=106|
ok
update 1 6 0 106
= msg update 1 6 ok ask=106|image ok 1 6 bid=105 ask=106|
ok
initial 1 5 0 105
= msg initial 1 5 ok ask=105|image ok 1 5 ask=105|
ok
update 1 5 0 105
= image ok 1 5 bid=105|
ok
recap 1 4 0 104
= image ok 1 5 bid=105|
ok
update 1 4 0 104
= image ok 1 5 bid=105|
ok
recap 1 8 0 108
= msg recap 1 8 ok ask=108|image ok 1 8 ask=108|
ok
update 1 8 0 108
= gap 6 7|quality stale 5|request 1|msg update 1 8 stale ask=108|image stale 1 8 bid=105 ask=108|
ok
initial 2 3 0 203
= msg initial 2 3 ok ask=203|image ok 2 3 ask=203|
ok
update 2 3 0 203
= quality stale 5|request 2|msg update 2 3 stale ask=203|image stale 2 3 bid=105 ask=203|
stale
recap 1 8 108 0
= msg recap 1 8 ok bid=108|quality ok 8|image ok 1 8 bid=108|
stale
update 1 8 108 0
= msg update 1 8 stale bid=108|image stale 1 8 bid=108 ask=107|
stale
recap 1 7 107 0
= msg recap 1 7 ok bid=107|quality ok 7|image ok 1 7 bid=107|
stale
update 1 7 107 0
= image stale 1 7 bid=105 ask=107|
stale
recap 1 6 106 0
= msg recap 1 6 ok bid=106|quality ok 7|image ok 1 7 bid=106 ask=107|
stale
recap 1 5 105 0
= request 1|image stale 1 7 bid=105 ask=107|
stale
update 1 6 106 0
= image stale 1 7 bid=105 ask=107|
stale
initial 1 10 110 0
= msg initial 1 10 ok bid=110|quality ok 10|image ok 1 10 bid=110|
stale
update 1 10 110 0
= gap 8 9|msg update 1 10 stale bid=110|image stale 1 10 bid=110 ask=107|
stale
initial 2 3 203 0
= msg initial 2 3 ok bid=203|quality ok 3|image ok 2 3 bid=203|
stale
update 2 3 203 0
= request 2|msg update 2 3 stale bid=203|image stale 2 3 bid=203 ask=107|
stale
initial 1 0 100 0
= request 1|image stale 1 7 bid=105 ask=107|
";

#[test]
fn each_cell_steps(rt: HostRuntime) -> Result<(), Fail> {
    play(&rt, rt.alloc(), Strategy::One, STEPS)
}

// An update is lost, and the recap heals; an update comes after the next one; a cache of 10 drops the first five updates
// before the image; the first recap does not reach the last update; no recap comes; the sender changes, and changes
// back; a cache of size 0 keeps nothing; one of size 1 keeps the highest number; the cache held the updates that the
// first recap lacks; another sender's updates are dropped.
const LISTS: &str = "new 10
initial 1 0 100 0
update 1 1 101 0
update 1 3 102 0
recap 1 3 102 103
update 1 4 0 104
= msg initial 1 0 ok bid=100|msg update 1 1 ok bid=101|gap 2 2|quality stale 1|request 1|msg update 1 3 stale bid=102|msg recap 1 3 ok bid=102 ask=103|quality ok 3|msg update 1 4 ok ask=104|image ok 1 4 bid=102 ask=104|
new 10
initial 1 0 100 0
update 1 2 0 103
update 1 1 101 0
recap 1 2 101 103
update 1 3 102 0
= msg initial 1 0 ok bid=100|gap 1 1|quality stale 0|request 1|msg update 1 2 stale ask=103|msg recap 1 2 ok bid=101 ask=103|quality ok 2|msg update 1 3 ok bid=102|image ok 1 3 bid=102 ask=103|
new 10
update 1 11 11 0
update 1 12 12 0
update 1 13 13 0
update 1 14 14 0
update 1 15 15 0
update 1 16 16 0
update 1 17 17 0
update 1 18 18 0
update 1 19 19 0
update 1 20 20 0
update 1 21 21 0
update 1 22 22 0
update 1 23 23 0
update 1 24 24 0
update 1 25 25 0
initial 1 10 10 0
recap 1 25 25 0
= msg initial 1 10 ok bid=10|gap 11 15|quality stale 10|request 1|msg update 1 16 stale bid=16|msg update 1 17 stale bid=17|msg update 1 18 stale bid=18|msg update 1 19 stale bid=19|msg update 1 20 stale bid=20|msg update 1 21 stale bid=21|msg update 1 22 stale bid=22|msg update 1 23 stale bid=23|msg update 1 24 stale bid=24|msg update 1 25 stale bid=25|msg recap 1 25 ok bid=25|quality ok 25|image ok 1 25 bid=25|
new 10
initial 1 0 100 0
update 1 1 101 0
update 1 3 102 0
update 1 5 105 0
recap 1 3 102 103
recap 1 5 105 104
= msg initial 1 0 ok bid=100|msg update 1 1 ok bid=101|gap 2 2|quality stale 1|request 1|msg update 1 3 stale bid=102|gap 4 4|msg update 1 5 stale bid=105|request 1|msg recap 1 5 ok bid=105 ask=104|quality ok 5|image ok 1 5 bid=105 ask=104|
new 10
initial 1 0 100 0
update 1 1 101 0
update 1 3 102 0
update 1 4 0 104
= msg initial 1 0 ok bid=100|msg update 1 1 ok bid=101|gap 2 2|quality stale 1|request 1|msg update 1 3 stale bid=102|msg update 1 4 stale ask=104|image stale 1 4 bid=102 ask=104|
new 10
initial 1 0 100 0
update 2 1 201 0
recap 2 1 201 0
recap 1 0 100 0
= msg initial 1 0 ok bid=100|quality stale 0|request 2|msg update 2 1 stale bid=201|msg recap 2 1 ok bid=201|quality ok 1|msg recap 1 0 ok bid=100|image ok 1 0 bid=100|
new 0
update 1 1 101 0
update 1 2 0 103
initial 1 0 100 0
update 1 3 102 0
recap 1 3 102 103
= msg initial 1 0 ok bid=100|gap 1 2|quality stale 0|request 1|msg update 1 3 stale bid=102|msg recap 1 3 ok bid=102 ask=103|quality ok 3|image ok 1 3 bid=102 ask=103|
new 1
update 1 2 102 0
update 1 1 101 0
initial 1 0 100 0
= msg initial 1 0 ok bid=100|gap 1 1|quality stale 0|request 1|msg update 1 2 stale bid=102|image stale 1 2 bid=102|
new 2
update 1 4 4 0
update 1 5 5 0
update 1 6 6 0
initial 1 3 3 0
recap 1 4 4 0
= msg initial 1 3 ok bid=3|gap 4 4|quality stale 3|request 1|msg update 1 5 stale bid=5|msg update 1 6 stale bid=6|msg recap 1 4 ok bid=4|quality ok 6|image ok 1 6 bid=6|
new 10
update 1 1 101 0
update 2 1 201 0
initial 2 0 200 0
= msg initial 2 0 ok bid=200|msg update 2 1 ok bid=201|image ok 2 1 bid=201|
";

#[test]
fn lists_of_messages_are_told(rt: HostRuntime) -> Result<(), Fail> {
    play(&rt, rt.alloc(), Strategy::One, LISTS)
}

const KINDS: &str = "new 10
initial 1 0 100 0
update 1 1 101 0
update 1 2 0 103
update 1 3 102 0
= msg initial 1 0 ok bid=100|msg update 1 1 ok bid=101|msg update 1 2 ok ask=103|msg update 1 3 ok bid=102|image ok 1 3 bid=102 ask=103|
snapshot 10
initial 1 0 100 0
update 1 1 101 0
update 1 2 0 103
update 1 3 102 0
= msg initial 1 0 ok bid=100|image ok 1 0 bid=100|
basic 10
update 1 5 105 0
update 1 1 101 0
= msg update 1 5 ok bid=105|msg update 1 1 ok bid=101|
";

#[test]
fn kinds_differ(rt: HostRuntime) -> Result<(), Fail> {
    play(&rt, rt.alloc(), Strategy::One, KINDS)?;
    play(&rt, rt.alloc(), Strategy::Two, KINDS)
}

// Of each cell in which the second strategy does something else, a message, and its callbacks and the image after it. Then:
// a full cache had dropped 4, and all is told at the first gap; the kept updates close a gap, and the kept one of two with
// one number counts; a kept update is used once; what an image message or the next update reaches is kept no more; another
// sender's image and update drop what was kept; a late update helps to heal.
const SECOND: &str = "await
initial 1 1 101 0
= msg initial 1 1 ok bid=101|image ok 1 1 bid=101|
await
initial 2 1 201 0
= msg initial 2 1 ok bid=201|image ok 2 1 bid=201|
ok
update 1 5 0 105
= late 1 5|image ok 1 5 bid=105|
ok
update 1 4 0 104
= late 1 4|image ok 1 5 bid=105|
stale
update 1 7 107 0
= late 1 7|image stale 1 7 bid=105 ask=107|
stale
update 1 6 106 0
= late 1 6|image stale 1 7 bid=105 ask=107|
recap 1 5 105 0
= msg recap 1 5 ok bid=105|quality ok 7|image ok 1 7 bid=106 ask=107|
kept
update 1 5 0 105
= late 1 5|image ok 1 5 bid=105|
kept
update 1 4 0 104
= late 1 4|image ok 1 5 bid=105|
kept
update 1 7 0 107
= gap 6 6|quality stale 5|request 1|msg update 1 7 stale ask=107|msg update 1 8 stale ask=108|image stale 1 8 bid=105 ask=108|
kept
update 1 9 109 0
= gap 6 7|quality stale 5|request 1|msg update 1 8 stale ask=108|msg update 1 9 stale bid=109|image stale 1 9 bid=109 ask=108|
kept
update 1 6 0 106
= msg update 1 6 ok ask=106|image ok 1 6 bid=105 ask=106|
update 1 7 0 107
= msg update 1 7 ok ask=107|image ok 1 7 bid=105 ask=107|
update 1 9 109 0
= msg update 1 8 ok ask=108|msg update 1 9 ok bid=109|image ok 1 9 bid=109 ask=108|
update 1 11 111 0
= gap 10 10|quality stale 9|request 1|msg update 1 11 stale bid=111|image stale 1 11 bid=111 ask=108|
kept
recap 1 4 104 0
= image ok 1 5 bid=105|
recap 1 7 107 0
update 1 10 110 0
= msg recap 1 7 ok bid=107|msg update 1 8 ok ask=108|gap 9 9|quality stale 8|request 1|msg update 1 10 stale bid=110|image stale 1 10 bid=110 ask=108|
kept
recap 1 8 108 0
update 1 10 110 0
= msg recap 1 8 ok bid=108|gap 9 9|quality stale 8|request 1|msg update 1 10 stale bid=110|image stale 1 10 bid=110|
kept
initial 2 3 203 0
update 2 5 205 0
= msg initial 2 3 ok bid=203|gap 4 4|quality stale 3|request 2|msg update 2 5 stale bid=205|image stale 2 5 bid=205|
kept
update 2 3 0 203
recap 2 3 203 0
= quality stale 5|request 2|msg update 2 3 stale ask=203|msg recap 2 3 ok bid=203|quality ok 3|image ok 2 3 bid=203|
new 2
update 1 4 4 0
update 1 5 5 0
update 1 6 6 0
initial 1 3 3 0
update 1 7 7 0
recap 1 4 4 0
recap 1 7 7 0
update 1 6 6 0
= msg initial 1 3 ok bid=3|gap 4 4|quality stale 3|request 1|msg update 1 5 stale bid=5|msg update 1 6 stale bid=6|msg update 1 7 stale bid=7|request 1|msg recap 1 7 ok bid=7|quality ok 7|late 1 6|image ok 1 7 bid=7|
new 10
update 1 11 11 0
update 1 12 12 0
initial 1 10 10 0
update 1 12 0 12
= msg initial 1 10 ok bid=10|msg update 1 11 ok bid=11|msg update 1 12 ok bid=12|image ok 1 12 bid=12|
";

#[test]
fn the_second_strategy_keeps_early_updates(rt: HostRuntime) -> Result<(), Fail> {
    play(&rt, rt.alloc(), Strategy::Two, SECOND)
}

// A step that is told no clause.
fn step_once(
    context: &mut DqContext,
    calls: &mut Calls,
    msg: &MarketMsg,
) -> Result<(), OutOfMemory> {
    context.step(msg, calls)
}

// A step with a message of sender 1 that has its number for a price.
fn step_by(
    alloc: Global,
    context: &mut DqContext,
    calls: &mut Calls,
    kind: MsgKind,
    seq: u32,
) -> Result<(), Fail> {
    let msg = MarketMsg {
        kind,
        sender: 1,
        seq,
        body: body(alloc, seq, 0)?,
    };
    Ok(step_once(context, calls, &msg)?)
}

// So many updates, which are cached, and then the image before them. How many callbacks it makes.
fn step_all(
    rt: &impl Abort,
    alloc: Global,
    context: &mut DqContext,
    calls: &mut Calls,
    most: u32,
) -> Result<usize, Fail> {
    for seq in 1..=most {
        step_by(alloc, context, calls, MsgKind::Update, seq)?;
    }
    assert!(rt; calls.is_empty());
    assert_eq!(rt; context.last(), 0);
    assert_eq!(rt; context.sender(), 0);
    step_by(alloc, context, calls, MsgKind::Initial, 0)?;
    assert_eq!(rt; context.last(), most);
    Ok(calls.len())
}

// How many callbacks are made by the image before so many updates, for which there is the largest cache.
fn told_of(rt: &impl Abort, alloc: Global, most: u32) -> Result<usize, Fail> {
    let mut context = DqContext::new(alloc, SubKind::Market, 4096, Strategy::One);
    let mut calls = Calls::new(alloc);
    step_all(rt, alloc, &mut context, &mut calls, most)
}

#[test]
fn the_largest_cache_drops_the_lowest_number(rt: HostRuntime) -> Result<(), Fail> {
    for (most, lines) in [(4096, 4097), (4097, 4100)] {
        // each cached update, the first image, and of a gap three callbacks more
        assert_eq!(rt; told_of(&rt, rt.alloc(), most)?, lines, "of {most}");
    }
    Ok(())
}

// A row of a table: in a phase, the actions for updates or for image messages, next, same, old, ahead and other.
fn has_actions(
    rt: &impl Abort,
    strategy: Strategy,
    phase: Phase,
    update: bool,
    actions: [Action; 5],
) {
    let relations = [
        Relation::Next,
        Relation::Same,
        Relation::Old,
        Relation::Ahead,
        Relation::Other,
    ];
    for (i, action) in actions.iter().enumerate() {
        assert_eq!(rt;
            decide(strategy, phase, relations[i], update),
            *action,
            "{strategy:?} {phase:?} {i} {update}"
        );
    }
}

// The actions of a row, by their names.
macro_rules! row {
    ($rt:expr, $strategy:ident $phase:ident $update:literal: $($action:ident)*) => {
        has_actions($rt, Strategy::$strategy, Phase::$phase, $update, [$(Action::$action),*])
    };
}

#[test]
fn each_cell_has_its_action(rt: HostRuntime) {
    row!(&rt, One Await false: Start Start Start Start Start);
    row!(&rt, One Await true: Keep Keep Keep Keep Keep);
    row!(&rt, One LiveOk false: Replace Replace Ignore Replace Adopt);
    row!(&rt, One LiveOk true: Apply Ignore Ignore Gap Switch);
    row!(&rt, One LiveStale false: Heal Heal Heal Heal Adopt);
    row!(&rt, One LiveStale true: ApplyKeep KeepOnly KeepOnly Gap Switch);
    row!(&rt, One LiveKept false: Replace Replace Ignore Replace Adopt);
    row!(&rt, One LiveKept true: Apply Ignore Ignore Gap Switch);
    row!(&rt, Two Await false: StartKeep StartKeep StartKeep StartKeep StartKeep);
    row!(&rt, Two Await true: Keep Keep Keep Keep Keep);
    row!(&rt, Two LiveOk false: Replace Replace Ignore Replace Adopt);
    row!(&rt, Two LiveOk true: Apply Late Late Gap Switch);
    row!(&rt, Two LiveStale false: Heal Heal Heal Heal Adopt);
    row!(&rt, Two LiveStale true: ApplyKeep KeepLate KeepLate Gap Switch);
    row!(&rt, Two LiveKept false: Replace Replace Ignore Replace Adopt);
    row!(&rt, Two LiveKept true: Apply Late Late Catch Switch);
}
