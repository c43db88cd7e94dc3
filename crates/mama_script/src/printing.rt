//! Scripts to their text.
ghost use Rattle.std.specs.Prelude.{◌≡◌, ◌∷◌, ◌++◌, [], IfOk, OnOk};
ghost use Rattle.std.specs.List.{flat_map};
ghost use Rattle.mama_edge.specs.Decimal.{decimal};
ghost use Rattle.mama_words.specs.Sentence.{spaced};
ghost use Rattle.mama_words.specs.Order.{word_of};
ghost use Rattle.mama_script.specs.Line.{ended, queue_text};
ghost use Rattle.mama_script.specs.Reading.{first_line};
ghost use Rattle.mama_script.specs.declared.line.Line.TheVariants as lines;
ghost use Rattle.mama_script.specs.Tree as tree;
ghost use Rattle.mama_script.specs.Text as texts;

use crate::client::{ClientLine, ClientLines, QueueWord};
use crate::plan::Plan;
use crate::publisher::{PublisherLine, PublisherPart};
use crate::script::Script;
use mama_edge::{print_quoted, print_u64};
use mama_event::{GroupRow, Order, PlanRow, Strategy, SubId, SubKind, WatchRow};
use mama_link::{Fault, FaultRow};
use mama_memory::OutOfMemory;
use mama_msg::{Msg, TextValue};
use mama_words::{
    Version, print_fields, print_order, print_strategy, print_sub_id, print_sub_kind,
    print_timer_id,
};
use std::alloc::Global;

/// The one text that is read as this script.
pub fn print(alloc: Global, script: &Script) -> Result<Vec<u8>, OutOfMemory>
    ensures { IfOk result (λ text. text.items ≡ tree.script_text script.now) }
{
    let mut out = Vec::new(alloc);
    put_first_line(script.version(), &mut out)?;
    put_strategy(script.version(), script.shape().strategy, &mut out)?;
    put_queues(script.shape().bounds.queues, &mut out)?;
    put_topics(script.topics(), &mut out)?;
    put_publishers(script.publishers(), &mut out)?;
    put_clients(script.clients(), &mut out)?;
    put_groups(script.groups(), &mut out)?;
    put_watches(script.watches(), &mut out)?;
    Ok(out)
}

fn put_first_line(version: Version, out: &mut Vec<u8>) -> Result<(), OutOfMemory>
    ensures { OnOk result (out.new.items ≡ out.old.items ++ (first_line version ++ 10 ∷ [])) }
{
    match version {
        Version::One => Ok(out.extend_from_slice(b"mama script 1\n")?),
        Version::Two => Ok(out.extend_from_slice(b"mama script 2\n")?),
    }
}

// The line that tells the strategy, which version 1 has not.
fn put_strategy(version: Version, strategy: Strategy, out: &mut Vec<u8>) -> Result<(), OutOfMemory>
    ensures { OnOk result (out.new.items ≡ out.old.items ++ flat_map ended (tree.strategy_lines version strategy)) }
{
    match version {
        Version::One => Ok(()),
        Version::Two => put_strategy_line(strategy, out),
    }
}

fn put_strategy_line(strategy: Strategy, out: &mut Vec<u8>) -> Result<(), OutOfMemory>
    ensures { OnOk result (out.new.items ≡ out.old.items ++ flat_map ended (lines.Strategy strategy ∷ [])) }
{
    out.extend_from_slice(b"strategy ")?;
    print_strategy(strategy, out)?;
    out.push(b'\n')?;
    Ok(())
}

fn put_queues(queues: u32, out: &mut Vec<u8>) -> Result<(), OutOfMemory>
    ensures { OnOk result (out.new.items ≡ out.old.items ++ ended (lines.Queues queues)) }
{
    out.extend_from_slice(b"queues")?;
    put_number(u64::from(queues), out)?;
    out.push(b'\n')?;
    Ok(())
}

fn put_number(number: u64, out: &mut Vec<u8>) -> Result<(), OutOfMemory>
    ensures { OnOk result (out.new.items ≡ out.old.items ++ spaced (decimal number)) }
{
    out.push(b' ')?;
    print_u64(number, out)
}

fn put_topics(topics: &[TextValue], out: &mut Vec<u8>) -> Result<(), OutOfMemory>
    ensures { OnOk result (out.new.items ≡ out.old.items ++ flat_map texts.topic_text topics.now) }
{
    for name in topics {
        put_topic(name, out)?;
    }
    Ok(())
}

fn put_topic(name: &TextValue, out: &mut Vec<u8>) -> Result<(), OutOfMemory>
    ensures { OnOk result (out.new.items ≡ out.old.items ++ texts.topic_text name.now) }
{
    out.extend_from_slice(b"topic ")?;
    print_quoted(name.bytes(), out)?;
    out.push(b'\n')?;
    Ok(())
}

fn put_publishers(parts: &[PublisherPart], out: &mut Vec<u8>) -> Result<(), OutOfMemory>
    ensures { OnOk result (out.new.items ≡ out.old.items ++ flat_map texts.publisher_text parts.now) }
{
    for part in parts {
        put_publisher(part, out)?;
    }
    Ok(())
}

fn put_publisher(part: &PublisherPart, out: &mut Vec<u8>) -> Result<(), OutOfMemory>
    ensures { OnOk result (out.new.items ≡ out.old.items ++ texts.publisher_text part.now) }
{
    put_base(part.topic, &part.base, out)?;
    put_sends(part.lines.as_slice(), out)?;
    Ok(())
}

fn put_base(topic: u32, base: &Msg, out: &mut Vec<u8>) -> Result<(), OutOfMemory>
    ensures { OnOk result (out.new.items ≡ out.old.items ++ ended (lines.Publisher topic base.now)) }
{
    out.extend_from_slice(b"publisher")?;
    put_number(u64::from(topic), out)?;
    print_fields(base, out)?;
    out.push(b'\n')?;
    Ok(())
}

fn put_sends(sends: &[PublisherLine], out: &mut Vec<u8>) -> Result<(), OutOfMemory>
    ensures { OnOk result (out.new.items ≡ out.old.items ++ flat_map texts.send_text sends.now) }
{
    for line in sends {
        put_send(line, out)?;
    }
    Ok(())
}

fn put_send(line: &PublisherLine, out: &mut Vec<u8>) -> Result<(), OutOfMemory>
    ensures { OnOk result (out.new.items ≡ out.old.items ++ texts.send_text line.now) }
{
    match line {
        PublisherLine::Update(update) => put_update(update, out),
        PublisherLine::Recap => Ok(out.extend_from_slice(b"recap\n")?),
        PublisherLine::Pause(rounds) => put_pause(*rounds, out),
    }
}

fn put_update(update: &Msg, out: &mut Vec<u8>) -> Result<(), OutOfMemory>
    ensures { OnOk result (out.new.items ≡ out.old.items ++ ended (lines.Update update.now)) }
{
    out.extend_from_slice(b"update")?;
    print_fields(update, out)?;
    out.push(b'\n')?;
    Ok(())
}

fn put_pause(rounds: u32, out: &mut Vec<u8>) -> Result<(), OutOfMemory>
    ensures { OnOk result (out.new.items ≡ out.old.items ++ ended (lines.Pause rounds)) }
{
    out.extend_from_slice(b"pause")?;
    put_number(u64::from(rounds), out)?;
    out.push(b'\n')?;
    Ok(())
}

fn put_clients(clients: &[ClientLines], out: &mut Vec<u8>) -> Result<(), OutOfMemory>
    ensures { OnOk result (out.new.items ≡ out.old.items ++ flat_map texts.client_text clients.now) }
{
    for client in clients {
        put_client(client, out)?;
    }
    Ok(())
}

fn put_client(client: &ClientLines, out: &mut Vec<u8>) -> Result<(), OutOfMemory>
    ensures { OnOk result (out.new.items ≡ out.old.items ++ texts.client_text client.now) }
{
    out.extend_from_slice(b"client\n")?;
    put_steps(client.as_slice(), out)?;
    Ok(())
}

fn put_steps(steps: &[ClientLine], out: &mut Vec<u8>) -> Result<(), OutOfMemory>
    ensures { OnOk result (out.new.items ≡ out.old.items ++ flat_map texts.step_text steps.now) }
{
    for step in steps {
        put_step(step, out)?;
    }
    Ok(())
}

fn put_step(step: &ClientLine, out: &mut Vec<u8>) -> Result<(), OutOfMemory>
    ensures { OnOk result (out.new.items ≡ out.old.items ++ texts.step_text step.now) }
{
    match step {
        ClientLine::Sub {
            topic,
            kind,
            queue,
            cache,
            recaps,
            faults,
            plan,
        } => {
            put_sub(*topic, *kind, *queue, *cache, *recaps, out)?;
            put_object(faults.rows(), plan, out)
        }
        ClientLine::Timer {
            queue,
            interval,
            plan,
        } => {
            put_timer(*queue, *interval, out)?;
            put_object(&[], plan, out)
        }
        ClientLine::Inbox {
            queue,
            faults,
            plan,
        } => {
            put_inbox(*queue, out)?;
            put_object(faults.rows(), plan, out)
        }
        ClientLine::Order(order) => put_order_line(order, out),
        ClientLine::Now(moment) => put_now(*moment, out),
        ClientLine::NowClock => Ok(out.extend_from_slice(b"now clock\n")?),
        ClientLine::Pause(rounds) => put_pause(*rounds, out),
    }
}

fn put_order_line(order: &Order, out: &mut Vec<u8>) -> Result<(), OutOfMemory>
    ensures { OnOk result (out.new.items ≡ out.old.items ++ ended (lines.Order (word_of order.now))) }
{
    print_order(order, out)?;
    out.push(b'\n')?;
    Ok(())
}

fn put_now(moment: u64, out: &mut Vec<u8>) -> Result<(), OutOfMemory>
    ensures { OnOk result (out.new.items ≡ out.old.items ++ ended (lines.Now moment)) }
{
    out.extend_from_slice(b"now")?;
    put_number(moment, out)?;
    out.push(b'\n')?;
    Ok(())
}

fn put_queue(queue: QueueWord, out: &mut Vec<u8>) -> Result<(), OutOfMemory>
    ensures { OnOk result (out.new.items ≡ out.old.items ++ spaced (queue_text (tree.queue_name queue))) }
{
    match queue {
        QueueWord::Number(queue) => put_number(u64::from(queue), out),
        QueueWord::Any => Ok(out.extend_from_slice(b" any")?),
    }
}

fn put_sub(
    topic: u32,
    kind: SubKind,
    queue: QueueWord,
    cache: u32,
    recaps: u32,
    out: &mut Vec<u8>,
) -> Result<(), OutOfMemory>
    ensures { OnOk result (out.new.items ≡ out.old.items ++ ended (lines.Sub topic kind (tree.queue_name queue) cache recaps)) }
{
    out.extend_from_slice(b"sub")?;
    put_number(u64::from(topic), out)?;
    out.push(b' ')?;
    print_sub_kind(kind, out)?;
    put_queue(queue, out)?;
    put_number(u64::from(cache), out)?;
    put_number(u64::from(recaps), out)?;
    out.push(b'\n')?;
    Ok(())
}

fn put_timer(queue: QueueWord, interval: u32, out: &mut Vec<u8>) -> Result<(), OutOfMemory>
    ensures { OnOk result (out.new.items ≡ out.old.items ++ ended (lines.Timer (tree.queue_name queue) interval)) }
{
    out.extend_from_slice(b"timer")?;
    put_queue(queue, out)?;
    put_number(u64::from(interval), out)?;
    out.push(b'\n')?;
    Ok(())
}

fn put_inbox(queue: QueueWord, out: &mut Vec<u8>) -> Result<(), OutOfMemory>
    ensures { OnOk result (out.new.items ≡ out.old.items ++ ended (lines.Inbox (tree.queue_name queue))) }
{
    out.extend_from_slice(b"inbox")?;
    put_queue(queue, out)?;
    out.push(b'\n')?;
    Ok(())
}

// The faults and the plan of an object.
fn put_object(faults: &[FaultRow], plan: &Plan, out: &mut Vec<u8>) -> Result<(), OutOfMemory>
    ensures { OnOk result (out.new.items ≡ out.old.items ++ texts.object_text faults.now plan.now) }
{
    put_faults(faults, out)?;
    put_plan(plan.rows(), out)?;
    Ok(())
}

fn put_faults(rows: &[FaultRow], out: &mut Vec<u8>) -> Result<(), OutOfMemory>
    ensures { OnOk result (out.new.items ≡ out.old.items ++ flat_map texts.fault_text rows.now) }
{
    for row in rows {
        put_fault(*row, out)?;
    }
    Ok(())
}

fn put_fault(row: FaultRow, out: &mut Vec<u8>) -> Result<(), OutOfMemory>
    ensures { OnOk result (out.new.items ≡ out.old.items ++ texts.fault_text row) }
{
    match row.fault {
        Fault::Lose => put_short_fault(b"fault lose", row.index, out),
        Fault::Dup => put_short_fault(b"fault dup", row.index, out),
        Fault::Hold(by) => put_long_fault(b"fault hold", row.index, by, out),
        Fault::Cut(keep) => put_long_fault(b"fault cut", row.index, keep, out),
    }
}

fn put_short_fault(head: &[u8], index: u32, out: &mut Vec<u8>) -> Result<(), OutOfMemory>
    ensures { OnOk result (out.new.items ≡ out.old.items ++ (head.now ++ (spaced (decimal index) ++ 10 ∷ []))) }
{
    out.extend_from_slice(head)?;
    put_number(u64::from(index), out)?;
    out.push(b'\n')?;
    Ok(())
}

fn put_long_fault(
    head: &[u8],
    index: u32,
    number: u32,
    out: &mut Vec<u8>,
) -> Result<(), OutOfMemory>
    ensures { OnOk result (out.new.items ≡ out.old.items ++ (head.now ++ (spaced (decimal index) ++ (spaced (decimal number) ++ 10 ∷ [])))) }
{
    out.extend_from_slice(head)?;
    put_number(u64::from(index), out)?;
    put_number(u64::from(number), out)?;
    out.push(b'\n')?;
    Ok(())
}

fn put_plan(rows: &[PlanRow], out: &mut Vec<u8>) -> Result<(), OutOfMemory>
    ensures { OnOk result (out.new.items ≡ out.old.items ++ flat_map texts.plan_text rows.now) }
{
    for row in rows {
        put_at(row, out)?;
    }
    Ok(())
}

fn put_at(row: &PlanRow, out: &mut Vec<u8>) -> Result<(), OutOfMemory>
    ensures { OnOk result (out.new.items ≡ out.old.items ++ texts.plan_text row.now) }
{
    out.extend_from_slice(b"at")?;
    put_number(u64::from(row.call), out)?;
    out.push(b' ')?;
    print_order(&row.order, out)?;
    out.push(b'\n')?;
    Ok(())
}

fn put_groups(groups: &[GroupRow], out: &mut Vec<u8>) -> Result<(), OutOfMemory>
    ensures { OnOk result (out.new.items ≡ out.old.items ++ flat_map texts.group_text groups.now) }
{
    for row in groups {
        put_group(row, out)?;
    }
    Ok(())
}

fn put_group(row: &GroupRow, out: &mut Vec<u8>) -> Result<(), OutOfMemory>
    ensures { OnOk result (out.new.items ≡ out.old.items ++ texts.group_text row.now) }
{
    out.extend_from_slice(b"group")?;
    put_members(row.members.as_slice(), out)?;
    out.push(b'\n')?;
    Ok(())
}

fn put_members(members: &[SubId], out: &mut Vec<u8>) -> Result<(), OutOfMemory>
    ensures { OnOk result (out.new.items ≡ out.old.items ++ flat_map texts.member_text members.now) }
{
    for sub in members {
        put_member(*sub, out)?;
    }
    Ok(())
}

fn put_member(sub: SubId, out: &mut Vec<u8>) -> Result<(), OutOfMemory>
    ensures { OnOk result (out.new.items ≡ out.old.items ++ texts.member_text sub) }
{
    out.push(b' ')?;
    print_sub_id(sub, out)
}

fn put_watches(watches: &[WatchRow], out: &mut Vec<u8>) -> Result<(), OutOfMemory>
    ensures { OnOk result (out.new.items ≡ out.old.items ++ flat_map texts.watch_text watches.now) }
{
    for row in watches {
        put_watch(row, out)?;
    }
    Ok(())
}

fn put_watch(row: &WatchRow, out: &mut Vec<u8>) -> Result<(), OutOfMemory>
    ensures { OnOk result (out.new.items ≡ out.old.items ++ texts.watch_text row.now) }
{
    out.extend_from_slice(b"watch ")?;
    print_sub_id(row.sub, out)?;
    out.push(b' ')?;
    print_timer_id(row.timer, out)?;
    put_number(u64::from(row.retries), out)?;
    out.push(b'\n')?;
    Ok(())
}
