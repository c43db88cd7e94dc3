//! The text of a script, written as its parts are drawn.
ghost use Rattle.std.specs.Prelude.{◌≡◌, ◌<◌, ◌≤◌, ◌+◌, ◌∷◌, ◌++◌, [], ℕ, codes, map, IfOk, OnOk};
ghost use Rattle.std.specs.List.{flat_map, range_with_len};
ghost use Rattle.mama_edge.specs.Decimal.{decimal};
ghost use Rattle.mama_words.specs.Sentence.{spaced};
ghost use Rattle.mama_words.specs.Field.{spaced_field};
ghost use Rattle.mama_link.specs.declared.faults.Fault.TheVariants as faults;
ghost use Rattle.mama_event.specs.declared.market.SubKind.TheVariants.{Market};
ghost use Rattle.mama_script.specs.declared.line.Line.TheVariants as lines;
ghost use Rattle.mama_script.specs.declared.line.QueueName.TheVariants.{Any};
ghost use Rattle.mama_script.specs.Line.{ended};
ghost use Rattle.mama_script.specs.Tree as tree;
ghost use Rattle.mama_gen.specs.Draws.{each};
ghost use Rattle.mama_gen.specs.Generated as drawn;

use crate::draws::Draws;
use mama_edge::{print_quoted, print_u64};
use mama_memory::OutOfMemory;
use std::alloc::Global;

/// The text of the script that the draws from this seed make.
pub fn generated(alloc: Global, seed: u64) -> Result<Vec<u8>, OutOfMemory>
    ensures { IfOk result (λ text. text.items ≡ drawn.generated seed) }
{
    let mut draws = Draws::new(seed);
    let mut out = Vec::new(alloc);
    out.extend_from_slice(b"mama script 1\nqueues 4\n")?;
    put_topics(&mut out)?;
    put_publishers(&mut draws, &mut out)?;
    put_clients(&mut draws, &mut out)?;
    Ok(out)
}

fn put_number(number: u64, out: &mut Vec<u8>) -> Result<(), OutOfMemory>
    ensures { OnOk result (out.new.items ≡ out.old.items ++ spaced (decimal number)) }
{
    out.push(b' ')?;
    print_u64(number, out)
}

fn put_topics(out: &mut Vec<u8>) -> Result<(), OutOfMemory>
    ensures { OnOk result (out.new.items ≡ out.old.items ++ flat_map ended (map tree.topic_line (map drawn.topic_name (range_with_len 0 16)))) }
{
    for topic in 0..16u8 {
        put_topic(topic, out)?;
    }
    Ok(())
}

fn put_topic(topic: u8, out: &mut Vec<u8>) -> Result<(), OutOfMemory>
    requires { topic < 100 }
    ensures { OnOk result (out.new.items ≡ out.old.items ++ ended (lines.Topic (drawn.topic_name topic))) }
{
    let name = [b'S', b'Y', b'M', b'.', b'0' + topic / 10, b'0' + topic % 10];
    out.extend_from_slice(b"topic ")?;
    print_quoted(&name, out)?;
    out.push(b'\n')?;
    Ok(())
}

fn put_publishers(draws: &mut Draws, out: &mut Vec<u8>) -> Result<(), OutOfMemory>
    ensures text { OnOk result (out.new.items ≡ out.old.items ++ flat_map ended (flat_map tree.publisher_lines (each 16 drawn.publisher draws.old).0)) }
    ensures state { OnOk result (draws.new ≡ (each 16 drawn.publisher draws.old).1) }
{
    for topic in 0..16u64 {
        put_publisher(topic, draws, out)?;
    }
    Ok(())
}

fn put_publisher(topic: u64, draws: &mut Draws, out: &mut Vec<u8>) -> Result<(), OutOfMemory>
    ensures text { OnOk result (out.new.items ≡ out.old.items ++ flat_map ended (tree.publisher_lines (drawn.publisher topic draws.old).0)) }
    ensures state { OnOk result (draws.new ≡ (drawn.publisher topic draws.old).1) }
{
    put_base(topic, draws, out)?;
    put_updates(draws, out)?;
    Ok(())
}

fn put_base(topic: u64, draws: &mut Draws, out: &mut Vec<u8>) -> Result<(), OutOfMemory>
    ensures text { OnOk result (out.new.items ≡ out.old.items ++ ended (lines.Publisher topic (drawn.base draws.old).0)) }
    ensures state { OnOk result (draws.new ≡ (drawn.base draws.old).1) }
{
    out.extend_from_slice(b"publisher")?;
    put_number(topic, out)?;
    put_field(0, draws, out)?;
    put_field(1, draws, out)?;
    put_field(2, draws, out)?;
    out.push(b'\n')?;
    Ok(())
}

// The field of this number, with a value that is drawn.
fn put_field(number: u64, draws: &mut Draws, out: &mut Vec<u8>) -> Result<(), OutOfMemory>
    ensures text { OnOk result (out.new.items ≡ out.old.items ++ spaced_field (drawn.field number (drawn.value draws.old).0)) }
    ensures state { OnOk result (draws.new ≡ (drawn.value draws.old).1) }
{
    let value = 1000 + draws.draw(1000);
    out.extend_from_slice(field_head(number))?;
    print_u64(value, out)
}

// What stands before the value of the field of this number.
fn field_head(number: u64) -> &'static [u8]
    ensures { (value : ℕ) → result.now ++ decimal value ≡ spaced_field (drawn.field number value) }
{
    match number {
        0 => b" 1:bid:u32:",
        1 => b" 2:ask:u32:",
        _ => b" 3:size:u32:",
    }
}

fn put_updates(draws: &mut Draws, out: &mut Vec<u8>) -> Result<(), OutOfMemory>
    ensures text { OnOk result (out.new.items ≡ out.old.items ++ flat_map ended (map tree.publisher_line (each 250 (λ n. drawn.update) draws.old).0)) }
    ensures state { OnOk result (draws.new ≡ (each 250 (λ n. drawn.update) draws.old).1) }
{
    for _ in 0..250u64 {
        put_update(draws, out)?;
    }
    Ok(())
}

fn put_update(draws: &mut Draws, out: &mut Vec<u8>) -> Result<(), OutOfMemory>
    ensures text { OnOk result (out.new.items ≡ out.old.items ++ ended (tree.publisher_line (drawn.update draws.old).0)) }
    ensures state { OnOk result (draws.new ≡ (drawn.update draws.old).1) }
{
    let number = draws.draw(3);
    out.extend_from_slice(b"update")?;
    put_field(number, draws, out)?;
    out.push(b'\n')?;
    Ok(())
}

fn put_clients(draws: &mut Draws, out: &mut Vec<u8>) -> Result<(), OutOfMemory>
    ensures text { OnOk result (out.new.items ≡ out.old.items ++ flat_map ended (flat_map tree.client_lines (each 4 (λ n. drawn.client) draws.old).0)) }
    ensures state { OnOk result (draws.new ≡ (each 4 (λ n. drawn.client) draws.old).1) }
{
    for _ in 0..4u64 {
        put_client(draws, out)?;
    }
    Ok(())
}

fn put_client(draws: &mut Draws, out: &mut Vec<u8>) -> Result<(), OutOfMemory>
    ensures text { OnOk result (out.new.items ≡ out.old.items ++ flat_map ended (tree.client_lines (drawn.client draws.old).0)) }
    ensures state { OnOk result (draws.new ≡ (drawn.client draws.old).1) }
{
    out.extend_from_slice(b"client\n")?;
    put_subscriptions(draws, out)
}

fn put_subscriptions(draws: &mut Draws, out: &mut Vec<u8>) -> Result<(), OutOfMemory>
    ensures text { OnOk result (out.new.items ≡ out.old.items ++ flat_map ended (flat_map tree.step_lines (drawn.client draws.old).0)) }
    ensures state { OnOk result (draws.new ≡ (drawn.client draws.old).1) }
{
    for topic in 0..16u64 {
        put_subscription(topic, draws, out)?;
    }
    Ok(())
}

fn put_subscription(topic: u64, draws: &mut Draws, out: &mut Vec<u8>) -> Result<(), OutOfMemory>
    ensures text { OnOk result (out.new.items ≡ out.old.items ++ flat_map ended (tree.step_lines (drawn.subscription topic draws.old).0)) }
    ensures state { OnOk result (draws.new ≡ (drawn.subscription topic draws.old).1) }
{
    put_terms(topic, out)?;
    put_row(2, 80, draws, out)?;
    put_row(100, 80, draws, out)?;
    put_row(200, 50, draws, out)?;
    Ok(())
}

// A subscription's own line.
fn put_terms(topic: u64, out: &mut Vec<u8>) -> Result<(), OutOfMemory>
    ensures { OnOk result (out.new.items ≡ out.old.items ++ ended (lines.Sub topic Market Any 10 1000)) }
{
    out.extend_from_slice(b"sub")?;
    put_number(topic, out)?;
    put_kind(out)?;
    Ok(())
}

// What stands in the line of each subscription behind its topic.
fn put_kind(out: &mut Vec<u8>) -> Result<(), OutOfMemory>
    ensures { OnOk result (out.new.items ≡ out.old.items ++ codes " market any 10 1000\n") }
{
    out.extend_from_slice(b" market any 10 1000\n")?;
    Ok(())
}

// A fault of a message whose index is among so many from the first on.
fn put_row(first: u64, many: u64, draws: &mut Draws, out: &mut Vec<u8>) -> Result<(), OutOfMemory>
    requires some { 0 < many }
    requires small { first + many ≤ 1000 }
    ensures text { OnOk result (out.new.items ≡ out.old.items ++ ended (tree.fault_line (drawn.row first many draws.old).0)) }
    ensures state { OnOk result (draws.new ≡ (drawn.row first many draws.old).1) }
{
    let number = draws.draw(3);
    let index = first + draws.draw(many);
    put_fault(number, index, draws, out)
}

// The fault of this number, of the message with this index.
fn put_fault(
    number: u64,
    index: u64,
    draws: &mut Draws,
    out: &mut Vec<u8>,
) -> Result<(), OutOfMemory>
    ensures text { OnOk result (out.new.items ≡ out.old.items ++ ended (lines.Fault (record { index = index; fault = (drawn.fault number draws.old).0 }))) }
    ensures state { OnOk result (draws.new ≡ (drawn.fault number draws.old).1) }
{
    match number {
        0 => put_short_fault(b"fault lose", index, out),
        1 => put_short_fault(b"fault dup", index, out),
        _ => put_hold(index, 1 + draws.draw(4), out),
    }
}

fn put_short_fault(head: &[u8], index: u64, out: &mut Vec<u8>) -> Result<(), OutOfMemory>
    ensures { OnOk result (out.new.items ≡ out.old.items ++ (head.now ++ (spaced (decimal index) ++ 10 ∷ []))) }
{
    out.extend_from_slice(head)?;
    put_number(index, out)?;
    out.push(b'\n')?;
    Ok(())
}

fn put_hold(index: u64, by: u64, out: &mut Vec<u8>) -> Result<(), OutOfMemory>
    ensures { OnOk result (out.new.items ≡ out.old.items ++ ended (lines.Fault (record { index = index; fault = faults.Hold by }))) }
{
    out.extend_from_slice(b"fault hold")?;
    put_number(index, out)?;
    put_number(by, out)?;
    out.push(b'\n')?;
    Ok(())
}
