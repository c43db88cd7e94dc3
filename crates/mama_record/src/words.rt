ghost use Rattle.std.specs.Prelude.{◌≡◌, ◌++◌, OnOk};
ghost use Rattle.std.specs.List.{flat_map};
ghost use Rattle.mama_edge.specs.Decimal.{decimal};
ghost use Rattle.mama_words.specs.Order.{spaced_number};
ghost use Rattle.mama_rules_services.specs.Ports as ports;
ghost use Rattle.mama_record.specs.LogText as text;

use mama_edge::print_u64;
use mama_event::{Fids, MarketMsg, Shape};
use mama_memory::OutOfMemory;
use mama_words::{print_fields, print_msg_kind};

/// The number of a port, or of anything else that a text names.
pub fn put_number(n: u32, out: &mut Vec<u8>) -> Result<(), OutOfMemory>
    ensures { OnOk result (out.new.items ≡ out.old.items ++ decimal n) }
{
    print_u64(u64::from(n), out)
}

pub fn put_spaced_number(n: u32, out: &mut Vec<u8>) -> Result<(), OutOfMemory>
    ensures { OnOk result (out.new.items ≡ out.old.items ++ spaced_number n) }
{
    out.push(b' ')?;
    put_number(n, out)
}

#[tactic(auto, using(crate::proofs::Printed::printed_number))]
pub fn put_fids(fids: &Fids, out: &mut Vec<u8>) -> Result<(), OutOfMemory>
    ensures { OnOk result (out.new.items ≡ out.old.items ++ flat_map spaced_number fids.now) }
{
    for i in 0..fids.len() {
        put_spaced_number(u32::from(fids.at(i)), out)?;
    }
    Ok(())
}

pub fn put_msg(msg: &MarketMsg, out: &mut Vec<u8>) -> Result<(), OutOfMemory>
    ensures { OnOk result (out.new.items ≡ out.old.items ++ text.msg_text msg.now) }
{
    print_msg_kind(msg.kind, out)?;
    put_spaced_number(msg.sender, out)?;
    put_spaced_number(msg.seq, out)?;
    print_fields(&msg.body, out)
}

/// Appends who puts by a port of the bridge's lane: a client, a publisher or a queue, and nothing where no one has the port.
pub fn put_bridge_putter(shape: &Shape, port: u32, out: &mut Vec<u8>) -> Result<(), OutOfMemory>
    ensures { OnOk result (out.new.items ≡ out.old.items ++ text.putter_text (ports.bridge_putter shape.now port)) }
{
    let clients = u64::from(shape.clients);
    let publishers = shape.publisher_topics.len() as u64;
    let queues = u64::from(shape.bounds.queues);
    let port = u64::from(port);
    if port < clients {
        out.push(b'c')?;
        return print_u64(port, out);
    }
    let port = port - clients;
    if port < publishers {
        out.push(b'p')?;
        return print_u64(port, out);
    }
    let port = port - publishers;
    if port < queues {
        out.push(b'q')?;
        return print_u64(port, out);
    }
    Ok(())
}

/// Appends who puts by a port of the timer service's lane: a client, a queue or the bridge, and nothing where no one has the port.
pub fn put_timers_putter(shape: &Shape, port: u32, out: &mut Vec<u8>) -> Result<(), OutOfMemory>
    ensures { OnOk result (out.new.items ≡ out.old.items ++ text.putter_text (ports.timers_putter shape.now port)) }
{
    let clients = u64::from(shape.clients);
    let queues = u64::from(shape.bounds.queues);
    let port = u64::from(port);
    if port < clients {
        out.push(b'c')?;
        return print_u64(port, out);
    }
    let port = port - clients;
    if port < queues {
        out.push(b'q')?;
        return print_u64(port, out);
    }
    if port == queues {
        out.push(b'b')?;
    }
    Ok(())
}

/// Appends who puts by a port of a queue's lane: the bridge or the timer service, and nothing where no one has the port.
pub fn put_queue_putter(port: u32, out: &mut Vec<u8>) -> Result<(), OutOfMemory>
    ensures { OnOk result (out.new.items ≡ out.old.items ++ text.putter_text (ports.queue_putter port)) }
{
    match port {
        0 => out.push(b'b')?,
        1 => out.push(b't')?,
        _ => {}
    }
    Ok(())
}
