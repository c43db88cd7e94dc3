ghost use Rattle.std.specs.Prelude.{◌≡◌, ◌++◌, OnOk};
ghost use Rattle.std.specs.List.{flat_map};
ghost use Rattle.mama_record.specs.LogText as text;
ghost use Rattle.mama_record.specs.SectionText.{call_lines};

use crate::words::{put_number, put_spaced_number};
use mama_edge::print_u64;
use mama_event::{CallNote, Callback, GivenOrders, ImageHead, MarketMsg, Order, Quality, SubId};
use mama_memory::OutOfMemory;
use mama_msg::Msg;
use mama_words::{print_fields, print_msg_kind, print_order, print_quality, print_sub_id};

fn put_msg_callback(msg: &MarketMsg, quality: Quality, out: &mut Vec<u8>) -> Result<(), OutOfMemory>
    ensures { OnOk result (out.new.items ≡ out.old.items ++ text.msg_callback_text msg.now quality) }
{
    out.extend_from_slice(b"msg ")?;
    print_msg_kind(msg.kind, out)?;
    put_spaced_number(msg.sender, out)?;
    put_spaced_number(msg.seq, out)?;
    out.push(b' ')?;
    print_quality(quality, out)?;
    print_fields(&msg.body, out)
}

pub fn put_callback(call: &Callback, out: &mut Vec<u8>) -> Result<(), OutOfMemory>
    ensures { OnOk result (out.new.items ≡ out.old.items ++ text.callback_text call.now) }
{
    match call {
        Callback::Create => Ok(out.extend_from_slice(b"create")?),
        Callback::Msg { msg, quality } => put_msg_callback(msg, *quality, out),
        Callback::Gap { first, to } => {
            out.extend_from_slice(b"gap ")?;
            put_number(*first, out)?;
            put_spaced_number(*to, out)
        }
        Callback::Quality { quality, number } => {
            out.extend_from_slice(b"quality ")?;
            print_quality(*quality, out)?;
            put_spaced_number(*number, out)
        }
        Callback::RecapRequest { sender } => {
            out.extend_from_slice(b"request ")?;
            put_number(*sender, out)
        }
        Callback::Late { sender, seq } => {
            out.extend_from_slice(b"late ")?;
            put_number(*sender, out)?;
            put_spaced_number(*seq, out)
        }
        Callback::Error { code } => {
            out.extend_from_slice(b"error ")?;
            put_number(u32::from(*code), out)
        }
        Callback::Destroy => Ok(out.extend_from_slice(b"destroy")?),
        Callback::Tick { moment } => {
            out.extend_from_slice(b"tick ")?;
            print_u64(*moment, out)
        }
        Callback::Reply { body } => {
            out.extend_from_slice(b"reply")?;
            print_fields(body, out)
        }
    }
}

fn put_orders(orders: &GivenOrders, out: &mut Vec<u8>) -> Result<(), OutOfMemory>
    ensures { OnOk result (out.new.items ≡ out.old.items ++ flat_map text.order_line orders.now) }
{
    for i in 0..orders.len() {
        put_order_line(orders.at(i), out)?;
    }
    Ok(())
}

fn put_order_line(order: &Order, out: &mut Vec<u8>) -> Result<(), OutOfMemory>
    ensures { OnOk result (out.new.items ≡ out.old.items ++ text.order_line order.now) }
{
    out.extend_from_slice(b"order ")?;
    print_order(order, out)?;
    Ok(out.push(b'\n')?)
}

/// A callback, and the orders that were given in it.
pub fn put_call(note: &CallNote, out: &mut Vec<u8>) -> Result<(), OutOfMemory>
    ensures { OnOk result (out.new.items ≡ out.old.items ++ call_lines note.now) }
{
    put_callback(&note.call, out)?;
    out.push(b'\n')?;
    put_orders(&note.orders, out)
}

fn put_image_head(sub: SubId, head: ImageHead, out: &mut Vec<u8>) -> Result<(), OutOfMemory>
    ensures { OnOk result (out.new.items ≡ out.old.items ++ text.image_head_text sub head) }
{
    print_sub_id(sub, out)?;
    out.push(b' ')?;
    print_quality(head.quality, out)?;
    put_spaced_number(head.sender, out)?;
    put_spaced_number(head.last, out)
}

/// A last image.
pub fn put_image(
    sub: SubId,
    head: ImageHead,
    body: &Msg,
    out: &mut Vec<u8>,
) -> Result<(), OutOfMemory>
    ensures { OnOk result (out.new.items ≡ out.old.items ++ text.image_line (record { sub = sub; head = head; body = body.now })) }
{
    put_image_head(sub, head, out)?;
    print_fields(body, out)?;
    Ok(out.push(b'\n')?)
}
