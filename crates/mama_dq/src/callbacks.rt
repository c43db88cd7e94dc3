ghost use Rattle.std.specs.Prelude.{◌≡◌, suc, ◌+◌, ◌-◌, ◌<◌, ◌≤◌, ◌++◌};
ghost use Rattle.std.specs.VecDeque.{deque_len, deque_capacity};
ghost use Rattle.mama_dq.specs.Context.{is_ok};
ghost use Rattle.mama_dq.specs.Strategy.{gap_calls, switch_calls, adopt_calls};

use crate::table::Phase;
use mama_event::{Callback, MarketMsg, Quality};
use std::collections::VecDeque;

// The callback of an image that may lack updates from now on.
fn stale_at(number: u32) -> Callback
    ensures { result ≡ Callback.Quality Quality.Stale number }
{
    Callback::Quality {
        quality: Quality::Stale,
        number,
    }
}

// The callback of a message while the image may lack updates.
pub(crate) fn stale_msg(msg: MarketMsg) -> Callback
    ensures { result ≡ Callback.Msg msg Quality.Stale }
{
    Callback::Msg {
        msg,
        quality: Quality::Stale,
    }
}

// The callback of a message while the image is the sender's record.
pub(crate) fn ok_msg(msg: MarketMsg) -> Callback
    ensures { result ≡ Callback.Msg msg Quality.Ok }
{
    Callback::Msg {
        msg,
        quality: Quality::Ok,
    }
}

// The callback of an image that lacks no updates from now on.
pub(crate) fn ok_at(number: u32) -> Callback
    ensures { result ≡ Callback.Quality Quality.Ok number }
{
    Callback::Quality {
        quality: Quality::Ok,
        number,
    }
}

// The callback of an update that is not above the last number.
pub(crate) fn late(msg: &MarketMsg) -> Callback
    ensures { result ≡ Callback.Late msg.now.sender msg.now.seq }
{
    Callback::Late {
        sender: msg.sender,
        seq: msg.seq,
    }
}

// Whether an image in this phase is the sender's record.
fn is_ok(phase: Phase) -> bool
    ensures { result ≡ is_ok phase }
{
    match phase {
        Phase::LiveOk | Phase::LiveKept => true,
        Phase::Await | Phase::LiveStale => false,
    }
}

// The callback that asks a sender for a recap.
pub(crate) fn recap_of(sender: u32) -> Callback
    ensures { result ≡ Callback.RecapRequest sender }
{
    Callback::RecapRequest { sender }
}

// Makes the callbacks of a gap, for which there is room.
pub(crate) fn push_gap(
    queue: &mut VecDeque<Callback>,
    phase: Phase,
    sender: u32,
    last: u32,
    msg: MarketMsg,
)
    requires ahead { last < msg.seq }
    requires room { deque_len queue.old + 4 ≤ deque_capacity queue.old }
    ensures { queue.new.items ≡ queue.old.items ++ gap_calls phase sender last msg }
{
    queue.push_back_reserved(Callback::Gap {
        first: last + 1,
        to: msg.seq - 1,
    });
    if is_ok(phase) {
        queue.push_back_reserved(Callback::Quality {
            quality: Quality::Stale,
            number: last,
        });
        queue.push_back_reserved(Callback::RecapRequest { sender });
    }
    queue.push_back_reserved(Callback::Msg {
        msg,
        quality: Quality::Stale,
    });
}

// Makes the callbacks of a switch, for which there is room.
pub(crate) fn push_switch(queue: &mut VecDeque<Callback>, phase: Phase, before: u32, msg: MarketMsg)
    requires room { deque_len queue.old + 3 ≤ deque_capacity queue.old }
    ensures { queue.new.items ≡ queue.old.items ++ switch_calls phase before msg }
{
    if is_ok(phase) {
        queue.push_back_reserved(stale_at(before));
    }
    queue.push_back_reserved(recap_of(msg.sender));
    queue.push_back_reserved(stale_msg(msg));
}

// Makes the callbacks of an image of another sender, for which there is room.
pub(crate) fn push_adopt(queue: &mut VecDeque<Callback>, phase: Phase, msg: MarketMsg)
    requires room { deque_len queue.old + 2 ≤ deque_capacity queue.old }
    ensures { queue.new.items ≡ queue.old.items ++ adopt_calls phase msg }
{
    let number = msg.seq;
    queue.push_back_reserved(ok_msg(msg));
    if phase == Phase::LiveStale {
        queue.push_back_reserved(ok_at(number));
    }
}
