// The ports of a seat on the lanes of actors of one kind, in the order of the actors' numbers.
ghost use Rattle.std.specs.Prelude.{◌≡◌, ◌<◌, Some, map, length, IfOk, IsOk, OnOk, OnErr, IfErr};
ghost use Rattle.std.specs.List.{slice_get};
ghost use Rattle.mama_lane.specs.Values.{note_of_port};
ghost use Rattle.mama_posts_services.specs.Ports.{lanes_of, ids_of};
ghost use Rattle.mama_posts_services.specs.Laying.{with_put, MayPut};

use mama_ends::{Lane, Port, PutNote};
use mama_event::Stream;
use mama_memory::OutOfMemory;
use std::sync::Wait;

/// Puts an event on the lane of this number, by the port on it. Where there is none the event is dropped. Where memory
/// runs out the event comes back.
pub(crate) fn put_to<E: Stream, Rt: Wait + Copy>(
    rt: Rt,
    lanes: &[Lane<E>],
    ports: &mut Vec<Port<E>>,
    number: u32,
    event: E,
) -> Result<(), E>
    requires lanes { lanes_of ports.old.items ≡ ids_of lanes.now }
    requires lawful { MayPut E.lawful number (E.noted event) ports.old.items }
    ensures ok { OnOk result (ports.new.items ≡ with_put number (E.noted event) ports.old.items) }
    ensures err { OnErr result (ports.new.items ≡ ports.old.items) }
    ensures back { IfErr result (λ back. back ≡ event) }
{
    let number = number as usize;
    if number >= ports.len() {
        return Ok(());
    }
    let lane = &lanes[number];
    let port = &mut ports[number];
    port.put(rt, lane, event)
}

/// A note of what the port of this number has put so far. It takes no memory, and always succeeds.
pub(crate) fn tell_of<E: Stream, Rt: Copy>(
    rt: Rt,
    lanes: &[Lane<E>],
    ports: &mut Vec<Port<E>>,
    number: u32,
) -> Result<PutNote<E>, OutOfMemory>
    requires lanes { lanes_of ports.old.items ≡ ids_of lanes.now }
    requires there { number < length ports.old.items }
    ensures ok { IsOk result }
    ensures note { IfOk result (λ note. slice_get (map note_of_port ports.old.items) number ≡ Some note) }
    ensures same { ports.new.items ≡ ports.old.items }
{
    let number = number as usize;
    let lane = &lanes[number];
    let port = &mut ports[number];
    port.tell(rt, lane)
}
