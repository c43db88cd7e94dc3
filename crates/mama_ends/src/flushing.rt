ghost use Rattle.std.specs.Prelude.{◌≡◌, [], ◌++◌, map, OnOk};
ghost use Rattle.mama_seats.specs.Waiting.{waits};

use mama_event::{OutOfMemory, Stream};
use mama_lane::{Lane, Port};
use mama_seats::Waiting;
use std::sync::Wait;

/// Puts what is left on the lane by this port, in order. Where memory runs out the answer is the error, and what was not
/// put is still left.
pub fn flush<E: Stream, Rt: Wait + Copy>(
    rt: Rt,
    lane: &Lane<E>,
    port: &mut Port<E>,
    left: &mut Waiting<E>,
) -> Result<(), OutOfMemory>
    requires lane { port.old.lane ≡ lane.now.id }
    requires lawful { E.lawful port.old.bounds port.old.number (port.old.put ++ map E.noted (waits left.old)) }
    ensures puts { port.new.put ++ map E.noted (waits left.new) ≡ port.old.put ++ map E.noted (waits left.old) }
    ensures place { port.new ≡ record port.old { put = port.new.put } }
    ensures clear { OnOk result (waits left.new ≡ []) }
{
    while let Some(event) = left.take_first() {
        if let Err(event) = port.put(rt, lane, event) {
            left.put_back(event);
            return Err(OutOfMemory);
        }
    }
    Ok(())
}
