ghost use Rattle.std.specs.Prelude.{◌≡◌, [], ◌∷◌};
ghost use Rattle.std.specs.List.{All};
ghost use Rattle.crossbeam_queue.specs.SegTies.{IsSegPassOf};
ghost use Rattle.mama_journal.specs.Lane.{by_port, IsEdge};
ghost use Rattle.mama_lane.specs.Steps.{with_ended};

use crate::lane::Lane;
use crate::looker::Looker;
use crate::port::Port;
use crate::rule::Pass;
use crate::steps;
use crate::taker::Taker;
use mama_event::Stream;
use std::sync::Wait;

/// Ends a lane. Of each port that is handed in, what was taken from it begins what it put, and is all of it where its
/// last event was taken. Events that are left in the lane, or were taken ahead, are dropped. It takes no memory.
pub fn close_lane<E: Stream, Rt: Wait + Copy>(
    rt: Rt,
    lane: Lane<E>,
    ports: Vec<Port<E>>,
    taker: Taker<E>,
)
    requires ports { All (λ port. port.lane ≡ lane.id) ports.items }
    requires taker { taker.lane ≡ lane.id }
    ensures { All (λ port. IsEdge E.last (by_port port.number taker.taken) port.put) ports.items }
{
    let Taker {
        looker,
        ended: _,
        buffer: _,
    } = taker;
    let Looker { mut pass } = looker;
    end_all(&lane, &mut pass, ports);
    steps::compare(&rt, &lane.queue, &mut pass);
}

// The taker takes in all these ports.
fn end_all<E: Stream>(lane: &Lane<E>, pass: &mut Pass<E>, ports: Vec<Port<E>>)
    requires ports { All (λ port. port.lane ≡ lane.now.id) ports.items }
    requires pass { IsSegPassOf lane.now.id pass.old × (pass.old.id ≡ 0) }
    ensures pass { IsSegPassOf lane.now.id pass.new × (pass.new.id ≡ 0) }
    ensures view { pass.new.me.view.client ≡ with_ended pass.old.me.view.client ports.items }
{
    for port in ports {
        end(lane, pass, port);
    }
}

// The taker takes in this port.
fn end<E: Stream>(lane: &Lane<E>, pass: &mut Pass<E>, port: Port<E>)
    requires port { port.lane ≡ lane.now.id }
    requires pass { IsSegPassOf lane.now.id pass.old × (pass.old.id ≡ 0) }
    ensures pass { IsSegPassOf lane.now.id pass.new × (pass.new.id ≡ 0) }
    ensures view { pass.new.me.view.client ≡ with_ended pass.old.me.view.client (port ∷ []) }
{
    let Port {
        number: _,
        pass: port,
    } = port;
    steps::end(&lane.queue, pass, port);
}
