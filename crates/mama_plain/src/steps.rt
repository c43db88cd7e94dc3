ghost use Rattle.std.specs.Prelude.{◌≡◌, ◌++◌, ◌∷◌, OnOk};
ghost use Rattle.mama_record.specs.LogText.{line, putter_text};
ghost use Rattle.mama_plain.specs.Replayed as text;

use crate::check::put_actor;
use mama_check::Actor;
use mama_event::Shape;
use mama_memory::OutOfMemory;
use mama_record::{put_bridge_putter, put_queue_putter, put_timers_putter};
use mama_replay::Step;

/// Appends a line for each step.
pub(crate) fn put_steps(shape: &Shape, steps: &[Step], out: &mut Vec<u8>) -> Result<(), OutOfMemory>
    ensures { OnOk result (out.new.items ≡ out.old.items ++ text.steps_text shape.now steps.now) }
{
    for step in steps {
        put_step(shape, *step, out)?;
    }
    Ok(())
}

/// Appends the line of a step: who makes it, and who put what it takes.
fn put_step(shape: &Shape, step: Step, out: &mut Vec<u8>) -> Result<(), OutOfMemory>
    ensures { OnOk result (out.new.items ≡ out.old.items ++ line (text.step_text shape.now step)) }
{
    out.extend_from_slice(b"step ")?;
    put_actor(step.actor, out)?;
    put_port(shape, step.actor, step.port, out)?;
    Ok(out.push(b'\n')?)
}

/// Appends who put what a step takes, if it takes something.
fn put_port(
    shape: &Shape,
    actor: Actor,
    port: Option<u32>,
    out: &mut Vec<u8>,
) -> Result<(), OutOfMemory>
    ensures { OnOk result (out.new.items ≡ out.old.items ++ text.port_text shape.now actor port) }
{
    match port {
        None => Ok(()),
        Some(port) => put_putter(shape, actor, port, out),
    }
}

/// Appends a space, and who puts to an actor by a port.
fn put_putter(shape: &Shape, actor: Actor, port: u32, out: &mut Vec<u8>) -> Result<(), OutOfMemory>
    ensures { OnOk result (out.new.items ≡ out.old.items ++ 32 ∷ putter_text (text.putter_to shape.now actor port)) }
{
    out.push(b' ')?;
    match actor {
        Actor::Publisher(_) => Ok(out.push(b'b')?),
        Actor::Bridge => put_bridge_putter(shape, port, out),
        Actor::Timers => put_timers_putter(shape, port, out),
        Actor::Queue(_) => put_queue_putter(port, out),
        Actor::Client(_) | Actor::Object(_) | Actor::Group(_) | Actor::Watch(_) => Ok(()),
    }
}
