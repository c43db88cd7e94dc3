// The steps of the passes of a lane, as their views see them.
ghost use Rattle.std.specs.Prelude.{◌≡◌, ℕ, ◌<◌, ◌≤◌, List, ◌++◌, ◌∷◌, [], length, OnErr, OnOk, IfErr, IfSome, IfNone};
ghost use Rattle.std.specs.List.{AllByRecursion};
ghost use Rattle.std.specs.VecDeque.{deque_capacity};
ghost use mathlib.Core.List.{IsPrefix};
ghost use Rattle.crossbeam_queue.specs.SegBatches.{Holds};
ghost use Rattle.crossbeam_queue.specs.SegTies.{IsSegPassOf};
ghost use Rattle.mama_journal.specs.Lane.{by_port};
ghost use Rattle.mama_lane.specs.declared.view.Role.TheVariants.{Port as PortRole, Note as NoteRole};
ghost use Rattle.mama_lane.specs.Rule.{notes_of, IsLawfulTaken, CameFromPorts};
ghost use Rattle.mama_lane.specs.Steps.{bound, with_port, next_port, with_put, with_taken, noted_port, with_learnt, with_closed};

use crate::ahead::AHEAD;
use crate::rule::{Batch, Bind, End, Given, Learn, MakePort, Pass, Put, Queue, Take, Tell};
use mama_event::{Bounds, Stream};
use std::collections::VecDeque;
use std::sync::Wait;

/// Tells the opener the bounds, before there is a port.
pub fn bind<E: Stream, G: Given>(queue: &Queue<E>, pass: &mut Pass<E>, bounds: Bounds)
    requires bounds { bounds ≡ G.bounds }
    requires pass { IsSegPassOf queue.now pass.old × (pass.old.id ≡ 0) }
    requires none { pass.old.me.view.client.made ≡ 0 }
    ensures pass { IsSegPassOf queue.now pass.new × (pass.new.id ≡ 0) }
    ensures view { pass.new.me.view.client ≡ bound bounds pass.old.me.view.client }
{
    let Bounds { .. } = bounds;
    let _spent = queue.another::<Bind<G>>(pass);
}

/// Makes the next port.
pub fn make_port<E: Stream>(queue: &Queue<E>, pass: &mut Pass<E>) -> Pass<E>
    requires { IsSegPassOf queue.now pass.old × (pass.old.id ≡ 0) }
    ensures pass { IsSegPassOf queue.now pass.new × (pass.new.id ≡ 0) }
    ensures view { pass.new.me.view.client ≡ with_port pass.old.me.view.client }
    ensures port { IsSegPassOf queue.now result × (result.me.view.client ≡ next_port pass.old.me.view.client) }
{
    queue.another::<MakePort>(pass)
}

/// Puts an event of the port of this number.
pub fn put<E: Stream, R: Wait>(
    rt: &R,
    queue: &Queue<E>,
    pass: &mut Pass<E>,
    number: u32,
    event: E,
) -> Result<(), E>
    requires pass { IsSegPassOf queue.now pass.old }
    requires role { (pass.old.me.view.client.role ≡ PortRole) × (pass.old.me.view.client.number ≡ number) }
    requires lawful { E.lawful pass.old.me.view.client.bounds number (pass.old.me.view.client.put ++ E.noted event ∷ []) }
    ensures pass { IsSegPassOf queue.now pass.new }
    ensures ok { OnOk result (pass.new.me.view.client ≡ with_put pass.old.me.view.client (E.noted event)) }
    ensures err { OnErr result (pass.new.me.view.client ≡ pass.old.me.view.client) }
    ensures back { IfErr result (λ back. back ≡ event) }
{
    match queue.push_as::<Put, R>(rt, pass, (number, event)) {
        Ok(()) => Ok(()),
        Err((_, event)) => Err(event),
    }
}

/// Takes some of the first events into an empty buffer, or looks at a lane that holds none.
pub fn take<E: Stream, R: Wait>(
    rt: &R,
    queue: &Queue<E>,
    pass: &mut Pass<E>,
    buffer: &mut VecDeque<(u32, E)>,
)
    requires pass { IsSegPassOf queue.now pass.old × (pass.old.id ≡ 0) }
    requires room { AHEAD ≤ deque_capacity buffer.old }
    requires empty { buffer.old.items ≡ [] }
    ensures pass { IsSegPassOf queue.now pass.new × (pass.new.id ≡ 0) }
    ensures room { deque_capacity buffer.new ≡ deque_capacity buffer.old }
    ensures view { pass.new.me.view.client ≡ with_taken pass.old.me.view.client (notes_of E.noted buffer.new.items) }
    ensures ports { AllByRecursion (λ x. x.0 < pass.old.me.view.client.made) buffer.new.items }
    ensures lawful { IsLawfulTaken E.lawful pass.old.me.view.client → IsLawfulTaken E.lawful pass.new.me.view.client }
    ensures caught_up { buffer.new.items ≡ [] → AllByRecursion (λ c. IsPrefix c.1 (by_port c.0 pass.old.me.view.client.taken)) pass.old.me.view.client.learnt }
{
    let Some(batch) = claim(rt, queue, pass) else {
        return;
    };
    unpack(rt, queue, pass, batch, buffer);
}

// Takes some of the first events in one step, which leaves them where they lie.
fn claim<E: Stream, R: Wait>(rt: &R, queue: &Queue<E>, pass: &mut Pass<E>) -> Option<Batch<E>>
    requires pass { IsSegPassOf queue.now pass.old × (pass.old.id ≡ 0) }
    ensures pass { IsSegPassOf queue.now pass.new × (pass.new.id ≡ 0) }
    ensures some { IfSome result (λ b. (xs : List (ℕ × E)) × Holds queue.now pass.new b xs × (0 < length xs) × (length xs ≤ AHEAD) × (pass.new.me.view.client ≡ with_taken pass.old.me.view.client (notes_of E.noted xs)) × CameFromPorts E.noted E.lawful pass.old.me.view.client xs pass.new.me.view.client) }
    ensures none { IfNone result (pass.new.me.view.client ≡ pass.old.me.view.client) }
    ensures caught_up { IfNone result (AllByRecursion (λ c. IsPrefix c.1 (by_port c.0 pass.old.me.view.client.taken)) pass.old.me.view.client.learnt) }
{
    for _ in rt.forever() {
        let head = queue.head(pass);
        // No other pass takes, so that the first attempt has an answer.
        if let Ok(taken) = queue.try_pop_batch::<Take, R>(rt, pass, head, AHEAD as u64) {
            return taken;
        }
    }
    unreachable!()
}

// Moves the events of a batch into an empty buffer, in their order.
fn unpack<E: Stream, R: Wait>(
    rt: &R,
    queue: &Queue<E>,
    pass: &mut Pass<E>,
    mut batch: Batch<E>,
    buffer: &mut VecDeque<(u32, E)>,
)
    requires pass { IsSegPassOf queue.now pass.old × (pass.old.id ≡ 0) }
    requires batch { (xs : List (ℕ × E)) × Holds queue.now pass.old batch xs × (length xs ≤ deque_capacity buffer.old) }
    requires empty { buffer.old.items ≡ [] }
    ensures pass { IsSegPassOf queue.now pass.new × (pass.new.id ≡ 0) }
    ensures view { pass.new.me.view.client ≡ pass.old.me.view.client }
    ensures room { deque_capacity buffer.new ≡ deque_capacity buffer.old }
    ensures events { (xs : List (ℕ × E)) → Holds queue.now pass.old batch xs → buffer.new.items ≡ xs }
{
    'each: while 0 < batch.len() {
        let event = queue.next_of(rt, pass, &mut batch);
        buffer.push_back_reserved(event);
    }
    batch.finish();
}

/// Makes a note of what the port has put.
pub fn tell<E: Stream>(queue: &Queue<E>, pass: &mut Pass<E>) -> Pass<E>
    requires pass { IsSegPassOf queue.now pass.old }
    requires role { pass.old.me.view.client.role ≡ PortRole }
    ensures pass { IsSegPassOf queue.now pass.new }
    ensures view { pass.new.me.view.client ≡ pass.old.me.view.client }
    ensures note { IsSegPassOf queue.now result × (result.me.view.client ≡ noted_port pass.old.me.view.client) }
{
    queue.another::<Tell>(pass)
}

/// The taker takes in a note.
pub fn learn<E: Stream>(queue: &Queue<E>, pass: &mut Pass<E>, note: Pass<E>)
    requires pass { IsSegPassOf queue.now pass.old × (pass.old.id ≡ 0) }
    requires note { IsSegPassOf queue.now note × (note.me.view.client.role ≡ NoteRole) }
    ensures pass { IsSegPassOf queue.now pass.new × (pass.new.id ≡ 0) }
    ensures view { pass.new.me.view.client ≡ with_learnt pass.old.me.view.client note.me.view.client }
{
    queue.absorb::<Learn>(pass, note);
}

/// The taker takes in a port.
pub fn end<E: Stream>(queue: &Queue<E>, pass: &mut Pass<E>, port: Pass<E>)
    requires pass { IsSegPassOf queue.now pass.old × (pass.old.id ≡ 0) }
    requires port { IsSegPassOf queue.now port × (port.me.view.client.role ≡ PortRole) }
    ensures pass { IsSegPassOf queue.now pass.new × (pass.new.id ≡ 0) }
    ensures view { pass.new.me.view.client ≡ with_closed pass.old.me.view.client port.me.view.client }
{
    queue.absorb::<End>(pass, port);
}

/// What was taken from each port that was taken in begins what the port put.
pub fn compare<E: Stream, R: Wait>(rt: &R, queue: &Queue<E>, pass: &mut Pass<E>)
    requires { IsSegPassOf queue.now pass.old × (pass.old.id ≡ 0) }
    ensures { let v = pass.old.me.view.client in AllByRecursion (λ c. IsPrefix (by_port c.0 v.taken) c.1 × E.lawful v.bounds c.0 c.1) v.closed }
{
    let _waiting = queue.len_as::<End, R>(rt, pass);
}
