ghost use Rattle.std.specs.Prelude.{◌≡◌, length, IfOk};

use mama_carry::{Carried, Listener, Maker, ObjectId, carry};
use mama_memory::OutOfMemory;
use mama_plans::Plans;
use mama_posts_clients::ClientListeners;
use std::alloc::Global;
use std::collections::VecDeque;

/// Makes the listeners of all objects, in the order of the objects, and deals each to the client of its object. There are so
/// many clients. The error is want of memory.
pub(crate) fn make_listeners<L: Listener, M: Maker<L>>(
    alloc: Global,
    maker: &mut M,
    plans: &Plans,
    clients: u32,
) -> Result<Vec<ClientListeners<L>>, OutOfMemory>
    ensures { IfOk result (λ made. length made.items ≡ clients) }
{
    let mut made = no_listeners(alloc, clients)?;
    plans.are_few();
    for planned in plans.objects() {
        let listener = carry(alloc, maker, planned.object, planned.plan.as_slice())?;
        deal(&mut made, planned.object, listener)?;
    }
    Ok(made)
}

// Clients without listeners, so many.
fn no_listeners<L: Listener>(
    alloc: Global,
    clients: u32,
) -> Result<Vec<ClientListeners<L>>, OutOfMemory>
    ensures { IfOk result (λ made. length made.items ≡ clients) }
{
    let mut made = Vec::new(alloc);
    for _ in 0..clients {
        made.push(ClientListeners {
            subs: VecDeque::new(alloc),
            timers: VecDeque::new(alloc),
            inboxes: VecDeque::new(alloc),
        })?;
    }
    Ok(made)
}

// Adds a listener to those of its object's kind and client.
fn deal<L: Listener>(
    made: &mut Vec<ClientListeners<L>>,
    object: ObjectId,
    listener: Carried<L>,
) -> Result<(), OutOfMemory>
    ensures { length made.new.items ≡ length made.old.items }
{
    match object {
        ObjectId::Sub(sub) => {
            if let Some(own) = made.get_mut(sub.client as usize) {
                own.subs.push_back(listener)?;
            }
        }
        ObjectId::Timer(timer) => {
            if let Some(own) = made.get_mut(timer.client as usize) {
                own.timers.push_back(listener)?;
            }
        }
        ObjectId::Inbox(inbox) => {
            if let Some(own) = made.get_mut(inbox.client as usize) {
                own.inboxes.push_back(listener)?;
            }
        }
    }
    Ok(())
}
