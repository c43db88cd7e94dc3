ghost use Rattle.std.specs.Prelude.{◌≡◌, IfOk};
ghost use Rattle.mama_event.specs.Publisher.{asked_fields};

use mama_event::Fids;
use mama_memory::OutOfMemory;
use mama_msg::{Msg, Name};
use std::alloc::Global;

/// The fields of a record that have the asked fids, in the order asked. Those that are not there are left out.
pub(crate) fn asked(alloc: Global, held: &Msg, fids: &Fids) -> Result<Msg, OutOfMemory>
    ensures { IfOk result (λ reply. reply ≡ asked_fields fids.now held.now) }
{
    let any_name = Name::new(b"").unwrap();
    let mut reply = Msg::new(alloc);
    for i in 0..fids.len() {
        if let Some(field) = held.find(&any_name, fids.at(i)) {
            reply.update(field.try_clone()?)?;
        }
    }
    Ok(reply)
}
