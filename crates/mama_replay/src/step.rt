use mama_check::Actor;
use mama_memory::OutOfMemory;

/// A step of a run: who makes it, and by which port of its lane it takes an event. Without a port it is the next line of a
/// client or a publisher, or that it is done.
#[derive(Clone, Copy, Debug, PartialEq, Eq)]
pub struct Step {
    pub actor: Actor,
    pub port: Option<u32>,
}

/// Why a legal record is not followed.
#[derive(Clone, Copy, Debug, PartialEq, Eq)]
pub enum ReplayFault {
    /// Its entries have no causal order. The first actor that has an entry left when no step can be made, in the order of the
    /// passes, and the number of that entry in its journal, from 1.
    NotCausal { actor: Actor, entry: u32 },
    /// No memory was found, or the number of the entry is above 4,294,967,295.
    OutOfMemory,
}

impl From<OutOfMemory> for ReplayFault {
    ghost use Rattle.std.specs.Prelude.{◌≡◌};
    ghost use Rattle.mama_replay.specs.declared.step.ReplayFault.TheVariants as fault;

    ghost from_gives = { λ _ e. e ≡ fault.OutOfMemory };

    fn from(_error: OutOfMemory) -> ReplayFault {
        ReplayFault::OutOfMemory
    }
}
