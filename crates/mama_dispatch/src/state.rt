ghost use Rattle.std.specs.Prelude.{◌≡◌};
ghost use Rattle.mama_dispatch.specs.State.{object_state};

/// Whether an object is there for the listeners of a queue.
#[derive(Clone, Copy, Debug, PartialEq, Eq)]
pub enum ObjectState {
    /// It was not made yet, or is gone.
    Absent,
    /// It is called back.
    Live,
    /// An order of its queue ended it: it is called back once more, when it is gone.
    Muted,
}

impl ObjectState {
    /// By whether an object is live, and whether it is muted.
    pub(crate) fn by(live: bool, muted: bool) -> ObjectState
        ensures { result ≡ object_state live muted }
    {
        match (live, muted) {
            (false, _) => ObjectState::Absent,
            (true, true) => ObjectState::Muted,
            (true, false) => ObjectState::Live,
        }
    }
}
