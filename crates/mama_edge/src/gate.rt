/// Whose turn is to begin.
#[derive(Clone, Copy, Debug, PartialEq, Eq)]
pub enum GateActor {
    /// The client with this number.
    Client(u32),
    /// The publisher with this number.
    Publisher(u32),
    /// The bridge.
    Bridge,
    /// The timer service.
    Timers,
    /// The queue with this number.
    Queue(u32),
}

/// What is called before each turn of an actor that runs in a thread.
pub trait Gate {
    /// May hold the actor back by a loop of stated length. It has no handle to wait with, so it returns.
    fn turn(&self, actor: GateActor);
}

/// A gate that holds nobody back.
#[derive(Clone, Copy, Debug, PartialEq, Eq)]
pub struct OpenGate;

impl Gate for OpenGate {
    fn turn(&self, _actor: GateActor) {}
}
