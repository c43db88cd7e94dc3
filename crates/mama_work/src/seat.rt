ghost use Rattle.std.specs.Prelude.{◌≡◌, true};
ghost use Rattle.mama_edge.specs.declared.gate.GateActor.{GateActor as Actor};

use mama_edge::GateActor;
use mama_memory::OutOfMemory;
use std::sync::Wait;

/// The seat of an actor: it makes the actor's steps, one in each turn. It is handed what all seats share: the script, and
/// the hall, which has their lanes.
pub trait Seat: Drop {
    type Script;

    type Hall;

    // It is a seat of this script and this hall, and keeps what it promises of what it took and put so far.
    ghost sits: { Self.Script → Self.Hall → Self → Type 0 };

    // Whose seat it is. That never changes.
    ghost acts: { Self → Actor };

    // All that it has to do is done.
    ghost is_over: { Self → Type 0 };

    /// Whose seat it is.
    fn actor(&self) -> GateActor
        ensures { result ≡ acts self.now };

    /// Whether its next turn uses the moment that it is handed.
    fn reads_clock(&self) -> bool;

    /// Whether it has ended.
    fn ended(&self) -> bool
        ensures { result ≡ true → is_over self.now };

    /// Makes a step, and says whether there was one to make. The error is want of memory; then the next turn goes on with
    /// what is left.
    fn turn<Rt: Wait + Copy>(
        &mut self,
        rt: Rt,
        script: &Self::Script,
        hall: &Self::Hall,
        moment: u64,
    ) -> Result<bool, OutOfMemory>
        requires { sits script.now hall.now self.old }
        ensures sits { sits script.now hall.now self.new }
        ensures actor { acts self.new ≡ acts self.old };
}
