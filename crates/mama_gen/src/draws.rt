ghost use Rattle.std.specs.Prelude.{◌≡◌, ◌<◌};
ghost use Rattle.mama_gen.specs.Draws.{next, draw};

use std::marker::Model;

const MULTIPLIER: u64 = 6_364_136_223_846_793_005;

const INCREMENT: u64 = 1_442_695_040_888_963_407;

/// Draws of numbers from a seed: those of a linear congruential generator, of whose 64 bits the upper ones are taken.
#[derive(Debug, Drop)]
pub struct Draws {
    state: u64,
}

impl Model for Draws {
    ghost use Rattle.std.specs.Prelude.{ℕ};

    ghost Value = { ℕ };

    ghost view = { λ draws. draws.state };
}

// The state behind a draw.
fn next(state: u64) -> u64
    ensures { result ≡ next state }
{
    state.wrapping_mul(MULTIPLIER).wrapping_add(INCREMENT)
}

impl Draws {
    /// The draws that begin with this seed.
    pub fn new(seed: u64) -> Draws
        ensures { result ≡ seed }
    {
        Draws { state: seed }
    }

    /// A number below this one.
    pub fn draw(&mut self, below: u64) -> u64
        requires { 0 < below }
        ensures drawn { result ≡ (draw below self.old).0 }
        ensures state { self.new ≡ (draw below self.old).1 }
        ensures less { result < below }
    {
        self.state = next(self.state);
        self.state / (1 << 33) % below
    }
}
