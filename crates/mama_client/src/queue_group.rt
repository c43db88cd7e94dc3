ghost use Rattle.std.specs.Prelude.{◌≡◌, ℕ, suc, ◌%◌, ◌<◌};
ghost use Rattle.mama_client.specs.Group.{next_in_turn};

use std::marker::Model;

/// Gives the queues in turn: 0, 1 and so on, and after the last one 0 again. It takes no memory.
#[derive(Clone, Copy, Debug)]
pub struct QueueGroup {
    queues: u32,
    next: u32,
}

impl Model for QueueGroup {
    ghost use Rattle.std.specs.Prelude.{◌<◌};
    ghost use Rattle.mama_client.specs.Group.{Turning};

    ghost Value = { Turning };

    ghost view = { λ g. record { queues = g.queues; next = g.next } };

    ghost invariant = { λ g. g.next < g.queues };

    ghost inverse = { λ g. record { queues = g.queues; next = g.next } };
}

impl QueueGroup {
    /// A group of the queues below `queues`. Queue 0 is the first.
    pub fn new(queues: u32) -> QueueGroup
        requires { 0 < queues }
        ensures { result ≡ record { queues = queues; next = 0 } }
    {
        QueueGroup { queues, next: 0 }
    }

    /// The next queue in turn.
    pub fn next(&mut self) -> u32
        ensures value { result ≡ self.old.next }
        ensures within { result < self.old.queues }
        ensures next { self.new ≡ record self.old { next = next_in_turn self.old } }
        ensures turns { (turns : ℕ) → self.old.next ≡ turns % self.old.queues → self.new.next ≡ suc turns % self.old.queues }
    {
        let queue = self.next;
        let after = queue + 1;
        self.next = if after == self.queues { 0 } else { after };
        queue
    }
}
