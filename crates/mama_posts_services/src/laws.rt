ghost use Rattle.mama_posts_services.specs.Byes.{BridgesEndByByes, TimersEndByByes};

/// A law: a bridge that is over took each queue's last event by the queue's port.
pub fn bridges_end_by_byes()
    ensures { BridgesEndByByes }
{}

/// A law: a timer service that is over took each queue's last event by the queue's port.
pub fn timers_end_by_byes()
    ensures { TimersEndByByes }
{}
