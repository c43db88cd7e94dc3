ghost use Rattle.std.specs.Prelude.{◌≡◌, length};
ghost use Rattle.mama_rules_services.specs.Ports.{bridge_putter};
ghost use Rattle.mama_bridge.specs.Putters.{actor_of, IsThere};

use crate::chart::Chart;

/// The actor behind a port of the bridge's lane.
#[derive(Clone, Copy)]
pub(crate) enum Putter {
    Client(u32),
    Publisher(u32),
    Queue(u32),
    Nobody,
}

/// Who puts by a port. Clients come first, then publishers, then queues.
pub(crate) fn putter_of(shape: &Chart, publishers: u32, port: u32) -> Putter
    requires { publishers ≡ length shape.now.publisher_topics }
    ensures actor { actor_of result ≡ bridge_putter shape.now port }
    ensures there { IsThere shape.now result }
{
    if port < shape.clients() {
        return Putter::Client(port);
    }
    let after_clients = port - shape.clients();
    if after_clients < publishers {
        return Putter::Publisher(after_clients);
    }
    let after_publishers = after_clients - publishers;
    if after_publishers < shape.queues() {
        Putter::Queue(after_publishers)
    } else {
        Putter::Nobody
    }
}
