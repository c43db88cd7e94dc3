ghost use Rattle.std.specs.Prelude.{◌≡◌};
ghost use Rattle.mama_event.specs.ToService.{service_of};

use crate::order::Order;
use crate::to_bridge::ToBridge;
use crate::to_timers::ToTimers;

/// What a client or a queue puts: on the bridge's lane or on that of the timer service.
#[derive(Debug, Drop)]
pub enum ToService<L> {
    Bridge(ToBridge<L>),
    Timers(ToTimers<L>),
}

impl<L> ToService<L> {
    /// What an order puts: to the bridge the end of a subscription or of an inbox, or a request; to the timer service
    /// the end of a timer. It takes no memory.
    pub fn of_order(order: &Order) -> ToService<L>
        ensures { result ≡ service_of order.now }
    {
        match order {
            Order::Stop(sub) => ToService::Bridge(ToBridge::Leave { sub: *sub }),
            Order::Disarm(timer) => ToService::Timers(ToTimers::Disarm { timer: *timer }),
            Order::Close(inbox) => ToService::Bridge(ToBridge::CloseInbox { inbox: *inbox }),
            Order::Ask { inbox, topic, fids } => ToService::Bridge(ToBridge::Ask {
                inbox: *inbox,
                topic: *topic,
                fids: *fids,
            }),
        }
    }
}
