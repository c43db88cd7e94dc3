//! A listener of any type, in a box, is a listener: so a queue, which serves listeners of one type, serves listeners
//! of many. What it tells is what the listener in the box tells, and each callback goes to that.

use crate::ids::ObjectId;
use crate::listener::Listener;
use crate::market::{MarketMsg, Quality};
use crate::order::Orders;
use crate::stream::Tagged;
use mama_msg::Msg;

impl Tagged for Box<dyn Listener + Send> {
    ghost tagged = { λ b. (Listener-box b).Tagged.tagged b.value };

    fn tag(&self) -> ObjectId {
        (**self).tag()
    }
}

impl Listener for Box<dyn Listener + Send> {
    ghost calls = { λ b. (Listener-box b).Listener.calls b.value };

    ghost heard = { λ b. (Listener-box b).Listener.heard b.value };

    ghost given = { λ b. (Listener-box b).Listener.given b.value };

    ghost plan = { λ b. (Listener-box b).Listener.plan b.value };

    fn count(&self) -> u64 {
        (**self).count()
    }

    fn on_create(&mut self, orders: &mut Orders) {
        (**self).on_create(orders)
    }

    fn on_msg(&mut self, msg: &MarketMsg, quality: Quality, orders: &mut Orders) {
        (**self).on_msg(msg, quality, orders)
    }

    fn on_quality(&mut self, quality: Quality, number: u32, orders: &mut Orders) {
        (**self).on_quality(quality, number, orders)
    }

    fn on_gap(&mut self, first: u32, to: u32, orders: &mut Orders) {
        (**self).on_gap(first, to, orders)
    }

    fn on_recap_request(&mut self, sender: u32, orders: &mut Orders) {
        (**self).on_recap_request(sender, orders)
    }

    fn on_late(&mut self, sender: u32, seq: u32, orders: &mut Orders) {
        (**self).on_late(sender, seq, orders)
    }

    fn on_error(&mut self, code: u8, orders: &mut Orders) {
        (**self).on_error(code, orders)
    }

    fn on_destroy(&mut self, orders: &mut Orders) {
        (**self).on_destroy(orders)
    }

    fn on_tick(&mut self, moment: u64, orders: &mut Orders) {
        (**self).on_tick(moment, orders)
    }

    fn on_reply(&mut self, body: &Msg, orders: &mut Orders) {
        (**self).on_reply(body, orders)
    }
}
