ghost use Rattle.std.specs.Prelude.{◌≡◌, ℕ, Option, List, []};
ghost use Rattle.mama_event.specs.declared.callback.Callback.{Callback};
ghost use Rattle.mama_event.specs.declared.callback.Callback.TheVariants as on;
ghost use Rattle.mama_event.specs.declared.order.Order.{Order};
ghost use Rattle.mama_event.specs.declared.order.PlanRow.{PlanRow};
ghost use Rattle.mama_event.specs.Listener.{told, Heard};

use crate::market::{MarketMsg, Quality};
use crate::order::Orders;
use crate::stream::Tagged;
use mama_msg::Msg;

/// What is called back for an object. Its tag is the object.
///
/// Each callback leaves in `orders`, which is empty before, the orders that the listener gives in it. A listener that tells
/// no plan can tell them afterwards.
pub trait Listener: Tagged {
    // How many callbacks it got, as far as they are counted.
    ghost calls: { Self → ℕ };

    // The callbacks that it got, where it tells them.
    ghost heard: { Self → Option (List Callback) };

    // The orders that it left in each callback, where it tells them.
    ghost given: { Self → Option (List (List Order)) };

    // The orders that it gives, where it tells them beforehand. They never change.
    ghost plan: { Self → Option (List PlanRow) };

    /// How many callbacks it got, up to 2^64 - 1.
    fn count(&self) -> u64
        ensures { result ≡ calls self.now };

    /// The object is there.
    fn on_create(&mut self, orders: &mut Orders)
        requires { orders.old ≡ [] }
        ensures { Heard on.Create (told Self.tagged calls heard given plan self.old) (told Self.tagged calls heard given plan self.new) orders.new };

    /// A message as it came, with the quality of the image after it. A basic subscription has no image, and hears `Ok`.
    fn on_msg(&mut self, msg: &MarketMsg, quality: Quality, orders: &mut Orders)
        requires { orders.old ≡ [] }
        ensures { Heard (on.Msg msg.now quality) (told Self.tagged calls heard given plan self.old) (told Self.tagged calls heard given plan self.new) orders.new };

    /// The image's quality changed. The number is that of the last update which the image had when it changed: of the
    /// former sender, where another sender's update made it stale.
    fn on_quality(&mut self, quality: Quality, number: u32, orders: &mut Orders)
        requires { orders.old ≡ [] }
        ensures { Heard (on.Quality quality number) (told Self.tagged calls heard given plan self.old) (told Self.tagged calls heard given plan self.new) orders.new };

    /// No update numbered `first` to `to`, both included, was taken since the subscription turned to this sender, or those
    /// that were taken were dropped from a full cache before the image could take them. A link may still bring some later.
    fn on_gap(&mut self, first: u32, to: u32, orders: &mut Orders)
        requires { orders.old ≡ [] }
        ensures { Heard (on.Gap first to) (told Self.tagged calls heard given plan self.old) (told Self.tagged calls heard given plan self.new) orders.new };

    /// A recap is wished for from this sender. Whether the bridge asks for it, its own rules say.
    fn on_recap_request(&mut self, sender: u32, orders: &mut Orders)
        requires { orders.old ≡ [] }
        ensures { Heard (on.RecapRequest sender) (told Self.tagged calls heard given plan self.old) (told Self.tagged calls heard given plan self.new) orders.new };

    /// An update came that is not above the image's last number: one numbered `seq` of this sender. The image stays as it
    /// is.
    fn on_late(&mut self, sender: u32, seq: u32, orders: &mut Orders)
        requires { orders.old ≡ [] }
        ensures { Heard (on.Late sender seq) (told Self.tagged calls heard given plan self.old) (told Self.tagged calls heard given plan self.new) orders.new };

    /// What came has bytes that spell no message: the code of the first fault in them, 1 to 7, as `error_code` has it.
    fn on_error(&mut self, code: u8, orders: &mut Orders)
        requires { orders.old ≡ [] }
        ensures { Heard (on.Error code) (told Self.tagged calls heard given plan self.old) (told Self.tagged calls heard given plan self.new) orders.new };

    /// The object is gone. Nothing follows.
    fn on_destroy(&mut self, orders: &mut Orders)
        requires { orders.old ≡ [] }
        ensures { Heard on.Destroy (told Self.tagged calls heard given plan self.old) (told Self.tagged calls heard given plan self.new) orders.new };

    /// A timer's tick at this moment, in milliseconds.
    fn on_tick(&mut self, moment: u64, orders: &mut Orders)
        requires { orders.old ≡ [] }
        ensures { Heard (on.Tick moment) (told Self.tagged calls heard given plan self.old) (told Self.tagged calls heard given plan self.new) orders.new };

    /// A reply to an inbox.
    fn on_reply(&mut self, body: &Msg, orders: &mut Orders)
        requires { orders.old ≡ [] }
        ensures { Heard (on.Reply body.now) (told Self.tagged calls heard given plan self.old) (told Self.tagged calls heard given plan self.new) orders.new };
}
