ghost use Rattle.std.specs.Prelude.{◌≡◌, ℕ, ◌==◌, ◌&&◌, List, [], ◌∷◌, map, OnOk};
ghost use Rattle.mama_rules_queue.specs.Queue.{called, order_put, wish_put, puts_of, bye_put, is_fin, to_bridge as for_bridge, to_timers as for_timers};
ghost use Rattle.mama_event.specs.declared.to_bridge.BridgeNote.TheVariants as bridge;
ghost use Rattle.mama_event.specs.declared.to_timers.TimersNote.TheVariants as timers;
ghost use Rattle.mama_journal.specs.Journal.{count_of};
ghost use Rattle.mama_event.specs.declared.to_queue.QueueNote.{QueueNote as AnyNote};
ghost use Rattle.mama_timeout.specs.Table.{wish_puts};
ghost use Rattle.mama_check_queue.specs.Puts.{put_all};

use mama_event::{BridgeNote, Callback, ObjectId, Order, QueueNote, SubId, TimersNote};
use mama_memory::OutOfMemory;
use std::alloc::Global;
use std::marker::Model;

/// What a queue put, each event with the number of the entry that put it.
#[derive(Drop)]
pub(crate) struct Puts {
    to_bridge: Vec<(usize, BridgeNote)>,
    to_timers: Vec<(usize, TimersNote)>,
}

impl Model for Puts {
    ghost use Rattle.mama_check_queue.specs.Puts.{PutData};

    ghost Value = { PutData };

    ghost view = { λ p. record { bridge = p.to_bridge.items; timers = p.to_timers.items } };
}

/// The wish for a recap that a callback makes.
fn wish_of(object: &ObjectId, call: &Callback) -> Option<(SubId, u32)>
    ensures { wish_puts result ≡ wish_put object.now call.now }
{
    match (object, call) {
        (ObjectId::Sub(sub), Callback::RecapRequest { sender }) => Some((*sub, *sender)),
        _ => None,
    }
}

/// Whether an entry says that nothing more comes by its port.
pub(crate) fn is_last(note: &QueueNote) -> bool
    ensures { (port : ℕ) → result ≡ is_fin (port, note.now) }
{
    match note {
        QueueNote::Fin => true,
        _ => false,
    }
}

/// Whether an entry is the second of these, where there were so many before.
fn is_second_fin(note: &QueueNote, fins: usize) -> bool
    ensures { (port : ℕ) → result ≡ (is_fin (port, note.now) && fins == 1) }
{
    is_last(note) && fins == 1
}

impl Puts {
    /// Nothing was put. It takes no memory.
    pub(crate) fn new(alloc: Global) -> Puts
        ensures { result ≡ record { bridge = []; timers = [] } }
    {
        Puts {
            to_bridge: Vec::new(alloc),
            to_timers: Vec::new(alloc),
        }
    }

    /// What was put to the bridge.
    pub(crate) fn to_bridge(&self) -> &[(usize, BridgeNote)]
        ensures { result.now ≡ self.now.bridge }
    {
        self.to_bridge.as_slice()
    }

    /// What was put to the timer service.
    pub(crate) fn to_timers(&self) -> &[(usize, TimersNote)]
        ensures { result.now ≡ self.now.timers }
    {
        self.to_timers.as_slice()
    }

    /// Puts an event to the bridge.
    fn put_to_bridge(&mut self, entry: usize, note: BridgeNote) -> Result<(), OutOfMemory>
        ensures { OnOk result (self.new ≡ put_all entry (for_bridge note ∷ []) self.old) }
    {
        self.to_bridge.push((entry, note))?;
        Ok(())
    }

    /// Puts an event to the timer service.
    fn put_to_timers(&mut self, entry: usize, note: TimersNote) -> Result<(), OutOfMemory>
        ensures { OnOk result (self.new ≡ put_all entry (for_timers note ∷ []) self.old) }
    {
        self.to_timers.push((entry, note))?;
        Ok(())
    }

    /// Puts what an order says.
    fn put_order(&mut self, entry: usize, order: &Order) -> Result<(), OutOfMemory>
        ensures { OnOk result (self.new ≡ put_all entry (order_put order.now ∷ []) self.old) }
    {
        match order {
            Order::Stop(sub) => self.put_to_bridge(entry, BridgeNote::Leave { sub: *sub }),
            Order::Disarm(timer) => {
                self.put_to_timers(entry, TimersNote::Disarm { timer: *timer })
            }
            Order::Close(inbox) => {
                self.put_to_bridge(entry, BridgeNote::CloseInbox { inbox: *inbox })
            }
            Order::Ask { inbox, topic, fids } => self.put_to_bridge(
                entry,
                BridgeNote::Ask {
                    inbox: *inbox,
                    topic: *topic,
                    fids: *fids,
                },
            ),
        }
    }

    /// Puts a wish for a recap, if there is one: the subscription and the sender.
    pub(crate) fn put_wish(
        &mut self,
        entry: usize,
        wish: Option<(SubId, u32)>,
    ) -> Result<(), OutOfMemory>
        ensures { OnOk result (self.new ≡ put_all entry (wish_puts wish) self.old) }
    {
        match wish {
            Some((sub, sender)) => {
                self.put_to_bridge(entry, BridgeNote::RecapWish { sub, sender })
            }
            None => Ok(()),
        }
    }

    /// Puts what some orders say, in order.
    fn put_orders(&mut self, entry: usize, orders: &[Order]) -> Result<(), OutOfMemory>
        ensures { OnOk result (self.new ≡ put_all entry (map order_put orders.now) self.old) }
    {
        for order in orders {
            self.put_order(entry, order)?;
        }
        Ok(())
    }

    /// Puts the wish of a callback, and then its orders.
    pub(crate) fn put_call(
        &mut self,
        entry: usize,
        object: &ObjectId,
        call: &Callback,
        orders: &[Order],
    ) -> Result<(), OutOfMemory>
        ensures { OnOk result (self.new ≡ put_all entry (puts_of (called object.now call.now orders.now)) self.old) }
    {
        self.put_wish(entry, wish_of(object, call))?;
        self.put_orders(entry, orders)
    }

    /// Says Bye to the bridge, and then to the timer service.
    fn put_bye(&mut self, entry: usize) -> Result<(), OutOfMemory>
        ensures { OnOk result (self.new ≡ put_all entry (for_bridge bridge.Bye ∷ for_timers timers.Bye ∷ []) self.old) }
    {
        self.put_to_bridge(entry, BridgeNote::Bye)?;
        self.put_to_timers(entry, TimersNote::Bye)
    }

    /// Puts what an entry puts beside its callbacks: the second `Fin` says Bye.
    pub(crate) fn put_end(
        &mut self,
        entry: usize,
        note: &QueueNote,
        fins: usize,
    ) -> Result<(), OutOfMemory>
        ensures { OnOk result ((port : ℕ) (before : List (ℕ × AnyNote)) → fins ≡ count_of is_fin before → self.new ≡ put_all entry (bye_put before (port, note.now)) self.old) }
    {
        if is_second_fin(note, fins) {
            return self.put_bye(entry);
        }
        Ok(())
    }
}
