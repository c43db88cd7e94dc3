ghost use Rattle.std.specs.Prelude.{◌≡◌, IfOk};

use crate::given::GivenOrders;
use crate::market::{MarketMsg, Quality};
use mama_memory::{Duplicate, OutOfMemory};
use mama_msg::Msg;

/// One callback of an object's listener.
#[derive(Debug, Drop)]
pub enum Callback {
    /// The object is there.
    Create,
    /// A message as it came, with the quality of the image after it. A basic subscription has no image, and hears `Ok`.
    Msg { msg: MarketMsg, quality: Quality },
    /// No update numbered `first` to `to`, both included, was taken since the subscription turned to this sender, or those
    /// that were taken were dropped from a full cache before the image could take them. A link may still bring some later.
    Gap { first: u32, to: u32 },
    /// The image's quality changed. The number is that of the last update which the image had when it changed: of the
    /// former sender, where another sender's update made it stale.
    Quality { quality: Quality, number: u32 },
    /// A recap is wished for from this sender. Whether the bridge asks for it, its own rules say.
    RecapRequest { sender: u32 },
    /// An update came that is not above the image's last number: one numbered `seq` of this sender.
    Late { sender: u32, seq: u32 },
    /// What came has bytes that spell no message: the code of the first fault in them, 1 to 7, as `error_code` has it.
    Error { code: u8 },
    /// The object is gone. Nothing follows.
    Destroy,
    /// A timer's tick at this moment, in milliseconds.
    Tick { moment: u64 },
    /// A reply to an inbox.
    Reply { body: Msg },
}

impl PartialEq for Callback {
    ghost use Rattle.std.specs.Prelude.{◌≡◌};
    ghost use Rattle.std.specs.Cmp.{partial_equiv_from_equiv};
    ghost use Rattle.mama_event.specs.Equality.{same_callback};
    ghost use Rattle.mama_event.specs.EqualityLaws.{same_callback_equivalence};

    ghost eq = { same_callback };

    ghost laws = { partial_equiv_from_equiv same_callback_equivalence };

    fn eq(&self, other: &Callback) -> bool
        ensures { result ≡ same_callback self.now other.now }
    {
        match (self, other) {
            (Callback::Create, Callback::Create) => true,
            (
                Callback::Msg { msg, quality },
                Callback::Msg {
                    msg: other_msg,
                    quality: other_quality,
                },
            ) => msg == other_msg && quality == other_quality,
            (
                Callback::Gap { first, to },
                Callback::Gap {
                    first: other_first,
                    to: other_to,
                },
            ) => first == other_first && to == other_to,
            (
                Callback::Quality { quality, number },
                Callback::Quality {
                    quality: other_quality,
                    number: other_number,
                },
            ) => quality == other_quality && number == other_number,
            (
                Callback::RecapRequest { sender },
                Callback::RecapRequest {
                    sender: other_sender,
                },
            ) => sender == other_sender,
            (
                Callback::Late { sender, seq },
                Callback::Late {
                    sender: other_sender,
                    seq: other_seq,
                },
            ) => sender == other_sender && seq == other_seq,
            (Callback::Error { code }, Callback::Error { code: other_code }) => code == other_code,
            (Callback::Destroy, Callback::Destroy) => true,
            (
                Callback::Tick { moment },
                Callback::Tick {
                    moment: other_moment,
                },
            ) => moment == other_moment,
            (Callback::Reply { body }, Callback::Reply { body: other_body }) => body == other_body,
            _ => false,
        }
    }
}

impl Eq for Callback {
    ghost use Rattle.mama_event.specs.EqualityLaws.{same_callback_equivalence};

    ghost laws = { same_callback_equivalence };
}

impl Duplicate for Callback {
    fn try_clone(&self) -> Result<Callback, OutOfMemory> {
        match self {
            Callback::Create => Ok(Callback::Create),
            Callback::Msg { msg, quality } => Ok(Callback::Msg {
                msg: msg.try_clone()?,
                quality: *quality,
            }),
            Callback::Gap { first, to } => Ok(Callback::Gap {
                first: *first,
                to: *to,
            }),
            Callback::Quality { quality, number } => Ok(Callback::Quality {
                quality: *quality,
                number: *number,
            }),
            Callback::RecapRequest { sender } => Ok(Callback::RecapRequest { sender: *sender }),
            Callback::Late { sender, seq } => Ok(Callback::Late {
                sender: *sender,
                seq: *seq,
            }),
            Callback::Error { code } => Ok(Callback::Error { code: *code }),
            Callback::Destroy => Ok(Callback::Destroy),
            Callback::Tick { moment } => Ok(Callback::Tick { moment: *moment }),
            Callback::Reply { body } => Ok(Callback::Reply {
                body: body.try_clone()?,
            }),
        }
    }
}

/// A callback that was made, and the orders that the listener gave in it.
#[derive(Debug, Drop)]
pub struct CallNote {
    pub call: Callback,
    pub orders: GivenOrders,
}

impl PartialEq for CallNote {
    ghost use Rattle.std.specs.Prelude.{◌≡◌};
    ghost use Rattle.std.specs.Cmp.{partial_equiv_from_equiv};
    ghost use Rattle.mama_event.specs.Equality.{same_call_note};
    ghost use Rattle.mama_event.specs.EqualityLaws.{same_call_note_equivalence};

    ghost eq = { same_call_note };

    ghost laws = { partial_equiv_from_equiv same_call_note_equivalence };

    fn eq(&self, other: &CallNote) -> bool
        ensures { result ≡ same_call_note self.now other.now }
    {
        self.call == other.call && self.orders == other.orders
    }
}

impl Eq for CallNote {
    ghost use Rattle.mama_event.specs.EqualityLaws.{same_call_note_equivalence};

    ghost laws = { same_call_note_equivalence };
}

impl Duplicate for CallNote {
    fn try_clone(&self) -> Result<CallNote, OutOfMemory> {
        let call = self.call.try_clone()?;
        let orders = self.orders.try_clone()?;
        Ok(CallNote { call, orders })
    }
}
