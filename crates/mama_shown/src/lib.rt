//! The seats of a crew whose queues tell their groups, and show their images while the run goes on.
//!
//! A [`ShownSeat`] is a seat of a crew with its groups. That of a queue has the queue's image board beside it ([`Showing`]), on
//! which each turn sets the image that it changed. [`open_shown`] opens a crew with such boards, and gives the reader of each.
//! When a queue has ended its board is sealed, and only then has its seat ended. [`close_shown`] closes the crew: the readers
//! learn what the seals told, and what they then read are the record's last images.
//!
//! What a board promises stands in `AreShown` of `specs/Images.antt`: after its sets, those that wait too, each subscription has
//! the image that its queue's journal gives, but for those that entries name which are still to be shown. `IsSeatOf` of
//! `specs/Seat.antt` is what a seat keeps from turn to turn.
#![tactic(auto)]

mod closing;
mod crew;
mod images;
mod queries;
mod seat;
mod showing;
mod turning;

pub use closing::{close_grouped, close_shown};
pub use crew::{ShownCrew, open_shown};
pub use mama_board::ImageReader;
pub use mama_crew::{GateActor, Hall, Listener, Maker, OutOfMemory, Pace, Script};
pub use mama_grouped::{GroupListener, GroupMaker, SilentGroup, SilentGroups};
pub use seat::ShownSeat;
pub use showing::Showing;
