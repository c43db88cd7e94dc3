//! A script played on threads: `play`, `play_groups` with listeners of its groups, and `play_observed` with an observer too, which
//! reads images meanwhile.
//!
//! [`play`] opens the crew of a script, gives its seats to threads in groups ([`groups`]), and when all have ended sets them in
//! the order of their actors again ([`order`]) and closes the crew. Whatever the threads did in whichever order, the record is
//! legal for the script.
//!
//! So no promise depends on which thread turns a seat, and what decides that has no clause (`other_threads`, `group_of`). Nor has
//! the place by which seats are sorted (`place_of`), since the order that comes of it is tested; nor what an observer leaves of
//! the readers (`looked`), since the closing tests whose they are.
#![tactic(auto)]

mod groups;
mod observer;
mod order;
mod playing;

pub use mama_board::ImageReader;
pub use mama_carry::{Listener, Maker};
pub use mama_crew::Script;
pub use mama_edge::{Clock, Gate, GateActor};
pub use mama_event::ObjectId;
pub use mama_group::{GroupListener, GroupMaker, SilentGroup, SilentGroups};
pub use mama_memory::OutOfMemory;
pub use mama_record::RunRecord;
pub use observer::{NoObserver, Observer};
pub use playing::{play, play_groups, play_observed};
