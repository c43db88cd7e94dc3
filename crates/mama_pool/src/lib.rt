//! Pools: items that move between numbered hands, in whatever threads these are; each item is in one place, and none is lost
//! or made.
//!
//! [`open_pool`] makes the [`Hand`]s. Each has a first-in first-out deque of its own, to which it alone pushes
//! ([`Hand::push`]), and takes from its own ([`Hand::pop`]) or another's ([`Hand::steal`]). An item is known to the pool by its
//! number ([`Numbered`]) alone. For every schedule of the threads:
//!
//! - What a hand pushed grows by the item's number, and so does what a hand took from a deque.
//! - A hand finds nothing only where all that it pushed was taken, if it took from its own deque, or all that the notes name
//!   which it learnt, if from another's ([`Hand::tell`], [`Hand::learn`]): taken, or counted as taken by a call under way.
//! - At the end, of each deque what was pushed is what is gone and then what was left; of each number as many are gone as all
//!   hands took; and what a hand knows to be taken is gone ([`close_pool`]). So nothing is left in the deque of a hand that found
//!   nothing there and pushed no more ([`nothing_is_left`]); and where that is so of all hands, of each number as many were
//!   taken as were pushed ([`all_was_taken`]).
//!
//! Nothing is promised of waiting: not that a push is ever found, nor that a call that takes a `Wait` returns.
//!
//! # The rules
//!
//! A deque alone cannot tell its hand that it found nothing: its empty look changes no view, and only its own hand takes in
//! what others know of it. So beside each deque stands a tally, a cell of two words: how many pushes were counted, and how many
//! takes. What was pushed or taken is counted before the call returns. A hand that finds the deque empty looks at the tally: as
//! many takes as pushes is the empty look; fewer means that a hand is between its take and its count, and the call tries again.
//!
//! Each hand has a share in each deque and in its tally, and each note a part of a tally: a pass, by which it makes its steps.
//! What the pass knows is its view (`View`, `Count`). The rules (`IsKept` and `Tallied` of `specs/Rule.antt`) hold after every
//! step. There are 65 shares; who has all of them knows what all hands took. `specs/Steps.antt` says what each step does to
//! views, and `specs/Values.antt` what clauses see. These are all the kinds of step:
//!
//! | step | call | pass that steps | what changes | what it tells |
//! |---|---|---|---|---|
//! | split | `open_pool` | the own hand's, of deque and tally | a hand gets a share, which has taken nothing | |
//! | push | `Hand::push` | the own hand's | the item goes last in the deque; what was pushed grows; then it is counted | |
//! | take | `Hand::pop`, `Hand::steal` | a hand's share | the first item leaves the deque; what the share took grows; then it is counted | |
//! | empty look | `Hand::pop`, `Hand::steal` | a hand's share in the tally | the known count becomes the takes that were found | no fewer were found than pushes, than was learnt of, and than was known |
//! | tell | `Hand::tell`, `Hand::push` | the own hand's, of the tally | a note gets the count of pushes | |
//! | learn | `Hand::learn`, `Hand::push` | a hand's share in the tally, and the note's | the learnt count becomes the note's, if that is greater; the note is spent | |
//! | join | `close_pool` | the own hand's, and a share | shares, what was taken and the counts are added; of known and learnt counts the greater is kept; the share is spent | |
//! | last look | `close_pool` | the own hand's, with all shares | nothing | what is gone, by number, is what was taken; known counts are at most the takes, learnt counts at most the pushes |
//!
//! A hand's share in its own deque learns of each push at once, so that its empty look tells that all was taken.
#![tactic(auto)]

mod close;
mod hand;
mod law;
mod note;
mod numbered;
mod open;
mod rule;
mod share;
mod steps;
mod view;

pub use close::close_pool;
pub use hand::Hand;
pub use law::{all_was_taken, nothing_is_left};
pub use mama_memory::OutOfMemory;
pub use note::HandNote;
pub use numbered::Numbered;
pub use open::open_pool;
