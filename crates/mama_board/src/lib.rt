//! The image board of a queue: one writer sets the images of subscriptions, and readers in other threads look them up
//! without ever waiting for it.
//!
//! [`open_board`] makes a [`Board`] and its [`ImageReader`]. The board is a list of sets ([`ImageSet`]), which only grows:
//! [`Board::set`] shows one set more, behind those that were refused, and [`Board::seal`] says that no set follows. Each of
//! the two answers a [`Told`], which names the sets so far and goes to whatever thread its caller likes. For every schedule
//! of threads:
//!
//! - What a reader answers of a subscription is its row after the sets that it has seen: the last of these that names it,
//!   or none (`row` of `specs/Rows.antt`). From look to look these only grow.
//! - From a `Told` that it learnt on ([`ImageReader::learn`]) they begin with the sets which that names, or are no fewer.
//!   Once it learnt the `Told` of a seal they are those which that names, and stay so.
//! - The sets that a `Told` names are the board's. That those of which a reader was not told are the board's own too is
//!   kept by the rule below, and no clause says it; nor that a set and those that waited come into sight at one step.
//! - A look takes no lock and waits for nobody. `set` and `seal` wait for readers that still look at what was shown
//!   before the last step. So the images cannot stand behind a lock: to take one wants a `Wait`, which `fixed` and `read`
//!   are not given, and such a body does not compile.
//!
//! `specs/Values.antt` says what clauses see of a board, a `Told` and a reader, and what each call makes of them.
//!
//! # The rule
//!
//! The board stands on `left_right`: two copies of the images, of which readers see one while the writer changes the
//! other. The writer and each reader have a place at it, and a place knows some sets and whether they are all (`View`).
//! The rule (`IsKept` of `specs/Rule.antt`) holds after every step: the images that are shown are those of a list of
//! sets, which begins with what each place knows, and is all of it where the place knows of the seal. These are all the
//! kinds of step:
//!
//! | step | call | place that steps | what changes | what it tells |
//! |---|---|---|---|---|
//! | publish | `Board::set` | the writer's | the sets that waited and this one are shown; the writer knows them | |
//! | seal | `Board::seal` | the writer's | the sets that waited are shown, and the images are marked; the writer knows both | |
//! | enter | `ImageReader::fixed`, `read` | the reader's | the reader knows the sets that are shown | the images are those of the sets that it knows now, which begin with those that it knew |
//! | tell | `Board::set`, `seal` | the writer's | a new place knows what the writer knows | |
//! | learn | `ImageReader::learn` and `tell` | a new place | it takes in what the writer told | |
//!
//! A reader that learns a `Told` goes on at the place of that `Told`. No step knows which place is the writer's: what
//! the writer alone may do is said by the images, which count their sets and carry the mark of the seal.
#![tactic(auto)]

mod board;
mod change;
mod image_reader;
mod image_set;
mod images;
mod row;
mod rule;
mod steps;
mod told;
mod view;

pub use board::{Board, MOST_PLACES, open_board};
pub use image_reader::ImageReader;
pub use image_set::ImageSet;
pub use mama_memory::OutOfMemory;
pub use row::Row;
pub use told::Told;
