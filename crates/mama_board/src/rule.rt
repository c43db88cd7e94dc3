// The rule of a board, and what each kind of step does to the view of the place that makes it.
ghost use Rattle.std.specs.Prelude.{◌≡◌, Bool, false, []};
ghost use Rattle.mama_board.specs.Rule.{Sets, IsKept, IsLook, newcomer, published};

use crate::change::Change;
use crate::images::Images;
use crate::view::View;
use atomic_table::{Join, Split};
use crossbeam_utils::rule::{Outcome, Protocol};
use std::marker::{Brand, PhantomData};

/// The end of a board by which its images are changed.
pub type Writer = left_right::writer::Writer<Images, Change, View, Rule>;

/// An end of a board by which its images are read. It knows some of the board's sets.
pub type Place = left_right::reader::Reader<Images, View, Rule>;

/// The rule of a board.
pub struct Rule;

impl Protocol<Images, View> for Rule {
    ghost holds = { IsKept };

    ghost first = { newcomer };
}

/// What a publish shows: the sets of the log, in order, and whether a seal follows the last of them.
pub trait Given {
    ghost sets: { Sets };

    ghost sealed: { Bool };
}

impl Given for Brand {
    ghost sets = { [] };

    ghost sealed = { false };
}

/// The steps publish and seal: the sets of the log are shown, and the writer knows them.
pub struct Publish<G> {
    of: PhantomData<G>,
}

impl<G: Given> Outcome<Images, View> for Publish<G> {
    ghost then = { λ v x y w. w ≡ published G.sets G.sealed v };
}

/// The step enter: the place knows the sets that are shown, which begin with those that it knew.
pub struct Enter;

impl Outcome<Images, View> for Enter {
    ghost then = { λ v x y w. IsLook v y w };
}

/// The step tell: a note knows what the writer knows.
pub struct Tell;

impl Split<View> for Tell {
    ghost left = { λ v. v };

    ghost right = { λ v. v };
}

/// The step learn: a place takes in what a note knows.
pub struct Learn;

impl Join<View> for Learn {
    ghost both = { λ v told. told };

    ghost spent = { newcomer };
}
