//! What a place knows. It exists in proofs alone.

use crate::image_set::ImageSet;
use std::collections::LinkedList;

/// What a place of a board knows. In a clause a `LinkedList` is a list. No value of it is made.
pub struct View {
    /// The first sets of the board, in order.
    pub seen: LinkedList<ImageSet>,
    /// Whether these are all sets of the board, which is sealed.
    pub sealed: bool,
}
