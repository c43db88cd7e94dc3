/// What a turn of a seat came to.
#[derive(Clone, Copy, Debug, PartialEq, Eq)]
pub enum Pace {
    /// A step was made, and all that it puts was put.
    Moved,
    /// Nothing was there to do. More comes, and nothing changed.
    Waiting,
    /// All is done, and nothing more comes.
    Ended,
}
