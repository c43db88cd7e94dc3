use crate::image_set::ImageSet;

/// What the writer logs, and both copies of the images take in.
#[derive(Drop)]
pub enum Change {
    Set(ImageSet),
    /// No set follows. A seal that was refused stays in the log; a set that follows it takes it back.
    Seal,
}
