//! What holds of contexts of either strategy, whatever messages they take.
ghost use Rattle.mama_dq.specs.Image.{ImageLaw, BasicLaw};
ghost use Rattle.mama_dq.specs.Gap.{GapLaw, StaleLaw};
ghost use Rattle.mama_dq.specs.Orderly.{OrderlyLaw};
ghost use Rattle.mama_dq.specs.Kept.{KeptLaw};

/// An image that is ok is its sender's record: if all messages that a context took are genuine for the bases and the
/// updates of their senders, and the image is ok, then it is the sender's base with that sender's updates applied,
/// up to the last number. Links may lose, repeat and reorder messages, caches may overflow, recaps may be late and
/// senders may change.
pub fn image_law()
    ensures { ImageLaw }
{}

/// No gap is false: each number of a gap that is told was not taken since the subscription last turned to the
/// sender, or was taken and dropped by a full cache before the first image.
pub fn gap_law()
    ensures { GapLaw }
{}

/// An image is called stale only right after a gap was told in the same step, or at an update of another sender.
pub fn stale_law()
    ensures { StaleLaw }
{}

/// Over a link without faults, and from one sender, a market subscription is told neither a gap nor a change of
/// quality, and each update numbered above the first image's number is called back once.
pub fn orderly_law()
    ensures { OrderlyLaw }
{}

/// Where an image is its sender's record, updates are kept for a gap only with strategy two; they are all numbered above
/// the last number, and the phase says whether there are any.
pub fn kept_law()
    ensures { KeptLaw }
{}

/// A basic subscription has no image, whatever messages it takes.
pub fn basic_law()
    ensures { BasicLaw }
{}
