use mama_event::{ImageHead, SubId};
use mama_memory::{Duplicate, OutOfMemory};
use mama_msg::Msg;

/// One set of a board: from this set on, these are the head and the body of the subscription's image.
#[derive(Drop)]
pub struct ImageSet {
    /// The subscription whose image is replaced.
    pub sub: SubId,
    /// Whose record the image is, the last update in it, and its quality.
    pub head: ImageHead,
    /// The fields of the image.
    pub body: Msg,
}

impl Duplicate for ImageSet {
    fn try_clone(&self) -> Result<ImageSet, OutOfMemory> {
        let body = self.body.try_clone()?;
        Ok(ImageSet {
            sub: self.sub,
            head: self.head,
            body,
        })
    }
}
