use mama_event::ImageHead;
use mama_msg::Msg;

/// What a board shows of a subscription: the head and the body of its image.
#[derive(Drop)]
pub struct Row {
    /// Whose record the image is, the last update in it, and its quality.
    pub head: ImageHead,
    /// The fields of the image.
    pub body: Msg,
}
