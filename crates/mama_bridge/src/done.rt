/// Who is done, and with what.
#[derive(Clone, Copy)]
pub(crate) enum Done {
    /// A client has put its last line.
    Client(u32),
    /// A publisher has sent the last of its own accord.
    Sends(u32),
    /// A publisher has settled.
    Settled(u32),
}
