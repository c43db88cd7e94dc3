/// The version of a script's text or of a log's: which lines it may have.
#[derive(Clone, Copy, Debug, PartialEq, Eq)]
pub enum Version {
    One,
    Two,
}
