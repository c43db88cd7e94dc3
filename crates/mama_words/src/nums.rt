ghost use Rattle.std.specs.Prelude.{◌≡◌};
ghost use Rattle.mama_words.specs.Value.{nums_of};

use crate::version::Version;

/// Whether a text knows the type `nums`, of lists of numbers.
#[derive(Clone, Copy, Debug, PartialEq, Eq)]
pub enum Nums {
    /// A field of this type has a fault.
    Unknown,
    /// Fields of this type are read as those of any other.
    Known,
}

impl Nums {
    /// Texts of version 2 know the type, and those of version 1 do not.
    pub fn of(version: Version) -> Nums
        ensures { result ≡ nums_of version }
    {
        match version {
            Version::One => Nums::Unknown,
            Version::Two => Nums::Known,
        }
    }
}
