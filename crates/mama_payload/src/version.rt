//! The versions of the payload.
ghost use Rattle.std.specs.Prelude.{◌≡◌};
ghost use Rattle.mama_payload.specs.Spelling.{has_numbers};

use crate::kind::Kind;
use mama_msg::Msg;

/// A version of the payload: the second has lists of numbers, and is the form of messages with such a field alone.
#[derive(Clone, Copy, Debug, PartialEq, Eq)]
pub enum Version {
    /// Without lists of numbers.
    One = 1,
    /// With lists of numbers.
    Two = 2,
}

/// Whether some field of a message is a list of numbers.
fn has_numbers(msg: &Msg) -> bool
    ensures { result ≡ has_numbers msg.now }
{
    for i in 0..msg.len() {
        if Kind::of(msg.at(i).value()).is_numbers() {
            return true;
        }
    }
    false
}

impl Version {
    ghost use Rattle.mama_payload.specs.Spelling.{version_of, first_byte};
    ghost use Rattle.mama_payload.specs.Reading.{version_with_byte, has_old_form};

    /// The version of the payload of a message.
    pub(crate) fn of(msg: &Msg) -> Version
        ensures { result ≡ version_of msg.now }
    {
        if has_numbers(msg) {
            Version::Two
        } else {
            Version::One
        }
    }

    /// The first byte of a payload.
    pub(crate) fn byte(self) -> u8
        ensures { result ≡ first_byte self }
    {
        self as u8
    }

    /// The version with this first byte, if there is one.
    pub(crate) fn with_byte(byte: u8) -> Option<Version>
        ensures { result ≡ version_with_byte byte }
    {
        match byte {
            1 => Some(Version::One),
            2 => Some(Version::Two),
            _ => None,
        }
    }

    /// Whether a message that came in this version has an older form.
    pub(crate) fn is_new_for(self, msg: &Msg) -> bool
        ensures { result ≡ has_old_form self msg.now }
    {
        match self {
            Version::One => false,
            Version::Two => !has_numbers(msg),
        }
    }
}
