//! What holds of all messages and of all bytes. The calls do nothing: what they ensure is the law.
ghost use Rattle.mama_payload.specs.Laws.{NoSpellingBeginsAnother, OneSpellingIsOneMessage, SpellingIsRead, LongerIsTrailing, ShorterIsTruncated, FaultStands, TruncatedIsAtTheEnd, SpellingsAreBytes};

/// No spelling begins another, so what was written is told from what follows it, and two messages with one spelling
/// are equal.
pub fn spellings_are_apart()
    ensures apart { NoSpellingBeginsAnother }
    ensures equal { OneSpellingIsOneMessage }
{}

/// A spelling is read as what it spells. With a byte more it is `Trailing` at that byte, and with a byte less, or with
/// any number of bytes less, `Truncated` at the end of what is left.
pub fn spellings_are_read()
    ensures whole { SpellingIsRead }
    ensures longer { LongerIsTrailing }
    ensures shorter { ShorterIsTruncated }
{}

/// A fault other than `Truncated` stands at its place whatever follows, so no spelling begins with bytes that have one.
/// `Truncated` stands at the end of the bytes.
pub fn faults_stand()
    ensures stand { FaultStands }
    ensures truncated { TruncatedIsAtTheEnd }
{}

/// Each number of a spelling is below 256, if the bytes that its values hold are.
pub fn spellings_are_bytes()
    ensures { SpellingsAreBytes }
{}
