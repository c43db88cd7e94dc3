ghost use Rattle.std.specs.Prelude.{◌≡◌, ℕ, Bool, true, List, [], ◌∷◌, ◌++◌, IfOk};
ghost use Rattle.mama_event.specs.declared.shape.Bounds.{Bounds};
ghost use Rattle.mama_event.specs.declared.ids.ObjectId.{ObjectId};

use crate::ids::ObjectId;
use mama_memory::OutOfMemory;

/// A value that tells which object it is for. A listener tells its object.
pub trait Tagged: Drop {
    ghost tagged: { Self → ObjectId };

    /// The object that this value is for. It never changes.
    fn tag(&self) -> ObjectId
        ensures { result ≡ tagged self.now };
}

impl Tagged for ObjectId {
    ghost tagged = { λ object. object };

    fn tag(&self) -> ObjectId {
        *self
    }
}

/// The events that one lane carries. What a port may put is said of the events' notes, which are plain data.
pub trait Stream: Drop {
    /// The event as plain data: its listener, if it brings one, is told by its tag.
    type Note;

    // The note of an event.
    ghost noted: { Self → Self.Note };

    // Whether an event of this note is the last that its port puts.
    ghost last: { Self.Note → Bool };

    // Within these bounds, the port of this number may put this list of notes.
    ghost lawful: { Bounds → ℕ → List Self.Note → Type 0 };

    /// The event's note. The error is want of memory.
    fn note(&self) -> Result<Self::Note, OutOfMemory>
        ensures { IfOk result (λ note. note ≡ noted self.now) };

    /// Whether this is the last event that its port puts. It takes no memory.
    fn is_last(&self) -> bool
        ensures { result ≡ last (noted self.now) };

    // A port may put nothing at all.
    ghost lawful_start: { (bounds : Bounds) (port : ℕ) → lawful bounds port [] };

    // What a port had put at any time was lawful.
    ghost lawful_prefix: { (bounds : Bounds) (port : ℕ) (front back : List Self.Note) → lawful bounds port (front ++ back) → lawful bounds port front };

    // Nothing follows a last event.
    ghost lawful_end: { (bounds : Bounds) (port : ℕ) (front : List Self.Note) (note : Self.Note) (back : List Self.Note) → lawful bounds port (front ++ note ∷ back) → last note ≡ true → back ≡ [] };
}
