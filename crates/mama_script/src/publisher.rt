use mama_msg::Msg;
use std::marker::Model;

/// A line of a publisher.
#[derive(Debug, Drop)]
pub enum PublisherLine {
    /// Sends these changes of the record.
    Update(Msg),
    /// Sends the whole record.
    Recap,
    /// Does nothing for this many turns, 1 to 1,000,000.
    Pause(u32),
}

impl PartialEq for PublisherLine {
    ghost use Rattle.std.specs.Prelude.{◌≡◌};
    ghost use Rattle.std.specs.Cmp.{partial_equiv_from_equiv};
    ghost use Rattle.mama_script.specs.Equality.{same_publisher_line};
    ghost use Rattle.mama_script.specs.EqualityLaws.{same_publisher_line_equivalence};

    ghost eq = { same_publisher_line };

    ghost laws = { partial_equiv_from_equiv same_publisher_line_equivalence };

    fn eq(&self, other: &PublisherLine) -> bool
        ensures { result ≡ same_publisher_line self.now other.now }
    {
        match (self, other) {
            (PublisherLine::Update(a), PublisherLine::Update(b)) => a == b,
            (PublisherLine::Recap, PublisherLine::Recap) => true,
            (PublisherLine::Pause(a), PublisherLine::Pause(b)) => a == b,
            _ => false,
        }
    }
}

impl Eq for PublisherLine {
    ghost use Rattle.mama_script.specs.EqualityLaws.{same_publisher_line_equivalence};

    ghost laws = { same_publisher_line_equivalence };
}

/// The lines of a publisher in order.
#[derive(Debug, Drop)]
pub struct PublisherLines {
    lines: Vec<PublisherLine>,
}

impl Model for PublisherLines {
    ghost use Rattle.std.specs.Prelude.{List};
    ghost use Rattle.mama_script.specs.declared.publisher.PublisherLine.{PublisherLine};

    ghost Value = { List PublisherLine };

    ghost view = { λ p. p.lines.items };
}

impl PartialEq for PublisherLines {
    ghost use Rattle.std.specs.Prelude.{◌≡◌};
    ghost use Rattle.std.specs.Cmp.{partial_equiv_from_equiv};
    ghost use Rattle.mama_script.specs.Equality.{same_sends};
    ghost use Rattle.mama_script.specs.EqualityLaws.{same_sends_equivalence};

    ghost eq = { same_sends };

    ghost laws = { partial_equiv_from_equiv same_sends_equivalence };

    fn eq(&self, other: &PublisherLines) -> bool
        ensures { result ≡ same_sends self.now other.now }
    {
        self.as_slice() == other.as_slice()
    }
}

impl Eq for PublisherLines {
    ghost use Rattle.mama_script.specs.EqualityLaws.{same_sends_equivalence};

    ghost laws = { same_sends_equivalence };
}

impl PublisherLines {
    ghost use Rattle.std.specs.Prelude.{◌≡◌};

    /// The list of these lines.
    pub fn new(lines: Vec<PublisherLine>) -> PublisherLines
        ensures { result ≡ lines.items }
    {
        PublisherLines { lines }
    }

    /// The lines in order.
    pub fn as_slice(&self) -> &[PublisherLine]
        ensures { result.now ≡ self.now }
    {
        self.lines.as_slice()
    }
}

/// A publisher: its topic, the record that it begins with, and its lines.
#[derive(Debug, Drop)]
pub struct PublisherPart {
    pub topic: u32,
    pub base: Msg,
    pub lines: PublisherLines,
}

impl PartialEq for PublisherPart {
    ghost use Rattle.std.specs.Prelude.{◌≡◌};
    ghost use Rattle.std.specs.Cmp.{partial_equiv_from_equiv};
    ghost use Rattle.mama_script.specs.Equality.{same_publisher};
    ghost use Rattle.mama_script.specs.EqualityLaws.{same_publisher_equivalence};

    ghost eq = { same_publisher };

    ghost laws = { partial_equiv_from_equiv same_publisher_equivalence };

    fn eq(&self, other: &PublisherPart) -> bool
        ensures { result ≡ same_publisher self.now other.now }
    {
        self.topic == other.topic && self.base == other.base && self.lines == other.lines
    }
}

impl Eq for PublisherPart {
    ghost use Rattle.mama_script.specs.EqualityLaws.{same_publisher_equivalence};

    ghost laws = { same_publisher_equivalence };
}
