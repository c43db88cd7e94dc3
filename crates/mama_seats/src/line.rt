ghost use Rattle.std.specs.Prelude.{◌≡◌, drop};
ghost use Rattle.mama_seats.specs.Past.{past};

use mama_script::{ClientLine, PublisherLine};

/// A line of a script, which may be a pause of no steps.
pub(crate) trait Line {
    ghost use Rattle.std.specs.Prelude.{Bool};

    ghost empty: { Self → Bool };

    /// Whether it takes no step.
    fn is_empty(&self) -> bool
        ensures { result ≡ empty self.now };
}

impl Line for ClientLine {
    ghost use Rattle.mama_seats.specs.Past.{is_empty_line};

    ghost empty = { is_empty_line };

    fn is_empty(&self) -> bool {
        match self {
            ClientLine::Pause(steps) => *steps == 0,
            _ => false,
        }
    }
}

impl Line for PublisherLine {
    ghost use Rattle.mama_seats.specs.Past.{is_empty_send};

    ghost empty = { is_empty_send };

    fn is_empty(&self) -> bool {
        match self {
            PublisherLine::Pause(steps) => *steps == 0,
            _ => false,
        }
    }
}

/// The place of the first line that takes a step, from a place on, or that behind the last line.
pub(crate) fn next_at<L: Line>(lines: &[L], from: usize) -> usize
    ensures { drop result lines.now ≡ past L.empty (drop from lines.now) }
{
    for place in from..lines.len() {
        if !lines[place].is_empty() {
            return place;
        }
    }
    lines.len()
}
