ghost use Rattle.std.specs.Prelude.{◌≡◌, length, count_by};
ghost use Rattle.std.specs.List.{flat_map};
ghost use Rattle.mama_rules_rounds.specs.Client.{reads_clock, clock_lines};
ghost use Rattle.mama_rules_rounds.specs.Sections.{sends_in};
ghost use Rattle.mama_check.specs.Sends.{is_sending};

use mama_script::{ClientLine, PublisherLine};

fn reads_clock(line: &ClientLine) -> bool
    ensures { result ≡ reads_clock line.now }
{
    matches!(line, ClientLine::NowClock)
}

fn is_sending(line: &PublisherLine) -> bool
    ensures { result ≡ is_sending line.now }
{
    matches!(line, PublisherLine::Update(_) | PublisherLine::Recap)
}

fn clock_count(lines: &[ClientLine]) -> usize
    ensures { result ≡ count_by reads_clock lines.now }
{
    let mut count = 0;
    for line in lines {
        if reads_clock(line) {
            count += 1;
        }
    }
    count
}

fn send_count(lines: &[PublisherLine]) -> usize
    ensures { result ≡ count_by is_sending lines.now }
{
    let mut count = 0;
    for line in lines {
        if is_sending(line) {
            count += 1;
        }
    }
    count
}

/// How many lines of a client read the clock.
pub fn clock_lines_of(lines: &[ClientLine]) -> usize
    ensures { result ≡ clock_lines lines.now }
{
    clock_count(lines)
}

/// How many lines of a publisher send.
pub fn sends_of(lines: &[PublisherLine]) -> usize
    ensures { result ≡ length (flat_map sends_in lines.now) }
{
    send_count(lines)
}
