ghost use Rattle.std.specs.Prelude.{◌≡◌, ◌↔◌, true, length};
ghost use Rattle.std.specs.List.{flat_map};
ghost use Rattle.mama_rules_rounds.specs.Client.{clock_lines};
ghost use Rattle.mama_rules_rounds.specs.Sections.{sends_in};
ghost use Rattle.mama_rules_legal.specs.Lines.{IsSentOut};
ghost use Rattle.mama_check.specs.First.{IsFirst};
ghost use Rattle.mama_check.specs.Rules.{KeepsMoments, KeepsLines};

use crate::{clock_lines_of, has_sent_all, sends_of};
use mama_event::PublisherEntry;
use mama_record::RunRecord;
use mama_script::{ClientLines, PublisherLines, Script};

/// Whether a client read as many moments as its lines ask for.
fn has_read(lines: &ClientLines, moments: &[u64]) -> bool
    ensures { (result ≡ true) ↔ (length moments.now ≡ clock_lines lines.now) }
{
    moments.len() == clock_lines_of(lines.as_slice())
}

/// Whether a publisher did all its lines.
fn has_done(lines: &PublisherLines, journal: &[PublisherEntry]) -> bool
    ensures { (result ≡ true) ↔ IsSentOut (length (flat_map sends_in lines.now)) journal.now }
{
    has_sent_all(sends_of(lines.as_slice()), journal)
}

/// The first client that read more or fewer moments than it has lines that read the clock. The record has a list of
/// moments for each client.
pub fn first_of_moments(script: &Script, run: &RunRecord) -> Option<usize>
    requires { length run.now.clients ≡ length script.now.clients }
    ensures { IsFirst (KeepsMoments script.now run.now) (length script.now.clients) result }
{
    let clients = script.clients();
    let moments = run.clients();
    for (c, lines) in clients.iter().enumerate() {
        if !has_read(lines, &moments[c]) {
            return Some(c);
        }
    }
    None
}

/// The first publisher that did not send just its lines, or did not take all to the end. The record has a journal for
/// each publisher.
pub fn first_of_lines(script: &Script, run: &RunRecord) -> Option<usize>
    requires { length run.now.publishers ≡ length script.now.publishers }
    ensures { IsFirst (KeepsLines script.now run.now) (length script.now.publishers) result }
{
    let publishers = script.publishers();
    let journals = run.publishers();
    for (p, part) in publishers.iter().enumerate() {
        if !has_done(&part.lines, &journals[p]) {
            return Some(p);
        }
    }
    None
}
