ghost use Rattle.std.specs.Prelude.{◌≡◌, ◌≢◌, ◌^◌, ◌<◌, ◌≤◌, ◌⊎◌, ℕ, [], ◌∷◌, ◌++◌, suc, true, false, codes, length, take, drop, List, IfOk, IfErr, IfSome, IfNone};
ghost use Rattle.std.specs.List.{All};
ghost use Rattle.mama_rules_legal.specs.Form.{objects_of};
ghost use Rattle.mama_record.specs.RunData.{RunData};
ghost use Rattle.mama_record.specs.LogText.{lines_text, log_text};
ghost use Rattle.mama_log_line.specs.Names.{names_of};
ghost use Rattle.mama_log_read.specs.Logged.{HasLog, IsLogged};
ghost use Rattle.mama_log_read.specs.Unfit.{IsFirstUnfit, IfBad, GivesRun};
ghost use Rattle.mama_log_read.specs.Section as log;
ghost use Rattle.mama_log_read.specs.Reading.{IsTold, Begins, IsTally, IsReadOrStuck, begins_with, version_by, has_lists, spaced_in};
ghost use Rattle.mama_log_read.specs.declared.section.Told.TheVariants.{Lines};
ghost use Rattle.mama_words.specs.declared.version.Version.{Version};
ghost use Rattle.mama_words.specs.Parting.{cut_at as cut_at_byte};
ghost use Rattle.mama_edge.specs.Decimal.{decimal};

use crate::built::Built;
use crate::fault::LogFault;
use crate::section::{Section, Told, head_line, objects_in, sections_in};
use mama_event::ObjectId;
use mama_log_line::Names;
use mama_memory::OutOfMemory;
use mama_record::RunRecord;
use mama_script::Script;
use mama_words::{Version, cut_at, read_number};
use std::alloc::Global;

// The number that stands behind a space.
fn behind_space(text: &[u8]) -> Option<u64>
    ensures { result ≡ spaced_in text.now }
{
    match text {
        [b' ', number @ ..] => read_number(number),
        _ => None,
    }
}

// The number that stands behind the words of a line, with a space between.
fn number_behind(head: &[u8], line: &[u8]) -> Option<u64>
    ensures found { IfSome result (λ n. (n < 2 ^ 64) × (line.now ≡ head.now ++ 32 ∷ decimal n)) }
    ensures none { IfNone result ((n : ℕ) → n < 2 ^ 64 → line.now ≡ head.now ++ 32 ∷ decimal n → ⊥) }
{
    let behind = line.strip_prefix(head)?;
    behind_space(behind)
}

// What a line tells that begins a section with a count.
fn count_told(version: Version, section: Section, head: &[u8], line: &[u8]) -> Option<Told>
    requires head { head.now ≡ log.head_of section }
    requires counted { log.has_count version section ≡ true }
    ensures found { IfSome result (λ told. IsTold version section told line.now) }
    ensures none { IfNone result (Begins version section line.now → ⊥) }
{
    let count = number_behind(head, line)?;
    Some(Told::Lines(count))
}

// What a line tells that begins a section without a count.
fn nothing_told(version: Version, section: Section, head: &[u8], line: &[u8]) -> Option<Told>
    requires head { head.now ≡ log.head_of section }
    requires counted { log.has_count version section ≡ false }
    ensures found { IfSome result (λ told. IsTold version section told line.now) }
    ensures none { IfNone result (Begins version section line.now → ⊥) }
{
    if line == head {
        Some(Told::Nothing)
    } else {
        None
    }
}

// What a line tells that begins a section. None where it begins another one.
fn told_by(version: Version, section: Section, head: &[u8], line: &[u8]) -> Option<Told>
    requires { head.now ≡ log.head_of section }
    ensures found { IfSome result (λ told. IsTold version section told line.now) }
    ensures none { IfNone result (Begins version section line.now → ⊥) }
{
    if section.has_count(version) {
        count_told(version, section, head, line)
    } else {
        nothing_told(version, section, head, line)
    }
}

// What the line tells that begins a section, and what stands behind it. None where a text does not begin with such a line.
fn behind_head<'a>(
    alloc: Global,
    version: Version,
    section: Section,
    text: &'a [u8],
) -> Result<Option<(Told, &'a [u8])>, OutOfMemory>
    ensures found { IfOk result (λ o. IfSome o (λ begun. (line : List ℕ) × IsTold version section begun.0 line × (text.now ≡ line ++ 10 ∷ begun.1.now))) }
    ensures none { IfOk result (λ o. IfNone o ((line more : List ℕ) → log.HasPlainHead section → Begins version section line → text.now ≡ line ++ 10 ∷ more → ⊥)) }
{
    let head = head_line(alloc, section)?;
    match cut_at(b'\n', text) {
        Some((line, after)) => match told_by(version, section, &head, line) {
            Some(told) => Ok(Some((told, after))),
            None => Ok(None),
        },
        None => Ok(None),
    }
}

// The number of the line that a text is read up to.
fn line_number(text: &[u8], rest: &[u8]) -> u64
    ensures value { (lines : List (List ℕ)) → All (λ line. log.has_feed line ≡ false) lines → text.now ≡ lines_text lines ++ rest.now → result ≡ suc (length lines) }
    ensures first { 1 ≤ result }
{
    let mut number = 1u64;
    let mut left = text;
    while left.len() > rest.len() {
        match cut_at(b'\n', left) {
            Some((_, after)) => left = after,
            None => return number,
        }
        number += 1;
    }
    number
}

// What stands behind some of a text's lines.
fn behind_lines(text: &[u8], count: u64) -> &[u8]
    ensures { (lines : List (List ℕ)) (rest : List ℕ) → All (λ line. log.has_feed line ≡ false) lines → count ≤ length lines → text.now ≡ lines_text lines ++ rest
        → result.now ≡ lines_text (drop count lines) ++ rest }
{
    let mut left = text;
    for _ in 0..count {
        match cut_at(b'\n', left) {
            Some((_, after)) => left = after,
            None => return left,
        }
    }
    left
}

// The lower of two numbers.
fn lower_of(count: u64, read: u64) -> u64
    ensures { ((result ≡ count) × (count ≤ read)) ⊎ ((result ≡ read) × (read ≤ count)) }
{
    if count < read { count } else { read }
}

// Where reading stops if a section has another number of lines than was told: behind those that were told, or behind the last.
fn miscounted<'a>(told: Told, entries: &'a [u8], after: &'a [u8]) -> Option<&'a [u8]>
    ensures none { IfNone result ((lines : List (List ℕ)) → All (λ line. log.has_feed line ≡ false) lines → entries.now ≡ lines_text lines ++ after.now → IsTally told (length lines)) }
    ensures some { IfSome result (λ rest. (lines : List (List ℕ)) → All (λ line. log.has_feed line ≡ false) lines → entries.now ≡ lines_text lines ++ after.now
        → (count : ℕ) × (told ≡ Lines count) × (count ≢ length lines) × (rest.now ≡ lines_text (drop count lines) ++ after.now)) }
{
    match told {
        Told::Nothing => None,
        Told::Lines(count) => {
            let read = line_number(entries, after) - 1;
            if count == read {
                return None;
            }
            let fewer = lower_of(count, read);
            Some(behind_lines(entries, fewer))
        }
    }
}

// The record of the sections of a log, read one after the other to the end of a text.
fn read_sections(
    alloc: Global,
    version: Version,
    names: &Names,
    objects: &[ObjectId],
    sections: &[Section],
    text: &[u8],
) -> Result<RunRecord, LogFault>
    ensures { IsReadOrStuck version names.now objects.now sections.now text.now result }
{
    let mut built = Built::new(alloc);
    let mut rest = text;
    for section in sections {
        match behind_head(alloc, version, *section, rest)? {
            Some((told, entries)) => {
                let after = built.read(alloc, names, objects, *section, entries)?;
                if let Some(stop) = miscounted(told, entries, after) {
                    let line = line_number(text, stop);
                    return Err(LogFault::Bad { line });
                }
                rest = after;
            }
            None => {
                let line = line_number(text, rest);
                return Err(LogFault::Bad { line });
            }
        }
    }
    if !rest.is_empty() {
        let line = line_number(text, rest);
        return Err(LogFault::Bad { line });
    }
    Ok(built.finish())
}

// Whether a text begins with the first line of a log of version 2.
fn begins_in_two(text: &[u8]) -> bool
    ensures { result ≡ begins_with (codes "mama log 2") (cut_at_byte 10 text.now) }
{
    match cut_at(b'\n', text) {
        Some((line, _)) => line == b"mama log 2".as_slice(),
        None => false,
    }
}

// Whether a script has groups or watches, of which a log of version 1 tells nothing.
fn has_lists(script: &Script) -> bool
    ensures { result ≡ has_lists script.now }
{
    !script.groups().is_empty() || !script.watches().is_empty()
}

// The version of a log, by the script's version, by whether it has groups or watches, and by the log's first line.
fn version_of(version: Version, lists: bool, text: &[u8]) -> Version
    ensures { result ≡ version_by version lists text.now }
{
    match version {
        Version::One => Version::One,
        Version::Two => {
            if begins_in_two(text) || lists {
                Version::Two
            } else {
                Version::One
            }
        }
    }
}

// The version of a log of a script. Only a script of version 2 has logs of version 2, and one with groups or watches has none of
// version 1.
fn log_version(script: &Script, text: &[u8]) -> Version
    ensures version { result ≡ version_by script.now.version (has_lists script.now) text.now }
    ensures known { HasLog script.now result }
{
    let _shape = script.shape();
    version_of(script.version(), has_lists(script), text)
}

/// The record that a log of either version tells, by its script. A script of version 1 has no log of version 2, and one with
/// groups or watches none of version 1. What is printed is read again as the same record, and what is read prints as the same
/// text. It goes once over the text; time and memory go by its length.
pub fn parse_log(alloc: Global, script: &Script, text: &[u8]) -> Result<RunRecord, LogFault>
    ensures found { IfOk result (λ run. IsLogged script.now run × ((v : Version) × HasLog script.now v × (text.now ≡ log_text v script.now.shape run))) }
    ensures again { (v : Version) (run : RunData) → HasLog script.now v → IsLogged script.now run → text.now ≡ log_text v script.now.shape run → GivesRun run result }
    ensures bad { IfErr result (λ fault. IfBad fault (λ line. IsFirstUnfit script.now text.now line)) }
{
    let version = log_version(script, text);
    let names = Names::new(alloc, script)?;
    let objects = objects_in(alloc, script)?;
    let sections = sections_in(alloc, version, script, &objects)?;
    read_sections(alloc, version, &names, &objects, &sections, text)
}
