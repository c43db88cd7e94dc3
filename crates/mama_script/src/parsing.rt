//! Texts to lines, and lines to scripts.
ghost use Rattle.std.specs.Prelude.{◌≡◌, ◌<◌, ◌≤◌, ◌+◌, ◌^◌, length, List, ℕ, Ok, IfOk};
ghost use Rattle.mama_words.specs.Parting.{pieces};
ghost use Rattle.mama_script.specs.Seen.{seen};
ghost use Rattle.mama_script.specs.Before as before;
ghost use Rattle.mama_script.specs.Reading as reading;
ghost use Rattle.mama_script.specs.Answer.{Gives};
ghost use Rattle.mama_script.specs.Script.{ScriptData};
ghost use Rattle.mama_script.specs.Tree as tree;
ghost use Rattle.mama_script.specs.Taken.{script_of_parts, parts_lines};

use crate::context::Context;
use crate::fault::{Refused, ScriptFault};
use crate::form::read_form;
use crate::head::Place;
use crate::line::Line;
use crate::names::first_unnamed;
use crate::placing::first_misplaced;
use crate::script::Script;
use crate::tree::{Parts, parts_of};
use mama_words::{ReadError, Version, cut_at};
use std::alloc::Global;

/// The script that a text spells, or the first line that has a fault or passes a limit. Objects that are not in the script,
/// and groups and watches that may not be, are looked for only where every line fits by itself: then the first such line is
/// told, and on one line the object. The number of bytes is not tested here.
pub fn parse(alloc: Global, text: &[u8]) -> Result<Script, ScriptFault>
    // What is read is spelled so.
    ensures found { IfOk result (λ s. tree.IsScript s × (text.now ≡ tree.script_text s)) }

    // What is spelled so is read, unless no memory is found.
    ensures only { (s : ScriptData) → tree.IsScript s → text.now ≡ tree.script_text s → Gives (λ x. x) result (Ok s) }

    // Which line has which fault, or passes which limit.
    ensures exact { Gives tree.lines_of result (reading.script_in text.now) }
{
    let parts = read_parts(alloc, text)?;
    Ok(Script::new(parts))
}

// The parts of the script that a text spells.
fn read_parts(alloc: Global, text: &[u8]) -> Result<Parts, ScriptFault>
    ensures exact { Gives parts_lines result (reading.script_in text.now) }
    ensures script { IfOk result (λ parts. tree.IsScript (script_of_parts parts)) }
{
    let lines = read_script(alloc, text)?;
    let parts = parts_of(alloc, lines)?;
    Ok(parts)
}

// The lines behind the first.
fn read_script(alloc: Global, text: &[u8]) -> Result<Vec<Line>, ScriptFault>
    ensures { Gives (λ v. v.items) result (reading.script_in text.now) }
{
    let lines = read_lines(alloc, text)?;
    let unnamed = first_unnamed(alloc, &lines)?;
    let misplaced = first_misplaced(alloc, &lines)?;
    match earlier(unnamed, misplaced) {
        Some(fault) => Err(fault),
        None => Ok(lines),
    }
}

// Which comes first: the line that names an object which is not in the script, or the one whose group or watch may not be. On
// one line it is the object.
fn earlier(unnamed: Option<u64>, misplaced: Option<(u64, u8)>) -> Option<ScriptFault>
    ensures { result ≡ reading.earlier unnamed misplaced }
{
    match (unnamed, misplaced) {
        (None, None) => None,
        (Some(line), None) => Some(ScriptFault::Bad { line, fault: 10 }),
        (None, Some((line, fault))) => Some(ScriptFault::Bad { line, fault }),
        (Some(line), Some((other, fault))) => {
            if line <= other {
                Some(ScriptFault::Bad { line, fault: 10 })
            } else {
                Some(ScriptFault::Bad { line: other, fault })
            }
        }
    }
}

/// The lines behind the first, each in its form and fitting those before it.
fn read_lines(alloc: Global, text: &[u8]) -> Result<Vec<Line>, ScriptFault>
    ensures exact { Gives (λ v. v.items) result (reading.lines_in (pieces 10 text.now)) }
    ensures few { IfOk result (λ v. length v.items + 2 < 2 ^ 64) }
{
    match cut_at(b'\n', text) {
        Some((first, rest)) => match read_version(first) {
            Some(version) => read_rest(alloc, version, rest),
            None => Err(ScriptFault::Bad { line: 1, fault: 1 }),
        },
        None => Err(ScriptFault::Bad { line: 1, fault: 1 }),
    }
}

// The version that a first line says.
fn read_version(line: &[u8]) -> Option<Version>
    ensures { result ≡ reading.version_in line.now }
{
    if line == b"mama script 1".as_slice() {
        Some(Version::One)
    } else if line == b"mama script 2".as_slice() {
        Some(Version::Two)
    } else {
        None
    }
}

fn read_rest(alloc: Global, version: Version, text: &[u8]) -> Result<Vec<Line>, ScriptFault>
    requires { length text.now + 2 < 2 ^ 64 }
    ensures exact { Gives (λ v. v.items) result (reading.read_from (before.start version) 2 (pieces 10 text.now)) }
    ensures few { IfOk result (λ v. length v.items ≤ length text.now) }
{
    let mut lines = Vec::new(alloc);
    let mut context = Context::new(alloc, version);
    let mut number = 2u64;
    let mut rest = text;
    while let Some((line, after)) = cut_at(b'\n', rest) {
        match read_line(alloc, &mut context, number, line) {
            Ok(line) => lines.push(line)?,
            Err(fault) => return Err(fault),
        }
        number += 1;
        rest = after;
    }
    match end_fault(context.place(), number, rest) {
        None => Ok(lines),
        Some(fault) => Err(fault),
    }
}

// What is wrong with what stands behind the last line's end.
fn end_fault(place: Place, line: u64, rest: &[u8]) -> Option<ScriptFault>
    ensures { result ≡ reading.end_fault place line rest.now }
{
    if !rest.is_empty() {
        Some(ScriptFault::Bad { line, fault: 2 })
    } else if !place.may_end() {
        Some(ScriptFault::Bad { line, fault: 3 })
    } else {
        None
    }
}

fn read_line(
    alloc: Global,
    context: &mut Context,
    number: u64,
    text: &[u8],
) -> Result<Line, ScriptFault>
    ensures exact { Gives (λ l. l) result (reading.line_in (seen context.old) number text.now) }
    ensures after { IfOk result (λ l. seen context.new ≡ before.after (seen context.old) l) }
{
    match read_form(alloc, context.version(), context.place(), text) {
        Ok(line) => admit_line(context, number, line),
        Err(ReadError::Memory) => Err(ScriptFault::OutOfMemory),
        Err(ReadError::Fault(fault)) => Err(ScriptFault::Bad {
            line: number,
            fault,
        }),
    }
}

fn admit_line(context: &mut Context, number: u64, line: Line) -> Result<Line, ScriptFault>
    ensures exact { Gives (λ l. l) result (reading.unless_flawed number line (before.flaw (seen context.old) line)) }
    ensures after { IfOk result (λ l. seen context.new ≡ before.after (seen context.old) l) }
{
    match context.admit(&line) {
        Ok(()) => Ok(line),
        Err(Refused::Memory) => Err(ScriptFault::OutOfMemory),
        Err(Refused::Flawed(flaw)) => Err(flaw.at(number)),
    }
}
