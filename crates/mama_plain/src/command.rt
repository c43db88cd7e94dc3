ghost use Rattle.std.specs.Prelude.{◌≡◌, [], ◌∷◌, map, string_bytes};
ghost use Rattle.mama_plain.specs.Chosen.{command_in};

use mama_words::read_number;

/// A command of the program.
#[derive(Clone, Copy, Debug, PartialEq, Eq)]
pub enum Command {
    /// Plays a script on one thread, and writes its log.
    Serial,
    /// Judges whether a log is that of a legal run of its script.
    Check,
    /// Writes a script, or a script and its log, in version 2.
    Rewrite,
    /// Follows a legal log again on one thread, and writes the steps and the log.
    Replay,
    /// Writes the script of a seed.
    Gen { seed: u64 },
}

/// The command that the words are.
pub(crate) fn command_of(words: &[String]) -> Option<Command>
    ensures { result ≡ command_in (map string_bytes words.now) }
{
    match words {
        [word] => command_named(word.as_str()),
        [word, seed] => command_with(word.as_str(), seed.as_str()),
        _ => None,
    }
}

/// The command of this name.
fn command_named(name: &str) -> Option<Command>
    ensures { result ≡ command_in (name.now ∷ []) }
{
    if name == "serial" {
        Some(Command::Serial)
    } else if name == "check" {
        Some(Command::Check)
    } else if name == "rewrite" {
        Some(Command::Rewrite)
    } else if name == "replay" {
        Some(Command::Replay)
    } else {
        None
    }
}

/// The command of this name that a second word is given to.
fn command_with(name: &str, word: &str) -> Option<Command>
    ensures { result ≡ command_in (name.now ∷ word.now ∷ []) }
{
    if name != "gen" {
        return None;
    }
    let seed = read_number(word.as_bytes())?;
    Some(Command::Gen { seed })
}
