ghost use Rattle.std.specs.Prelude.{◌≡◌, [], ◌∷◌, ◌++◌, map, Some, IfOk, IfSome};
ghost use Rattle.std.specs.Option.{option_map};
ghost use Rattle.mama_words.specs.Answer.{Gives};
ghost use Rattle.mama_record.specs.RunData.{LastImage};
ghost use Rattle.mama_record.specs.RunView as view;
ghost use Rattle.mama_record.specs.LogText.{image_line};
ghost use Rattle.mama_log_line.specs.Entering.{IsLastImage};
ghost use Rattle.mama_log_line.specs.Journal.{told};
ghost use Rattle.mama_log_line.specs.Calls as calls;

use crate::names::Names;
use crate::word::{read_small, read_sub};
use mama_event::{ImageHead, SubId};
use mama_memory::OutOfMemory;
use mama_msg::Msg;
use mama_words::{ReadError, parted_into, read_message, read_quality};
use std::alloc::Global;

#[tactic(auto, unfolding(crate::specs::Calls::image_words_in))]
fn read_words(
    alloc: Global,
    names: &Names,
    words: &[&[u8]],
) -> Result<(SubId, ImageHead, Msg), ReadError>
    ensures { Gives view.image_in result (calls.image_words_in names.now (map (λ w. w.now) words.now)) }
{
    match words {
        [sub, quality, sender, last, fields @ ..] => {
            let sub = read_sub(names, sub)?;
            let quality = read_quality(quality).ok_or(ReadError::Fault(4))?;
            let sender = read_small(sender)?;
            let last = read_small(last)?;
            let body = read_message(alloc, names.nums(), fields)?;
            let head = ImageHead {
                sender,
                last,
                quality,
            };
            Ok((sub, head, body))
        }
        _ => Err(ReadError::Fault(4)),
    }
}

#[tactic(auto, unfolding(crate::specs::Calls::image_line_in))]
fn read_line<'a>(
    alloc: Global,
    names: &Names,
    words: &mut Vec<&'a [u8]>,
    line: &'a [u8],
) -> Result<(SubId, ImageHead, Msg), ReadError>
    ensures { Gives view.image_in result (calls.image_line_in names.now line.now) }
{
    parted_into(words, line)?;
    read_words(alloc, names, words)
}

fn image_of<'a>(
    alloc: Global,
    names: &Names,
    words: &mut Vec<&'a [u8]>,
    line: &'a [u8],
) -> Result<Option<(SubId, ImageHead, Msg)>, OutOfMemory>
    ensures { IfOk result (λ o. option_map view.image_in o ≡ told (calls.image_line_in names.now line.now)) }
{
    match read_line(alloc, names, words, line) {
        Ok(image) => Ok(Some(image)),
        Err(ReadError::Fault(_)) => Ok(None),
        Err(ReadError::Memory) => Err(OutOfMemory),
    }
}

/// The last image of a subscription that a line without its line feed spells. None where it spells none that a log may
/// have.
pub fn image_in<'a>(
    alloc: Global,
    names: &Names,
    words: &mut Vec<&'a [u8]>,
    line: &'a [u8],
) -> Result<Option<(SubId, ImageHead, Msg)>, OutOfMemory>
    ensures found { IfOk result (λ o. IfSome o (λ i. IsLastImage names.now (view.image_in i) × (line.now ++ 10 ∷ [] ≡ image_line (view.image_in i)))) }
    ensures again { IfOk result (λ o. (i : LastImage) → IsLastImage names.now i → line.now ++ 10 ∷ [] ≡ image_line i → option_map view.image_in o ≡ Some i) }
{
    image_of(alloc, names, words, line)
}
