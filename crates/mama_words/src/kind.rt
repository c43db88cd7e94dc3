ghost use Rattle.std.specs.Prelude.{◌≡◌, ◌++◌, OnOk, OnErr};
ghost use Rattle.mama_words.specs.Kind as kinds;
ghost use Rattle.mama_words.specs.KindIn.{msg_kind_in, quality_in};

use mama_event::{GroupState, MsgKind, Quality, Strategy, SubKind};
use mama_memory::OutOfMemory;

/// The kind of subscription that a word names.
pub fn read_sub_kind(word: &[u8]) -> Option<SubKind>
    ensures { result ≡ kinds.sub_kind_in word.now }
{
    if word == b"market".as_slice() {
        Some(SubKind::Market)
    } else if word == b"snapshot".as_slice() {
        Some(SubKind::Snapshot)
    } else if word == b"basic".as_slice() {
        Some(SubKind::Basic)
    } else {
        None
    }
}

/// Appends the word for a kind of subscription. Where no memory is found, nothing is appended.
pub fn print_sub_kind(kind: SubKind, out: &mut Vec<u8>) -> Result<(), OutOfMemory>
    ensures ok { OnOk result (out.new.items ≡ out.old.items ++ kinds.sub_kind_text kind) }
    ensures err { OnErr result (out.new.items ≡ out.old.items) }
{
    match kind {
        SubKind::Market => out.extend_from_slice(b"market")?,
        SubKind::Snapshot => out.extend_from_slice(b"snapshot")?,
        SubKind::Basic => out.extend_from_slice(b"basic")?,
    }
    Ok(())
}

/// The kind of message that a word names.
pub fn read_msg_kind(word: &[u8]) -> Option<MsgKind>
    ensures { result ≡ msg_kind_in word.now }
{
    if word == b"initial".as_slice() {
        Some(MsgKind::Initial)
    } else if word == b"update".as_slice() {
        Some(MsgKind::Update)
    } else if word == b"recap".as_slice() {
        Some(MsgKind::Recap)
    } else {
        None
    }
}

/// Appends the word for a kind of message. Where no memory is found, nothing is appended.
pub fn print_msg_kind(kind: MsgKind, out: &mut Vec<u8>) -> Result<(), OutOfMemory>
    ensures ok { OnOk result (out.new.items ≡ out.old.items ++ kinds.msg_kind_text kind) }
    ensures err { OnErr result (out.new.items ≡ out.old.items) }
{
    match kind {
        MsgKind::Initial => out.extend_from_slice(b"initial")?,
        MsgKind::Update => out.extend_from_slice(b"update")?,
        MsgKind::Recap => out.extend_from_slice(b"recap")?,
    }
    Ok(())
}

/// The quality that a word names.
pub fn read_quality(word: &[u8]) -> Option<Quality>
    ensures { result ≡ quality_in word.now }
{
    if word == b"ok".as_slice() {
        Some(Quality::Ok)
    } else if word == b"stale".as_slice() {
        Some(Quality::Stale)
    } else {
        None
    }
}

/// Appends the word for a quality. Where no memory is found, nothing is appended.
pub fn print_quality(quality: Quality, out: &mut Vec<u8>) -> Result<(), OutOfMemory>
    ensures ok { OnOk result (out.new.items ≡ out.old.items ++ kinds.quality_text quality) }
    ensures err { OnErr result (out.new.items ≡ out.old.items) }
{
    match quality {
        Quality::Ok => out.extend_from_slice(b"ok")?,
        Quality::Stale => out.extend_from_slice(b"stale")?,
    }
    Ok(())
}

/// The strategy that a word names.
pub fn read_strategy(word: &[u8]) -> Option<Strategy>
    ensures { result ≡ kinds.strategy_in word.now }
{
    if word == b"1".as_slice() {
        Some(Strategy::One)
    } else if word == b"2".as_slice() {
        Some(Strategy::Two)
    } else {
        None
    }
}

/// Appends the word for a strategy. Where no memory is found, nothing is appended.
pub fn print_strategy(strategy: Strategy, out: &mut Vec<u8>) -> Result<(), OutOfMemory>
    ensures ok { OnOk result (out.new.items ≡ out.old.items ++ kinds.strategy_text strategy) }
    ensures err { OnErr result (out.new.items ≡ out.old.items) }
{
    match strategy {
        Strategy::One => out.extend_from_slice(b"1")?,
        Strategy::Two => out.extend_from_slice(b"2")?,
    }
    Ok(())
}

/// The state of a group that a word names.
pub fn read_group_state(word: &[u8]) -> Option<GroupState>
    ensures { result ≡ kinds.group_state_in word.now }
{
    if word == b"waiting".as_slice() {
        Some(GroupState::Waiting)
    } else if word == b"fresh".as_slice() {
        Some(GroupState::Fresh)
    } else if word == b"stale".as_slice() {
        Some(GroupState::Stale)
    } else if word == b"ended".as_slice() {
        Some(GroupState::Ended)
    } else {
        None
    }
}

/// Appends the word for the state of a group. Where no memory is found, nothing is appended.
pub fn print_group_state(state: GroupState, out: &mut Vec<u8>) -> Result<(), OutOfMemory>
    ensures ok { OnOk result (out.new.items ≡ out.old.items ++ kinds.group_state_text state) }
    ensures err { OnErr result (out.new.items ≡ out.old.items) }
{
    match state {
        GroupState::Waiting => out.extend_from_slice(b"waiting")?,
        GroupState::Fresh => out.extend_from_slice(b"fresh")?,
        GroupState::Stale => out.extend_from_slice(b"stale")?,
        GroupState::Ended => out.extend_from_slice(b"ended")?,
    }
    Ok(())
}
