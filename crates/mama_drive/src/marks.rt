ghost use Rattle.std.specs.Prelude.{◌≡◌, ◌⊎◌, ℕ, ◌<◌, ◌≤◌, true, false, IfSome, IfNone, OnOk};
ghost use Rattle.mama_drive.specs.Marks.{is_marked, KeepsMarks, IsNextMark};

use mama_memory::OutOfMemory;
use std::collections::BTreeSet;

/// Whether no number is marked.
pub(crate) fn is_none_marked(marks: &BTreeSet<u32>) -> bool
    ensures { result ≡ true → (n : ℕ) → is_marked marks.now n ≡ false }
{
    marks.is_empty()
}

/// The least number from this one on that is marked, if it is below the count.
pub(crate) fn next_marked(marks: &BTreeSet<u32>, from: u32, count: u32) -> Option<u32>
    ensures next { IfSome result (λ next. IsNextMark marks.now from count next) }
    ensures none { IfNone result ((n : ℕ) → from ≤ n → n < count → is_marked marks.now n ≡ false) }
{
    let mut following = marks.range(from..);
    let Some(number) = following.next() else {
        return None;
    };
    if *number >= count {
        return None;
    }
    Some(*number)
}

/// Marks a number.
pub(crate) fn mark(marks: &mut BTreeSet<u32>, number: u32) -> Result<(), OutOfMemory>
    ensures kept { KeepsMarks marks.old marks.new }
    ensures marked { OnOk result (is_marked marks.new number ≡ true) }
{
    marks.insert(number)?;
    Ok(())
}

/// Takes the mark of a number away, where its lane is empty.
pub(crate) fn unmark(marks: &mut BTreeSet<u32>, number: u32, is_empty: bool)
    ensures { (n : ℕ) → is_marked marks.new n ≡ false → (is_marked marks.old n ≡ false) ⊎ ((n ≡ number) × (is_empty ≡ true)) }
{
    if is_empty {
        let _ = marks.remove(&number);
    }
}
