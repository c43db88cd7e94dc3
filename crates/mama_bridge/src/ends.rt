ghost use Rattle.std.specs.Prelude.{◌≡◌, ◌+◌, ◌≤◌, ◌++◌, List, length, IfOk};
ghost use Rattle.mama_link.specs.Link.{rest};
ghost use Rattle.mama_link.specs.Standing.{StandsFor};

use mama_link::{Duplicate, Link};
use mama_memory::{OutOfMemory, Outbox};

/// The sum, or want of memory where it is too great for room of that size.
pub(crate) fn plus(total: usize, more: usize) -> Result<usize, OutOfMemory>
    ensures { IfOk result (λ n. n ≡ total + more) }
{
    match total.checked_add(more) {
        Some(sum) => Ok(sum),
        None => Err(OutOfMemory),
    }
}

/// Puts out what a link still holds, into an outbox with room.
pub(crate) fn finish<T: Duplicate>(link: Link<T>, out: &mut Outbox<T>)
    requires { length link.standing.held ≤ out.old.spare }
    ensures out { (x : List T) → StandsFor x link.standing → out.new.items ≡ out.old.items ++ rest link.standing.rows x }
    ensures spare { out.old.spare ≤ out.new.spare + length link.standing.held }
{
    match link.finish(out) {
        Ok(()) => {}
        Err(_) => {}
    }
}
