ghost use Rattle.std.specs.Prelude.{◌≡◌, ℕ, Option, List, IfOk};
ghost use Rattle.mama_event.specs.declared.group.GroupNote.{GroupNote};
ghost use Rattle.mama_event.specs.declared.group.GroupNote.TheVariants as note;
ghost use Rattle.mama_group.specs.Listener.{told, Heard, IsNew};

use mama_event::{Callback, GroupState, SubId};
use mama_memory::OutOfMemory;

/// What hears all callbacks of a group's members, and the group's state. Its tag is the group's number. What a turn of the
/// queue called back is told before its next turn.
pub trait GroupListener: Drop {
    // The number of the group. It never changes.
    ghost tagged: { Self → ℕ };

    // How many calls it got, as far as they are counted.
    ghost calls: { Self → ℕ };

    // What it heard, where it tells that.
    ghost heard: { Self → Option (List GroupNote) };

    /// The number of its group.
    fn tag(&self) -> u32
        ensures { result ≡ tagged self.now };

    /// How many calls it got, up to 2^64 - 1.
    fn count(&self) -> u64
        ensures { result ≡ calls self.now };

    /// A member was called back so. The state that was told last is that before the turn of this call: where the turn
    /// changes it, that is told after its last call.
    fn on_call(&mut self, sub: SubId, call: &Callback)
        ensures { Heard (note.Call sub call.now) (told tagged calls heard self.old) (told tagged calls heard self.new) };

    /// The group's state is now another.
    fn on_state(&mut self, state: GroupState)
        ensures { Heard (note.State state) (told tagged calls heard self.old) (told tagged calls heard self.new) };
}

/// Makes the listeners of groups.
pub trait GroupMaker<H: GroupListener> {
    /// A listener of the group of this number, which has got no calls yet. The error is want of memory.
    fn make_group(&mut self, group: u32) -> Result<H, OutOfMemory>
        ensures { IfOk result (λ listener. IsNew group (told H.tagged H.calls H.heard listener)) };
}
