ghost use Rattle.std.specs.Prelude.{◌≡◌, None};

use crate::listener::{GroupListener, GroupMaker};
use mama_event::{Callback, GroupState, SubId};
use mama_memory::OutOfMemory;

/// The listener of a group that only counts its calls.
#[derive(Debug, Drop)]
pub struct SilentGroup {
    tag: u32,
    count: u64,
}

impl SilentGroup {
    /// A listener of the group of this number. It takes no memory.
    pub fn new(tag: u32) -> SilentGroup
        ensures { result ≡ record { tag = tag; count = 0 } }
    {
        SilentGroup { tag, count: 0 }
    }
}

impl GroupListener for SilentGroup {
    ghost tagged = { λ g. g.tag };

    ghost calls = { λ g. g.count };

    ghost heard = { λ g. None };

    fn tag(&self) -> u32 {
        self.tag
    }

    fn count(&self) -> u64 {
        self.count
    }

    fn on_call(&mut self, _sub: SubId, _call: &Callback) {
        self.count = self.count.saturating_add(1);
    }

    fn on_state(&mut self, _state: GroupState) {
        self.count = self.count.saturating_add(1);
    }
}

/// Makes the listeners that only count. It takes no memory.
#[derive(Clone, Copy, Debug)]
pub struct SilentGroups;

impl SilentGroups {
    /// The maker. It takes no memory.
    pub fn new() -> SilentGroups {
        SilentGroups
    }
}

impl GroupMaker<SilentGroup> for SilentGroups {
    fn make_group(&mut self, group: u32) -> Result<SilentGroup, OutOfMemory> {
        Ok(SilentGroup::new(group))
    }
}
