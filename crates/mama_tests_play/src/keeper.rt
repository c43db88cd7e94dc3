//! Listeners of groups that keep what they hear.

ghost use Rattle.std.specs.Prelude.{◌≡◌, None};

use mama_event::{Callback, Duplicate, GroupNote, GroupState, SubId};
use mama_memory::OutOfMemory;
use mama_play::{GroupListener, GroupMaker};
use std::alloc::Global;

/// Keeps what it hears, as long as memory is found.
#[derive(Drop)]
pub struct Keeper {
    tag: u32,
    count: u64,
    kept: Vec<GroupNote>,
}

impl Keeper {
    fn keep(&mut self, note: Result<GroupNote, OutOfMemory>)
        ensures tag { self.new.tag ≡ self.old.tag }
        ensures count { self.new.count ≡ self.old.count }
    {
        if let Ok(note) = note {
            let _kept = self.kept.push(note);
        }
    }

    /// Whether it kept just these notes.
    pub fn has_kept(&self, notes: &[GroupNote]) -> bool {
        self.kept.as_slice() == notes
    }
}

fn called(sub: SubId, call: &Callback) -> Result<GroupNote, OutOfMemory> {
    let call = call.try_clone()?;
    Ok(GroupNote::Call { sub, call })
}

impl GroupListener for Keeper {
    ghost tagged = { λ k. k.tag };

    ghost calls = { λ k. k.count };

    ghost heard = { λ k. None };

    fn tag(&self) -> u32 {
        self.tag
    }

    fn count(&self) -> u64 {
        self.count
    }

    fn on_call(&mut self, sub: SubId, call: &Callback) {
        self.count = self.count.saturating_add(1);
        self.keep(called(sub, call));
    }

    fn on_state(&mut self, state: GroupState) {
        self.count = self.count.saturating_add(1);
        self.keep(Ok(GroupNote::State { state }));
    }
}

/// Makes them.
#[derive(Drop)]
pub struct Keepers {
    pub alloc: Global,
}

impl GroupMaker<Keeper> for Keepers {
    fn make_group(&mut self, group: u32) -> Result<Keeper, OutOfMemory> {
        Ok(Keeper {
            tag: group,
            count: 0,
            kept: Vec::new(self.alloc),
        })
    }
}
