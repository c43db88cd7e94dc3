ghost use Rattle.std.specs.Prelude.{◌≡◌, ◌||◌, ◌++◌, [], ◌∷◌, false, length, filter, option_to_list, OnOk, OnErr, None, Some, slice_index_or, if◌then◌else◌};
ghost use Rattle.mama_event.specs.Object.{same_sub};
ghost use Rattle.mama_event.specs.declared.ids.SubId.{SubId as Sub};
ghost use Rattle.mama_laws_bridge.specs.Table.{without, kept};
ghost use Rattle.mama_bridge.specs.Ids.{is_sub_among};
ghost use Rattle.mama_bridge.specs.Placed.{Indexed, IsAt, entry_passes, is_place_of, present};

use crate::tally::count;
use mama_event::SubId;
use mama_memory::OutOfMemory;
use std::alloc::Global;
use std::collections::BTreeMap;
use std::marker::Model;

/// Where a live subscription is: its topic, its queue, and its slot there.
#[derive(Clone, Copy)]
pub(crate) struct Place {
    pub(crate) sub: SubId,
    pub(crate) topic: u32,
    pub(crate) queue: u32,
    pub(crate) slot: u32,
}

/// Who joined, and the places of those who are live, in order of joining.
///
/// There is an entry for each that ever was live, empty once it left, so that an index never changes. An index says
/// nothing of who joined after the ending, which gets no entry.
#[derive(Drop)]
pub(crate) struct Places {
    indexes: BTreeMap<SubId, usize>,
    entries: Vec<Option<Place>>,
}

impl Model for Places {
    ghost use Rattle.std.specs.BTreeMap.{keys};
    ghost use Rattle.mama_bridge.specs.Placed.{Placed, Indexed, present};

    ghost Value = { Placed };

    ghost view = { λ p. record { joined = keys p.indexes; live = present p.entries.items } };

    ghost invariant = { λ p. Indexed p.indexes p.entries.items };
}

/// Whether an entry is the place of a subscription.
fn is_of(entry: Option<Place>, sub: SubId) -> bool
    ensures { result ≡ entry_passes (is_place_of sub) entry }
{
    match entry {
        Some(place) => place.sub == sub,
        None => false,
    }
}

/// The index, if the entry there is the place of a subscription.
fn own_index(entries: &Vec<Option<Place>>, i: usize, sub: SubId) -> Option<usize>
    ensures { result ≡ (if entry_passes (is_place_of sub) (slice_index_or entries.now.items i None) then Some i else None) }
{
    if i < entries.len() && is_of(entries[i], sub) {
        Some(i)
    } else {
        None
    }
}

/// The index of a subscription's place, if it is live.
fn index_of(
    indexes: &BTreeMap<SubId, usize>,
    entries: &Vec<Option<Place>>,
    sub: SubId,
) -> Option<usize>
    requires { Indexed indexes.now entries.now.items }
    ensures { IsAt (is_place_of sub) entries.now.items result }
{
    match indexes.get(&sub) {
        Some(i) => own_index(entries, *i, sub),
        None => None,
    }
}

impl Places {
    pub(crate) fn new(alloc: Global) -> Places
        ensures { result ≡ record { joined = []; live = [] } }
    {
        Places {
            indexes: BTreeMap::new(alloc),
            entries: Vec::new(alloc),
        }
    }

    /// Whether a subscription joined before.
    pub(crate) fn has_joined(&self, sub: SubId) -> bool
        ensures { result ≡ is_sub_among self.now.joined sub }
    {
        self.indexes.contains_key(&sub)
    }

    /// The place of a subscription, if it is live.
    pub(crate) fn find(&self, sub: SubId) -> Option<Place>
        ensures { option_to_list result ≡ filter (is_place_of sub) self.now.live }
    {
        match index_of(&self.indexes, &self.entries, sub) {
            Some(i) => self.entries[i],
            None => None,
        }
    }

    /// Notes that a subscription joined, and its place unless the ending has come.
    pub(crate) fn join(&mut self, ended: bool, place: Place) -> Result<(), OutOfMemory>
        requires { is_sub_among self.old.joined place.sub ≡ false }
        ensures joined { OnOk result ((one : Sub) → is_sub_among self.new.joined one ≡ (is_sub_among self.old.joined one || same_sub place.sub one)) }
        ensures live { OnOk result (self.new.live ≡ self.old.live ++ kept ended (place ∷ [])) }
        ensures err { OnErr result (self.new ≡ self.old) }
    {
        self.entries.reserve(1)?;
        self.indexes.insert(place.sub, self.entries.len())?;
        if !ended {
            self.entries.push_reserved(Some(place));
        }
        Ok(())
    }

    /// Forgets the place of a subscription. It takes no memory.
    pub(crate) fn leave(&mut self, sub: SubId)
        ensures joined { self.new.joined ≡ self.old.joined }
        ensures live { self.new.live ≡ without (is_place_of sub) self.old.live }
    {
        match index_of(&self.indexes, &self.entries, sub) {
            Some(i) => self.entries[i] = None,
            None => {}
        }
    }

    /// Forgets all places. It takes no memory.
    pub(crate) fn clear(&mut self)
        ensures joined { self.new.joined ≡ self.old.joined }
        ensures live { self.new.live ≡ [] }
    {
        self.entries.clear();
    }

    /// How many subscriptions are live. It looks at each that ever was.
    pub(crate) fn count(&self) -> usize
        ensures { result ≡ length self.now.live }
    {
        count(&self.entries)
    }

    /// The places in order, among them an empty one for each that left.
    pub(crate) fn entries(&self) -> &Vec<Option<Place>>
        ensures { present result.now.items ≡ self.now.live }
    {
        &self.entries
    }
}
