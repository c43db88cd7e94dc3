ghost use Rattle.std.specs.Prelude.{◌≡◌, ℕ, ◌<◌, [], drop, length, IfSome, IfOk, OnOk, OnErr, not, if◌then◌else◌};
ghost use Rattle.std.specs.Ordering.{nat_cmp};
ghost use Rattle.std.specs.Map.{remove_entry};
ghost use Rattle.std.specs.BTreeMap.{is_at};
ghost use Rattle.mama_msg.specs.Message.{apply};
ghost use Rattle.mama_dq.specs.Cache.{above, lowest_number, added, emptied, past, put, trimmed, reached, has_number};

use mama_memory::OutOfMemory;
use mama_msg::Msg;
use std::alloc::Global;
use std::collections::BTreeMap;
use std::marker::Model;
use std::ops::Bound;

/// Updates by number, at most as many as its size. Where there is one more, the lowest number is dropped.
#[derive(Debug, Drop)]
pub struct Cache {
    size: u32,
    updates: BTreeMap<u32, Msg>,
}

impl Model for Cache {
    ghost use Rattle.mama_dq.specs.Cache.{CacheData};

    ghost Value = { CacheData };

    ghost view = { λ c. record { size = c.size; updates = c.updates.entries } };

    ghost use Rattle.std.specs.BTreeMap.{IsOrdered};
    ghost use Rattle.std.specs.Ordering.{nat_cmp};

    ghost invariant = { λ c. IsOrdered nat_cmp c.updates };
}

impl Cache {
    /// An empty cache. It takes no memory.
    pub fn new(alloc: Global, size: u32) -> Cache
        ensures { result ≡ record { size = size; updates = [] } }
    {
        Cache {
            size,
            updates: BTreeMap::new(alloc),
        }
    }

    /// How many updates it may hold.
    pub fn size(&self) -> u32
        ensures { result ≡ self.now.size }
    {
        self.size
    }

    /// How many updates it holds.
    pub fn len(&self) -> usize
        ensures { result ≡ length self.now.updates }
    {
        self.updates.len()
    }

    /// Takes all updates out.
    pub fn clear(&mut self)
        ensures { self.new ≡ emptied self.old }
    {
        self.updates.clear();
    }

    // The lowest number, below which there is none.
    #[tactic(auto, using(crate::proofs::CacheLemmas::lowest_first, crate::proofs::CacheLemmas::lowest_of_none, crate::proofs::CacheLemmas::all_above_lowest))]
    fn lowest(&self) -> Option<u32>
        ensures number { result ≡ lowest_number self.now.updates }
        ensures above { IfSome result (λ lowest. (n : ℕ) → n < lowest → above n self.now.updates ≡ self.now.updates) }
    {
        match self.updates.first_key_value() {
            Some((lowest, _)) => Some(*lowest),
            None => None,
        }
    }

    // Drops the lowest number, if there is one.
    fn drop_lowest(&mut self)
        ensures { self.new ≡ record self.old { updates = drop 1 self.old.updates } }
    {
        self.updates.pop_first();
    }

    // Drops the updates numbered this or lower. It looks at these and one more.
    #[tactic(auto, using(crate::proofs::CacheLemmas::above_dropped, crate::proofs::CacheLemmas::fewer_dropped, crate::proofs::CacheLemmas::none_above))]
    pub(crate) fn drop_to(&mut self, number: u32)
        ensures { self.new ≡ past number self.old }
    {
        while let Some(lowest) = self.lowest() {
            if lowest > number {
                return;
            }
            self.drop_lowest();
        }
    }

    // The updates, by number.
    pub(crate) fn updates(&self) -> &BTreeMap<u32, Msg>
        ensures { result.now.entries ≡ self.now.updates }
    {
        &self.updates
    }

    // Puts an update in its place, if there is none with its number, and tells whether that was so. There may then be one
    // more than the size.
    pub(crate) fn put(&mut self, number: u32, body: Msg) -> Result<bool, OutOfMemory>
        ensures put { OnOk result (self.new ≡ record self.old { updates = put self.old.updates number body }) }
        ensures fresh { IfOk result (λ fresh. fresh ≡ not (has_number self.old.updates number)) }
        ensures err { OnErr result (self.new ≡ self.old) }
    {
        if self.updates.contains_key(&number) {
            return Ok(false);
        }
        self.updates.insert(number, body)?;
        Ok(true)
    }

    // Takes back what `put` did.
    pub(crate) fn take_back(&mut self, number: u32, fresh: bool)
        ensures { self.new ≡ (if fresh then record self.old { updates = remove_entry (is_at (nat_cmp number)) self.old.updates } else self.old) }
    {
        if fresh {
            self.updates.remove(&number);
        }
    }

    // Drops the lowest number, if there are more updates than the size.
    fn trim(&mut self)
        ensures { self.new ≡ record self.old { updates = trimmed self.old.size self.old.updates } }
    {
        if self.updates.len() > self.size as usize {
            self.updates.pop_first();
        }
    }

    /// Adds an update. One with its number that is there stays.
    pub fn add(&mut self, number: u32, body: Msg) -> Result<(), OutOfMemory>
        ensures ok { OnOk result (self.new ≡ added self.old number body) }
        ensures err { OnErr result (self.new ≡ self.old) }
    {
        self.put(number, body)?;
        self.trim();
        Ok(())
    }

    /// Adds a copy of an update, as `add` does, and applies the update to an image: both or neither.
    pub fn add_applied(
        &mut self,
        number: u32,
        update: &Msg,
        image: &mut Msg,
    ) -> Result<(), OutOfMemory>
        ensures ok { OnOk result (self.new ≡ added self.old number update.now) }
        ensures applied { OnOk result (image.new ≡ apply image.old update.now) }
        ensures err { OnErr result (self.new ≡ self.old) }
        ensures image_err { OnErr result (image.new ≡ image.old) }
    {
        let fresh = self.put(number, update.try_clone()?)?;
        if let Err(error) = image.apply(update) {
            self.take_back(number, fresh);
            return Err(error);
        }
        self.trim();
        Ok(())
    }

    /// Applies to a record at a number the updates that follow it without a hole. It answers the number reached.
    /// After want of memory the record may have some of them applied.
    pub fn follow(&self, number: u32, image: &mut Msg) -> Result<u32, OutOfMemory>
        ensures number { IfOk result (λ n. n ≡ (reached self.now.updates number image.old).number) }
        ensures body { OnOk result (image.new ≡ (reached self.now.updates number image.old).body) }
    {
        let mut at = number;
        for (next, update) in self
            .updates
            .range((Bound::Excluded(number), Bound::Unbounded))
        {
            if *next - at != 1 {
                return Ok(at);
            }
            image.apply(update)?;
            at = *next;
        }
        Ok(at)
    }
}
