ghost use Rattle.std.specs.Prelude.{◌≡◌, IfErr, IfOk, OnErr, OnOk};
ghost use Rattle.std.specs.Option.{option_map};
ghost use Rattle.mama_board.specs.Images.{no_images, row_at, after_set, after_seal, after_change};

use crate::change::Change;
use crate::image_set::ImageSet;
use crate::row::Row;
use indexmap::IndexMap;
use left_right::Absorb;
use mama_event::{ImageHead, SubId};
use mama_memory::{Duplicate, OutOfMemory};
use mama_msg::Msg;
use std::alloc::{AllocError, Global};
use std::marker::Model;

/// One of the two copies of what a board shows: how many sets were done, whether a seal followed the last of them, and
/// the row of each subscription that was set.
#[derive(Drop)]
pub struct Images {
    version: u64,
    sealed: bool,
    rows: IndexMap<SubId, Row>,
}

impl Model for Images {
    ghost use Rattle.mama_board.specs.Images.{ImagesValue};

    ghost Value = { ImagesValue };

    ghost view = { λ i. record { version = i.version; sealed = i.sealed; rows = i.rows.entries } };
}

impl Images {
    /// What a board shows at first. It takes no memory.
    pub fn new(alloc: Global) -> Images
        ensures { result ≡ no_images }
    {
        Images {
            version: 0,
            sealed: false,
            rows: IndexMap::new(alloc),
        }
    }

    /// How many sets were done.
    pub fn version(&self) -> u64
        ensures { result ≡ self.now.version }
    {
        self.version
    }

    /// Whether a seal followed the last set.
    pub fn is_sealed(&self) -> bool
        ensures { result ≡ self.now.sealed }
    {
        self.sealed
    }

    /// The head of a subscription's image, if it was set.
    pub fn head_of(&self, sub: SubId) -> Option<ImageHead>
        ensures { result ≡ option_map (λ r. r.head) (row_at sub self.now.rows) }
    {
        match self.rows.get(&sub) {
            Some(row) => Some(row.head),
            None => None,
        }
    }

    /// The head of a subscription's image with a copy of its body, if it was set.
    pub fn image_of(&self, sub: SubId) -> Result<Option<(ImageHead, Msg)>, OutOfMemory>
        ensures { IfOk result (λ image. image ≡ option_map (λ r. (r.head, r.body)) (row_at sub self.now.rows)) }
    {
        match self.rows.get(&sub) {
            Some(row) => Ok(Some((row.head, row.body.try_clone()?))),
            None => Ok(None),
        }
    }

    /// One set more, which comes back where memory ran out, or 2^64 - 1 sets were done.
    pub fn set(&mut self, set: ImageSet) -> Result<(), ImageSet>
        ensures ok { OnOk result (self.new ≡ after_set self.old set) }
        ensures err { OnErr result (self.new ≡ self.old) }
        ensures back { IfErr result (λ back. back ≡ set) }
    {
        if self.version == u64::MAX {
            return Err(set);
        }
        let ImageSet { sub, head, body } = set;
        match self.rows.insert(sub, Row { head, body }) {
            Ok(_) => {
                self.version += 1;
                self.sealed = false;
                Ok(())
            }
            Err(failed) => {
                let (sub, Row { head, body }) = failed.value;
                Err(ImageSet { sub, head, body })
            }
        }
    }

    /// Marks that no set follows.
    pub fn seal(&mut self)
        ensures { self.new ≡ after_seal self.old }
    {
        self.sealed = true;
    }
}

impl Absorb<Change> for Images {
    type State = Images;

    ghost state = { λ images. images };

    ghost applied = { after_change };

    fn absorb_first(&mut self, operation: &Change, _other: &Images) -> Result<(), AllocError> {
        match operation {
            Change::Set(set) => {
                let Ok(copy) = set.try_clone() else {
                    return Err(AllocError);
                };
                match self.set(copy) {
                    Ok(()) => Ok(()),
                    Err(_) => Err(AllocError),
                }
            }
            Change::Seal => {
                self.seal();
                Ok(())
            }
        }
    }

    fn absorb_second(&mut self, operation: Change, _other: &Images) -> Result<(), Change> {
        match operation {
            Change::Set(set) => match self.set(set) {
                Ok(()) => Ok(()),
                Err(set) => Err(Change::Set(set)),
            },
            Change::Seal => {
                self.seal();
                Ok(())
            }
        }
    }
}
