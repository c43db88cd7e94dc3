ghost use Rattle.std.specs.Prelude.{◌≡◌, ◌↔◌, ◌<◌, ◌≤◌, true, length, slice_index, take, IsSome, IfSome};
ghost use Rattle.mama_event.specs.FidList.{is_fid_list};
ghost use Rattle.mama_event.specs.Fids.{before_zero};

use std::marker::Model;

/// The most fids that can be asked for at once.
pub const MOST_FIDS: usize = 8;

/// 1 to 8 fids that a reply is asked to have, each from 1 and strictly ascending. They lie in the value itself.
#[derive(Clone, Copy, Debug)]
pub struct Fids {
    // They end at the first 0, which is no fid.
    fids: [u16; MOST_FIDS],
}

impl Model for Fids {
    ghost use Rattle.std.specs.Prelude.{List, ℕ};

    ghost Value = { List ℕ };

    ghost use Rattle.mama_event.specs.Fids.{list_of, AreFids, inside_of, inside_of-list_of};

    ghost view = { list_of };

    ghost invariant = { AreFids };

    ghost inverse = { inside_of };

    ghost inverse_ok = { inside_of-list_of };
}

impl PartialEq for Fids {
    ghost use Rattle.std.specs.Prelude.{◌≡◌};
    ghost use Rattle.std.specs.Cmp.{partial_equiv_from_equiv};
    ghost use Rattle.std.specs.Str.{bytes_eq};
    ghost use Rattle.std.specs.Cmp.Lexicographic.{nat_list_eq_equiv};

    ghost eq = { bytes_eq };

    ghost laws = { partial_equiv_from_equiv nat_list_eq_equiv };

    fn eq(&self, other: &Fids) -> bool
        ensures { result ≡ bytes_eq self.now other.now }
    {
        self.as_slice() == other.as_slice()
    }
}

impl Eq for Fids {
    ghost use Rattle.std.specs.Cmp.Lexicographic.{nat_list_eq_equiv};

    ghost laws = { nat_list_eq_equiv };
}

impl Fids {
    /// The fids of a list: 1 to 8, each above 0, strictly ascending. `None` where the list is not of that form. It
    /// takes no memory.
    pub fn new(fids: &[u16]) -> Option<Fids>
        ensures found { IfSome result (λ list. list ≡ fids.now) }
        ensures form { IsSome result ↔ (is_fid_list fids.now ≡ true) }
    {
        let count = fids.len();
        if count == 0 || count > MOST_FIDS {
            return None;
        }
        let mut kept = [0; MOST_FIDS];
        let mut before = 0;
        for (i, fid) in fids.iter().enumerate() {
            if *fid <= before {
                return None;
            }
            kept[i] = *fid;
            before = *fid;
        }
        Some(Fids { fids: kept })
    }

    /// How many fids there are: 1 to 8.
    pub fn len(&self) -> usize
        ensures len { result ≡ length self.now }
        ensures form { is_fid_list self.now ≡ true }
    {
        count(&self.fids)
    }

    /// The fid at a place, counted from 0.
    pub fn at(&self, i: usize) -> u16
        requires { i < length self.now }
        ensures { result ≡ slice_index self.now i }
    {
        self.as_slice()[i]
    }

    /// The fids in order.
    pub fn as_slice(&self) -> &[u16]
        ensures { result.now ≡ self.now }
    {
        &self.fids[..count(&self.fids)]
    }
}

// How many fids stand before the first 0.
fn count(fids: &[u16]) -> usize
    ensures len { result ≡ length (before_zero fids.now) }
    ensures front { take result fids.now ≡ before_zero fids.now }
{
    for (i, fid) in fids.iter().enumerate() {
        if *fid == 0 {
            return i;
        }
    }
    fids.len()
}
