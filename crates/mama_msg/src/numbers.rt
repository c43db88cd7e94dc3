//! A list of numbers as a value.
ghost use Rattle.std.specs.Prelude.{◌≡◌, ◌↔◌, ◌<◌, ◌≤◌, length, IsTrue, IfOk, IfSome};
ghost use Rattle.std.specs.Cmp.{partial_equiv_from_equiv};
ghost use Rattle.mama_msg.specs.Equality.{same_numbers};
ghost use Rattle.mama_msg.specs.EqualityLaws.{same_numbers_equivalence};

use mama_memory::OutOfMemory;
use std::alloc::Global;
use std::marker::Model;

/// 0 to 24 signed numbers of 64 bits, in order.
#[derive(Debug, Drop)]
pub struct NumbersValue {
    numbers: Vec<i64>,
}

impl Model for NumbersValue {
    ghost use Rattle.std.specs.Prelude.{List, ℤ, ◌≤◌, length};

    ghost Value = { List ℤ };

    ghost view = { λ n. n.numbers.items };

    ghost invariant = { λ n. length n.numbers.items ≤ 24 };
}

impl NumbersValue {
    /// The most numbers that a value has.
    pub const MAX_LEN: usize = 24;

    /// The value with these numbers. `None` where there are more than 24. To refuse them takes no memory.
    pub fn new(alloc: Global, list: &[i64]) -> Result<Option<NumbersValue>, OutOfMemory>
        ensures value { IfOk result (λ found. IfSome found (λ value. (value ≡ list.now) × (length value ≤ 24))) }
        ensures refused { (result ≡ Ok None) ↔ (24 < length list.now) }
    {
        if list.len() > NumbersValue::MAX_LEN {
            return Ok(None);
        }
        let numbers = Vec::from_slice(alloc, list)?;
        Ok(Some(NumbersValue { numbers }))
    }

    /// The numbers. It takes no memory.
    pub fn numbers(&self) -> &[i64]
        ensures value { result.now ≡ self.now }
        ensures short { length self.now ≤ 24 }
    {
        self.numbers.as_slice()
    }

    /// An equal value.
    pub fn try_clone(&self) -> Result<NumbersValue, OutOfMemory>
        ensures equal { IfOk result (λ copy. copy ≡ self.now) }
    {
        let numbers = self.numbers.clone()?;
        Ok(NumbersValue { numbers })
    }
}

impl PartialEq for NumbersValue {
    ghost eq = { same_numbers };

    ghost laws = { partial_equiv_from_equiv same_numbers_equivalence };

    fn eq(&self, other: &NumbersValue) -> bool
        ensures value { result ≡ same_numbers self.now other.now }
        ensures exact { IsTrue result ↔ (self.now ≡ other.now) }
    {
        self.numbers() == other.numbers()
    }
}

impl Eq for NumbersValue {
    ghost laws = { same_numbers_equivalence };
}
