//! Decimal prices.
ghost use Rattle.std.specs.Prelude.{◌≡◌, ◌↔◌, ◌≤◌, IsTrue, IsSome, IfSome};
ghost use Rattle.std.specs.Cmp.{partial_equiv_from_equiv};

use std::marker::Model;

/// A decimal price: `mantissa` divided by ten to the power of `decimals`, which is 0 to 18.
///
/// Prices are equal where both parts are: 1.0 and 1.00 are two prices.
#[derive(Clone, Copy, Debug)]
pub struct Price {
    mantissa: i64,
    decimals: u8,
}

impl Model for Price {
    ghost use Rattle.std.specs.Prelude.{◌≤◌};
    ghost use Rattle.mama_msg.specs.Price.{PriceData};

    ghost Value = { PriceData };

    ghost view = { λ p. record { mantissa = p.mantissa; decimals = p.decimals } };

    ghost invariant = { λ p. p.decimals ≤ 18 };

    ghost inverse = { λ p. record { mantissa = p.mantissa; decimals = p.decimals } };
}

impl Price {
    /// The most decimals that a price has.
    pub const MAX_DECIMALS: u8 = 18;

    /// The price with these parts. `None` where `decimals` is above 18.
    pub fn new(mantissa: i64, decimals: u8) -> Option<Price>
        ensures found { IsSome result ↔ (decimals ≤ 18) }
        ensures value { IfSome result (λ price. price ≡ record { mantissa = mantissa; decimals = decimals }) }
    {
        if decimals > Price::MAX_DECIMALS {
            return None;
        }
        Some(Price { mantissa, decimals })
    }

    /// The number before the division.
    pub fn mantissa(&self) -> i64
        ensures { result ≡ self.now.mantissa }
    {
        self.mantissa
    }

    /// By which power of ten the mantissa is divided.
    pub fn decimals(&self) -> u8
        ensures value { result ≡ self.now.decimals }
        ensures small { result ≤ 18 }
    {
        self.decimals
    }
}

impl PartialEq for Price {
    ghost use Rattle.mama_msg.specs.Equality.{same_price};
    ghost use Rattle.mama_msg.specs.EqualityLaws.{same_price_equivalence};

    ghost eq = { same_price };

    ghost laws = { partial_equiv_from_equiv same_price_equivalence };

    fn eq(&self, other: &Price) -> bool
        ensures value { result ≡ same_price self.now other.now }
        ensures exact { IsTrue result ↔ (self.now ≡ other.now) }
    {
        self.mantissa == other.mantissa && self.decimals == other.decimals
    }
}

impl Eq for Price {
    ghost use Rattle.mama_msg.specs.EqualityLaws.{same_price_equivalence};

    ghost laws = { same_price_equivalence };
}
