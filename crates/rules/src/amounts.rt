//! What an energy comes to at a price.
ghost use Rattle.std.specs.Prelude.{◌≤◌, unsigned_abs};
ghost use Rattle.rules.specs.Amounts.{Nearest, Amounts};

use crate::price::Price;
use kinds::{Cents, Energy};

impl Price {
    /// The cents of an energy of this size: to the nearest, halves upward.
    fn cents_of(self, size: u64) -> u64
        requires size { size ≤ 1000000000000 }
        ensures nearest { Nearest self.mills size result }
        ensures most { result ≤ 40000000000000 }
    {
        (u64::from(self.mills) * size + 5_000) / 10_000
    }

    /// The amount of an energy: to the nearest cent, halves upward, and then with the sign of the
    /// energy, so that a short pool is charged.
    pub fn amount(self, energy: Energy) -> Cents
        requires size { unsigned_abs energy.0 ≤ 1000000000000 }
        ensures { Amounts self.mills energy.0 result.0 }
    {
        let cents = self.cents_of(energy.0.unsigned_abs()) as i64;
        if energy.0 < 0 {
            Cents(-cents)
        } else {
            Cents(cents)
        }
    }
}
