//! The fraction of a sharing.
ghost use Rattle.std.specs.Prelude.{◌≡◌, ◌*◌, ◌<◌, ◌≤◌, max, List, ℤ, unsigned_abs, MatchResult};
ghost use Rattle.sharing.specs.Sharing.{sizes};
ghost use Rattle.sharing.specs.Limits.{Few, Small, Limits, Breaks};
ghost use Rattle.sharing.specs.Steps.{floor_of, rest_of};

use kinds::Refusal;

/// The fraction `p / q`. Any two numbers make one; a sharing refuses what is beyond its limits.
#[derive(Clone, Copy, PartialEq, Eq, Debug)]
pub struct Fraction {
    pub p: u64,
    pub q: u64,
}

impl Fraction {
    /// The size of an amount over a sum of sizes; over one where the sum is nil.
    pub(crate) fn over(amount: i64, sum: u64) -> Fraction
        ensures p { result.p ≡ unsigned_abs amount }
        ensures q { result.q ≡ max 1 sum }
    {
        Fraction {
            p: amount.unsigned_abs(),
            q: sum.max(1),
        }
    }

    /// Tests the fraction for claims that are few and small, with this sum of sizes.
    pub(crate) fn check(self, sum: u64) -> Result<(), Refusal>
        ensures { (vs : List ℤ) → Few vs → Small vs → sum ≡ sizes vs → MatchResult result (λ _. Limits self.p self.q vs) (λ e. Breaks self.p self.q vs e) }
    {
        let Fraction { p, q } = self;
        if p > 20_000_000_000 {
            return Err(Refusal::NumeratorTooLarge);
        }
        if q == 0 || q > 1_000_000_000_000 {
            return Err(Refusal::DenominatorOutOfRange);
        }
        if p as u128 * sum as u128 > 9_000_000_000_000_000_000 {
            return Err(Refusal::ProductTooLarge);
        }
        Ok(())
    }

    /// The fraction of `v` rounded downward, and what that leaves of `p × v`.
    pub(crate) fn part_of(self, v: i64) -> (i64, u64)
        requires product { self.p * unsigned_abs v ≤ 9000000000000000000 }
        requires top { self.p ≤ 20000000000 }
        requires some { 0 < self.q }
        requires bottom { self.q ≤ 1000000000000 }
        ensures floor { result.0 ≡ floor_of self.p self.q v }
        ensures rest { result.1 ≡ rest_of self.p self.q v }
    {
        let whole = self.p as i64 * v;
        let q = self.q as i64;
        (whole.div_euclid(q), whole.rem_euclid(q) as u64)
    }
}
