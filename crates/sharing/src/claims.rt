//! Claims: what a sharing is made over.
ghost use Rattle.std.specs.Prelude.{◌≡◌, ℤ};
ghost use Rattle.std.proofs.Common.{rules};

use kinds::{Cents, Energy, Kind, Metered};

/// Something that tells a signed whole number, and takes a share, which it then holds.
pub trait Claim {
    /// What it tells.
    ghost told: { Self → ℤ };

    /// The share that it holds.
    ghost held: { Self → ℤ };

    /// It with a share taken, and nothing else changed.
    ghost taking: { Self → ℤ → Self };

    fn value(&self) -> i64
        ensures { result ≡ told self.now };

    fn take(&mut self, share: i64)
        ensures { self.new ≡ taking self.old share };

    fn share(&self) -> i64
        ensures { result ≡ held self.now };

    /// A share that is taken is held.
    ghost holds: { (c : Self) (s : ℤ) → held (taking c s) ≡ s };

    /// A share that is taken changes nothing that is told.
    ghost tells: { (c : Self) (s : ℤ) → told (taking c s) ≡ told c };
}

/// A value of one kind, and the share of the same or another kind that it takes.
#[derive(Clone, Copy, PartialEq, Eq, Debug)]
pub struct Stake<V, S> {
    pub value: V,
    pub share: S,
}

impl<V: Kind, S: Kind> Claim for Stake<V, S> {
    ghost told = { λ c. V.number c.value };

    ghost held = { λ c. S.number c.share };

    ghost taking = { λ c s. record { value = c.value; share = S.of s } };

    ghost holds = { λ c s. S.holds s };

    ghost tells = { Prim.search rules };

    fn value(&self) -> i64 {
        self.value.number()
    }

    fn take(&mut self, share: i64) {
        self.share = S::of(share);
    }

    fn share(&self) -> i64 {
        self.share.number()
    }
}

/// A metered reading that takes a position at 25°.
pub type MeteredClaim = Stake<Metered, Energy>;

/// An energy at 25° that takes a share of an energy.
pub type EnergyClaim = Stake<Energy, Energy>;

/// A carried balance that takes a share of an amount in cents.
pub type CarriedClaim = Stake<Energy, Cents>;

/// A number of no kind that takes a number.
pub type PlainClaim = Stake<i64, i64>;
