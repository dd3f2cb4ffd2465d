//! Three kinds of whole number that are never taken for one another, each with the arithmetic
//! that means something: only a rule turns one kind into another.
ghost use Rattle.std.specs.Prelude.{◌≡◌, ℤ, ◌+ℤ◌, ◌-ℤ◌, neg_ℤ, FitsSigned};
ghost use Rattle.std.specs.Int.{w64};
ghost use Rattle.std.proofs.Common.{rules};

use std::ops::{Add, Neg, Sub};

/// Energy as metered, at 0°, in kWh; above zero where more entered than left.
#[derive(Clone, Copy, PartialEq, Eq, PartialOrd, Ord, Debug)]
pub struct Metered(pub i64);

/// Energy at 25°, in kWh; above zero is long.
#[derive(Clone, Copy, PartialEq, Eq, PartialOrd, Ord, Debug)]
pub struct Energy(pub i64);

/// Money, in cents; below zero is a charge.
#[derive(Clone, Copy, PartialEq, Eq, PartialOrd, Ord, Debug)]
pub struct Cents(pub i64);

/// A kind of whole number, told by the number that it holds.
// Not `From` both ways: that states a relation, and a claim needs the value that a number is made into.
pub trait Kind: Copy {
    /// The number that it holds.
    ghost number: { Self → ℤ };

    /// The value that holds a number.
    ghost of: { ℤ → Self };

    fn number(self) -> i64
        ensures { result ≡ number self };

    fn of(n: i64) -> Self
        ensures { result ≡ of n };

    /// What is made of a number holds it.
    ghost holds: { (n : ℤ) → number (of n) ≡ n };
}

/// A number of no kind.
impl Kind for i64 {
    ghost number = { λ x. x };

    ghost of = { λ n. n };

    ghost holds = { Prim.search rules };

    fn number(self) -> i64 {
        self // no unit
    }

    fn of(n: i64) -> i64 {
        n
    }
}

// The three kinds stay structs of their own, the form that was asked for, so each says what it holds.
impl Kind for Metered {
    ghost number = { λ m. m.0 };

    ghost of = { λ n. record { 0 = n } };

    ghost holds = { Prim.search rules };

    fn number(self) -> i64 {
        self.0 // kWh as metered
    }

    fn of(n: i64) -> Metered {
        Metered(n)
    }
}

impl Kind for Energy {
    ghost number = { λ e. e.0 };

    ghost of = { λ n. record { 0 = n } };

    ghost holds = { Prim.search rules };

    fn number(self) -> i64 {
        self.0 // kWh at 25°
    }

    fn of(n: i64) -> Energy {
        Energy(n)
    }
}

impl Kind for Cents {
    ghost number = { λ c. c.0 };

    ghost of = { λ n. record { 0 = n } };

    ghost holds = { Prim.search rules };

    fn number(self) -> i64 {
        self.0 // cents
    }

    fn of(n: i64) -> Cents {
        Cents(n)
    }
}

// One by one: each kind is a struct of its own with one field, the form that was asked for
// (docs/DECISIONS.md), and no impl of a foreign trait covers three structs.
impl Add<Metered> for Metered {
    type Output = Metered;

    ghost can_add = { λ a b. FitsSigned w64 (a.0 +ℤ b.0) };

    ghost add_gives = { λ a b r. r.0 ≡ a.0 +ℤ b.0 };

    fn add(self, other: Metered) -> Metered {
        Metered(self.0 + other.0)
    }
}

impl Add<Energy> for Energy {
    type Output = Energy;

    ghost can_add = { λ a b. FitsSigned w64 (a.0 +ℤ b.0) };

    ghost add_gives = { λ a b r. r.0 ≡ a.0 +ℤ b.0 };

    fn add(self, other: Energy) -> Energy {
        Energy(self.0 + other.0)
    }
}

impl Sub<Energy> for Energy {
    type Output = Energy;

    ghost can_sub = { λ a b. FitsSigned w64 (a.0 -ℤ b.0) };

    ghost sub_gives = { λ a b r. r.0 ≡ a.0 -ℤ b.0 };

    fn sub(self, other: Energy) -> Energy {
        Energy(self.0 - other.0)
    }
}

impl Neg for Energy {
    type Output = Energy;

    ghost can_neg = { λ a. FitsSigned w64 (neg_ℤ a.0) };

    ghost neg_gives = { λ a r. r.0 ≡ neg_ℤ a.0 };

    fn neg(self) -> Energy {
        Energy(-self.0)
    }
}

impl Add<Cents> for Cents {
    type Output = Cents;

    ghost can_add = { λ a b. FitsSigned w64 (a.0 +ℤ b.0) };

    ghost add_gives = { λ a b r. r.0 ≡ a.0 +ℤ b.0 };

    fn add(self, other: Cents) -> Cents {
        Cents(self.0 + other.0)
    }
}

impl Sub<Cents> for Cents {
    type Output = Cents;

    ghost can_sub = { λ a b. FitsSigned w64 (a.0 -ℤ b.0) };

    ghost sub_gives = { λ a b r. r.0 ≡ a.0 -ℤ b.0 };

    fn sub(self, other: Cents) -> Cents {
        Cents(self.0 - other.0)
    }
}

impl Neg for Cents {
    type Output = Cents;

    ghost can_neg = { λ a. FitsSigned w64 (neg_ℤ a.0) };

    ghost neg_gives = { λ a r. r.0 ≡ neg_ℤ a.0 };

    fn neg(self) -> Cents {
        Cents(-self.0)
    }
}
