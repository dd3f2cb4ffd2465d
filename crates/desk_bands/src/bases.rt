//! The lines that ask for a base or for a standard tolerance.
ghost use Rattle.std.specs.Prelude.{◌≡◌};
ghost use Rattle.desk_bands.specs.Bases.{PerimeterWord, BaseWords, BaseSaid, ToleranceWords, ToleranceSaid};

use commands::{Command, Reply, Row};
use kinds::Month;
use lines::{Fault, Field};
use std::alloc::{AllocError, Global};
use terms::Perimeter;
use terms::base::base;

/// A perimeter by its word.
// A struct of its own: neither `Perimeter` nor `Field` is of this crate.
#[derive(Clone, Copy, PartialEq, Eq, Debug)]
pub struct PerimeterName(pub Perimeter);

impl Field for PerimeterName {
    ghost writes = { λ w x. PerimeterWord w x.0 };

    fn read(word: &str) -> Result<PerimeterName, Fault> {
        match word {
            "north-b" => Ok(PerimeterName(Perimeter::NorthB)),
            "north-h" => Ok(PerimeterName(Perimeter::NorthH)),
            "south" => Ok(PerimeterName(Perimeter::South)),
            _ => Err(Fault::Unreadable),
        }
    }
}

/// `base YYYY-MM CAPACITY MONTHLY ALLOCATION..`: the base of a month.
#[derive(PartialEq, Eq, Debug, Drop)]
pub struct BaseLine {
    pub month: Month,
    pub capacity: u32,
    pub monthly: u32,
    pub allocations: Vec<u32>,
}

impl<S> Command<S> for BaseLine {
    ghost means = { BaseWords };

    ghost does = { λ x s t y. (t ≡ s) × BaseSaid x y };

    fn read(heap: Global, words: &[&str]) -> Result<BaseLine, Fault> {
        let (month, (capacity, (monthly, allocations))) = <(Month, (u32, (u32, Vec<u32>)))>::read(
            heap, words,
        )?;
        Ok(BaseLine {
            month,
            capacity,
            monthly,
            allocations,
        })
    }

    fn answer(&self, heap: Global, _state: &mut S) -> Result<Reply, AllocError> {
        match base(
            self.month,
            self.capacity,
            self.monthly,
            self.allocations.as_slice(),
        ) {
            Ok(sum) => Ok(Reply::Text(format!(in heap; "base {sum}")?)),
            Err(refusal) => Ok(Reply::Refused(refusal)),
        }
    }
}

/// `tolerance PERIMETER BASE`: the standard tolerance on a base.
#[derive(PartialEq, Eq, Debug, Drop)]
pub struct ToleranceLine {
    pub perimeter: PerimeterName,
    pub base: u32,
}

impl<S> Command<S> for ToleranceLine {
    ghost means = { ToleranceWords };

    ghost does = { λ x s t y. (t ≡ s) × ToleranceSaid x y };

    fn read(heap: Global, words: &[&str]) -> Result<ToleranceLine, Fault> {
        let (perimeter, (base, ())) = <(PerimeterName, (u32, ()))>::read(heap, words)?;
        Ok(ToleranceLine { perimeter, base })
    }

    fn answer(&self, heap: Global, _state: &mut S) -> Result<Reply, AllocError> {
        match self.perimeter.0.tolerance(self.base) {
            Ok((tolerance, bracket)) => {
                Ok(Reply::Text(format!(in heap; "tolerance {tolerance} bracket {bracket}")?))
            }
            Err(refusal) => Ok(Reply::Refused(refusal)),
        }
    }
}
