//! Dates and months, in order and as text.
ghost use Rattle.std.specs.Prelude.{Some};
ghost use Rattle.kinds.specs.Texts.{monthly, dated};

use std::fmt;

/// A day of the calendar, by its year, its month from 1 to 12 and its day from 1.
#[derive(Clone, Copy, PartialEq, Eq, PartialOrd, Ord, Debug)]
pub struct Date {
    pub year: u16,
    pub month: u8,
    pub day: u8,
}

/// A month of the calendar, by its year and its number from 1 to 12.
#[derive(Clone, Copy, PartialEq, Eq, PartialOrd, Ord, Debug)]
pub struct Month {
    pub year: u16,
    pub month: u8,
}

/// YYYY-MM.
impl fmt::Display for Month {
    ghost output = { λ m. Some (monthly m.year m.month) };

    fn fmt<W: fmt::Write>(&self, f: &mut fmt::Formatter<W>) -> fmt::Result {
        let Month { year, month } = *self;
        write!(f, "{year:04}-{month:02}")
    }
}

/// YYYY-MM-DD.
impl fmt::Display for Date {
    ghost output = { λ d. Some (dated d) };

    fn fmt<W: fmt::Write>(&self, f: &mut fmt::Formatter<W>) -> fmt::Result {
        let Date { year, month, day } = *self;
        write!(f, "{year:04}-{month:02}-{day:02}")
    }
}
