//! Months and dates, read from words.
ghost use Rattle.std.specs.Prelude.{[], ◌∷◌, Some};
ghost use Rattle.kinds.specs.Texts.{dated};
ghost use Rattle.lines.specs.Readers.{Reads};
ghost use Rattle.lines.specs.Dates.{Digit, Pair, Monthly, MonthWord, DateWord, CalendarWord};

use crate::fields::{Fault, Field};
use kinds::{Date, Month};
use std::fmt;

/// The number that a digit writes.
fn digit(byte: u8) -> Result<u8, Fault>
    ensures { Reads (Digit byte) result }
{
    let n = char::from(byte).to_digit(10).ok_or(Fault::Unreadable)?;
    Ok(n as u8)
}

/// The number that two digits write.
fn two_digits(tens: u8, units: u8) -> Result<u8, Fault>
    ensures { Reads (Pair (tens ∷ units ∷ [])) result }
{
    Ok(digit(tens)? * 10 + digit(units)?)
}

/// The month that seven bytes write.
fn month_of(bytes: &[u8]) -> Result<Month, Fault>
    ensures { Reads (Monthly bytes.now) result }
{
    let [c, d, y, z, dash, m, n] = bytes else {
        return Err(Fault::Unreadable);
    };
    if *dash != b'-' {
        return Err(Fault::Unreadable);
    }
    let century = two_digits(*c, *d)?;
    let year = two_digits(*y, *z)?;
    let month = two_digits(*m, *n)?;
    Ok(Month {
        year: u16::from(century) * 100 + u16::from(year),
        month,
    })
}

/// The date that ten bytes write.
fn date_of(bytes: &[u8]) -> Result<Date, Fault>
    ensures { Reads (DateWord bytes.now) result }
{
    let [front @ .., dash, tens, units] = bytes else {
        return Err(Fault::Unreadable);
    };
    if *dash != b'-' {
        return Err(Fault::Unreadable);
    }
    let Month { year, month } = month_of(front)?;
    let day = two_digits(*tens, *units)?;
    Ok(Date { year, month, day })
}

/// A month of the calendar.
impl Field for Month {
    ghost writes = { MonthWord };

    fn read(word: &str) -> Result<Month, Fault> {
        let month = month_of(word.as_bytes())?;
        if !(1..=12).contains(&month.month) {
            return Err(Fault::Unreadable);
        }
        Ok(month)
    }
}

/// A date of the calendar.
impl Field for Date {
    ghost writes = { CalendarWord };

    fn read(word: &str) -> Result<Date, Fault> {
        let date = date_of(word.as_bytes())?;
        if !date.exists() {
            return Err(Fault::Unreadable);
        }
        Ok(date)
    }
}

/// A date as its word writes it, in the calendar or not.
#[derive(Clone, Copy, PartialEq, Eq, Debug)]
pub struct DateText(pub Date);

/// YYYY-MM-DD.
impl fmt::Display for DateText {
    ghost output = { λ x. Some (dated x.0) };

    fn fmt<W: fmt::Write>(&self, f: &mut fmt::Formatter<W>) -> fmt::Result {
        write!(f, "{}", self.0)
    }
}

impl Field for DateText {
    ghost writes = { λ w x. DateWord w x.0 };

    fn read(word: &str) -> Result<DateText, Fault> {
        Ok(DateText(date_of(word.as_bytes())?))
    }
}
