//! The Gregorian calendar: the days of a month, the dates that exist, their order and the next day.
ghost use Rattle.std.specs.Prelude.{◌≡◌, ◌⊎◌, MatchBool, MatchOption};
ghost use Rattle.kinds.specs.Calendar.{Leap, is_leap, days_of, Exists, Last, Before, Tomorrow, OneNext, last_date};

use crate::dates::{Date, Month};

/// Whether the year has a 29th of February.
fn is_leap(year: u16) -> bool
    ensures value { result ≡ is_leap year }
    ensures rule { MatchBool result (Leap year) (Leap year → ⊥) }
{
    year % 4 == 0 && (year % 100 != 0 || year % 400 == 0)
}

impl Month {
    /// How many days the month has; 0 where there is no such month.
    #[tactic(auto, unfolding(crate::specs::Calendar::days_of))]
    pub fn days(self) -> u8
        ensures { result ≡ days_of self.year self.month }
    {
        match self.month {
            2 => if is_leap(self.year) { 29 } else { 28 },
            4 | 6 | 9 | 11 => 30,
            1..=12 => 31,
            _ => 0,
        }
    }
}

impl Date {
    /// The month that the day is in.
    // An accessor and not a `From`: `date.month()` reads plainer.
    pub fn month(self) -> Month
        ensures { (result.year ≡ self.year) × (result.month ≡ self.month) }
    {
        Month {
            year: self.year,
            month: self.month,
        }
    }

    /// Whether the date is in the calendar.
    pub fn exists(self) -> bool
        ensures { MatchBool result (Exists self) (Exists self → ⊥) }
    {
        1 <= self.day && self.day <= self.month().days()
    }

    /// Whether the date is in the calendar, and is the last day of its month.
    pub fn is_last_of_month(self) -> bool
        ensures { MatchBool result (Last self) (Last self → ⊥) }
    {
        self.exists() && self.day == self.month().days()
    }

    /// The next day; none where the date is not in the calendar, and none after 65535-12-31, the
    /// last date that there is a `Date` for.
    pub fn next(self) -> Option<Date>
        ensures value { MatchOption result ((Exists self → ⊥) ⊎ (self ≡ last_date)) (λ e. Exists self × Tomorrow self e) }
        ensures one_next { OneNext }
    {
        if !self.exists() {
            None
        } else if !self.is_last_of_month() {
            Some(Date {
                day: self.day + 1,
                ..self
            })
        } else if self.month < 12 {
            Some(Date {
                month: self.month + 1,
                day: 1,
                ..self
            })
        } else if self.year < u16::MAX {
            Some(Date {
                year: self.year + 1,
                month: 1,
                day: 1,
            })
        } else {
            None
        }
    }

    /// Whether the date comes before the other.
    pub fn is_before(self, other: Date) -> bool
        ensures { MatchBool result (Before self other) (Before self other → ⊥) }
    {
        self < other
    }
}
