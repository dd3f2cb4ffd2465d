//! A value or none for each day of a month.
ghost use Rattle.std.specs.Prelude.{◌≡◌};
ghost use Rattle.rules.specs.Monthly.{on_date};

use kinds::{Date, Month};

/// A value or none for each day of a month, from its 1st on.
#[derive(Drop, PartialEq, Eq, Debug)]
pub struct Monthly<T> {
    pub month: Month,
    pub days: Vec<Option<T>>,
}

impl<T: Copy> Monthly<T> {
    /// The value of a date; none outside the month.
    pub fn on(&self, date: Date) -> Option<T>
        ensures { result ≡ on_date self.now.month self.now.days.items date }
    {
        if date.month() != self.month {
            return None;
        }
        let place = date.day.checked_sub(1)?;
        self.days.get(usize::from(place)).copied().flatten()
    }
}
