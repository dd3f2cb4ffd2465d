//! The kinds of number, the calendar date and the refusals that the whole ledger speaks of.
#![tactic(auto)]

pub mod calendar;
pub mod dates;
pub mod quantities;
pub mod refusals;

pub use dates::{Date, Month};
pub use quantities::{Cents, Energy, Kind, Metered};
pub use refusals::Refusal;
