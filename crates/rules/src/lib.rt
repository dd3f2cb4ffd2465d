//! Band rules and price rules, known by what they answer.
#![tactic(auto)]

pub mod amounts;
pub mod bands;
pub mod capacity;
pub mod day_price;
pub mod monthly;
pub mod price;
pub mod prices;
pub mod rules;
pub mod temperature;
pub mod tolerances;

pub use bands::Bands;
pub use capacity::no_capacity;
pub use day_price::DayPrice;
pub use monthly::Monthly;
pub use price::Price;
pub use prices::Prices;
pub use rules::{Either, Fixed, Rule};
pub use temperature::{Temperature, TemperatureShare};
pub use tolerances::Tolerances;
