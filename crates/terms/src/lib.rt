//! The rules that the operator's terms describe, built from their terms and series.
#![tactic(auto)]

pub mod base;
pub mod errors;
pub mod months;
pub mod price_rules;
pub mod schedule;
pub mod series;
pub mod tolerance;

pub use errors::RuleError;
pub use tolerance::Perimeter;
