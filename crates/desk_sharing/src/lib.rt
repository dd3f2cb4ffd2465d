//! The desk's lines that share: `share` and `amount`.
#![tactic(auto)]

pub mod figures;
pub mod keywords;
pub mod sharings;

pub use keywords::answer;
