//! The desk's lines on prices: `reference`, `hub`, `supplement`, `prices` and `ask prices`.
#![tactic(auto)]

pub mod asking;
pub mod hand;
pub mod keywords;
pub mod series;
pub mod setting;

pub use asking::ask;
pub use hand::PricesInHand;
pub use keywords::answer;
