//! The desk's lines on bands: `base`, `tolerance`, `bands` and `ask bands`.
#![tactic(auto)]

pub mod asking;
pub mod bases;
pub mod keywords;
pub mod setting;

pub use asking::ask;
pub use keywords::answer;
