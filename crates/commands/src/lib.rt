//! Commands: how the words of a line are read into one, and what is said to it.
#![tactic(auto)]

pub mod keys;
pub mod refusals;
pub mod replies;
pub mod rows;
pub mod topics;

pub use keys::{Key, first_key};
pub use lines::dates::DateText;
pub use refusals::refused_text;
pub use replies::{Command, Reply, carry_out};
pub use rows::Row;
pub use topics::{Topic, answer_by, answer_chosen};
