//! The words of a line, and the values that they write.
#![tactic(auto)]

pub mod dates;
pub mod fields;
pub mod words;

pub use fields::{Fault, Field, each, first};
pub use words::{split_words, uncommented};
