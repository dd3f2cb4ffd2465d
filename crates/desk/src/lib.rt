//! The desk's lines: the text that answers each, and the rules that they leave in hand.
#![tactic(auto)]

pub mod asking;
pub mod hand;
mod replies;
mod turns;

pub use hand::Hand;
pub use replies::{answer_line, unread_text};
