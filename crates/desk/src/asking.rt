//! The line that asks a rule in hand: the word after `ask` says which.
ghost use Rattle.desk.specs.Asking.{spelled, spelled_rule, Of, OfRule};

use crate::hand::Hand;
use commands::{Key, Reply, Topic, answer_chosen};
use std::alloc::{AllocError, Global};

/// The first word of a line that asks.
#[derive(Clone, Copy, PartialEq, Eq, Debug)]
pub enum Keyword {
    Ask,
}

impl Key for Keyword {
    ghost spelled = { spelled };

    fn of(word: &str) -> Option<Keyword> {
        match word {
            "ask" => Some(Keyword::Ask),
            _ => None,
        }
    }
}

/// The word after `ask`: the rule that is asked.
#[derive(Clone, Copy, PartialEq, Eq, Debug)]
pub enum RuleName {
    Bands,
    Prices,
}

impl Key for RuleName {
    ghost spelled = { spelled_rule };

    fn of(word: &str) -> Option<RuleName> {
        match word {
            "bands" => Some(RuleName::Bands),
            "prices" => Some(RuleName::Prices),
            _ => None,
        }
    }
}

impl Topic<Hand> for RuleName {
    ghost says = { OfRule };

    fn answer(self, heap: Global, hand: &mut Hand, words: &[&str]) -> Result<Reply, AllocError> {
        match self {
            RuleName::Bands => desk_bands::ask(heap, &mut hand.bands, words),
            RuleName::Prices => desk_prices::ask(heap, &mut hand.prices, words),
        }
    }
}

impl Topic<Hand> for Keyword {
    ghost says = { Of };

    fn answer(self, heap: Global, hand: &mut Hand, words: &[&str]) -> Result<Reply, AllocError> {
        match self {
            Keyword::Ask => {
                answer_chosen::<RuleName, Hand>(heap, hand, words, "bands or prices after ask")
            }
        }
    }
}
