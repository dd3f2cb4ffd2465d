//! The line that asks the price rule in hand.
ghost use Rattle.std.specs.Prelude.{IfOk};
ghost use Rattle.lines.specs.Words.{texts};
ghost use Rattle.commands.specs.Replies.{said, Replied};
ghost use Rattle.desk_prices.specs.Asking.{AskWords, Asked, ask_form};

use crate::hand::PricesInHand;
use commands::{Command, Reply, Row, carry_out};
use kinds::Date;
use lines::{Fault, Field};
use rules::prices::parts::PriceFigures;
use rules::rules::Rule;
use std::alloc::{AllocError, Global};

/// `ask prices YYYY-MM-DD`: the prices of a date.
#[derive(PartialEq, Eq, Debug, Drop)]
pub struct AskLine {
    pub date: Date,
}

impl Command<PricesInHand> for AskLine {
    ghost means = { AskWords };

    ghost does = { Asked };

    fn read(heap: Global, words: &[&str]) -> Result<AskLine, Fault> {
        let (date, ()) = <(Date, ())>::read(heap, words)?;
        Ok(AskLine { date })
    }

    fn answer(&self, heap: Global, hand: &mut PricesInHand) -> Result<Reply, AllocError> {
        // A let-else: it leaves with an answer of its own, which no `?` gives.
        let Some(prices) = hand.rule.ask(self.date) else {
            return Ok(Reply::Text(format!(in heap; "no prices")?));
        };
        let PriceFigures { p1, buy, sell, p3 } = PriceFigures::from(prices);
        Ok(Reply::Text(format!(in heap; "prices {p1} {buy} {sell} {p3}")?))
    }
}

/// What is said to the words after `ask prices`.
pub fn ask(heap: Global, hand: &mut PricesInHand, words: &[&str]) -> Result<Reply, AllocError>
    ensures { IfOk result (λ x. Replied AskWords Asked ask_form (texts words.now) hand.old hand.new (said x)) }
{
    carry_out::<PricesInHand, AskLine>(heap, hand, words, "ask prices YYYY-MM-DD")
}
