//! The line that asks the band rule in hand.
ghost use Rattle.std.specs.Prelude.{IfOk};
ghost use Rattle.lines.specs.Words.{texts};
ghost use Rattle.commands.specs.Replies.{said, Replied};
ghost use Rattle.desk_bands.specs.Asking.{AskWords, Asked, ask_form};

use crate::setting::InHand;
use commands::{Command, Reply, Row, carry_out};
use kinds::Date;
use lines::{Fault, Field};
use rules::bands::parts::BandFigures;
use rules::rules::Rule;
use std::alloc::{AllocError, Global};

/// `ask bands YYYY-MM-DD`: the bands of a date.
#[derive(PartialEq, Eq, Debug, Drop)]
pub struct AskLine {
    pub date: Date,
}

impl Command<InHand> for AskLine {
    ghost means = { AskWords };

    ghost does = { Asked };

    fn read(heap: Global, words: &[&str]) -> Result<AskLine, Fault> {
        let (date, ()) = <(Date, ())>::read(heap, words)?;
        Ok(AskLine { date })
    }

    fn answer(&self, heap: Global, hand: &mut InHand) -> Result<Reply, AllocError> {
        // A let-else: it leaves with an answer of its own, which no `?` gives.
        let Some(bands) = hand.ask(self.date) else {
            return Ok(Reply::Text(format!(in heap; "no bands")?));
        };
        let BandFigures {
            lower_allowed,
            lower_cumulable,
            upper_cumulable,
            upper_allowed,
            carry_limit,
        } = BandFigures::from(bands);
        Ok(Reply::Text(format!(in heap;
            "bands {lower_allowed} {lower_cumulable} {upper_cumulable} {upper_allowed} {carry_limit}"
        )?))
    }
}

/// What is said to the words after `ask bands`.
pub fn ask(heap: Global, hand: &mut InHand, words: &[&str]) -> Result<Reply, AllocError>
    ensures { IfOk result (λ x. Replied AskWords Asked ask_form (texts words.now) hand.old hand.new (said x)) }
{
    carry_out::<InHand, AskLine>(heap, hand, words, "ask bands YYYY-MM-DD")
}
