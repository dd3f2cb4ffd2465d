//! The words that begin a line on bands, and what is said to such a line.
ghost use Rattle.std.specs.Option.{option_map};
ghost use Rattle.std.specs.Prelude.{IfOk};
ghost use Rattle.lines.specs.Words.{texts};
ghost use Rattle.commands.specs.Replies.{said, Answered};
ghost use Rattle.desk_bands.specs.Keywords.{spelled, spelled_form, Of, OfForm};

use crate::bases::{BaseLine, ToleranceLine};
use crate::setting::{FixedLine, InHand, NoneLine, ScheduleLine, ZeroLine};
use commands::{Key, Reply, Topic, answer_by, answer_chosen, carry_out};
use std::alloc::{AllocError, Global};

/// The first word of a line on bands.
#[derive(Clone, Copy, PartialEq, Eq, Debug)]
pub enum Keyword {
    Base,
    Tolerance,
    Bands,
}

impl Key for Keyword {
    ghost spelled = { spelled };

    fn of(word: &str) -> Option<Keyword> {
        match word {
            "base" => Some(Keyword::Base),
            "tolerance" => Some(Keyword::Tolerance),
            "bands" => Some(Keyword::Bands),
            _ => None,
        }
    }
}

/// The word after `bands`.
#[derive(Clone, Copy, PartialEq, Eq, Debug)]
pub enum BandsForm {
    None,
    Zero,
    Fixed,
    Schedule,
}

impl Key for BandsForm {
    ghost spelled = { spelled_form };

    fn of(word: &str) -> Option<BandsForm> {
        match word {
            "none" => Some(BandsForm::None),
            "zero" => Some(BandsForm::Zero),
            "fixed" => Some(BandsForm::Fixed),
            "schedule" => Some(BandsForm::Schedule),
            _ => None,
        }
    }
}

// Here and below a match says which command to run: each word has a line of a type of its own, which a table of `dyn` commands would lose.
impl Topic<InHand> for BandsForm {
    ghost says = { OfForm };

    fn answer(self, heap: Global, hand: &mut InHand, words: &[&str]) -> Result<Reply, AllocError> {
        match self {
            BandsForm::None => carry_out::<InHand, NoneLine>(heap, hand, words, "bands none"),
            BandsForm::Zero => carry_out::<InHand, ZeroLine>(heap, hand, words, "bands zero"),
            BandsForm::Fixed => {
                carry_out::<InHand, FixedLine>(heap, hand, words, "bands fixed LA LC UC UA LIMIT")
            }
            BandsForm::Schedule => carry_out::<InHand, ScheduleLine>(
                heap,
                hand,
                words,
                "bands schedule YYYY-MM PERIMETER BASE TOE THRESHOLD LIMIT TALON FORECAST..",
            ),
        }
    }
}

impl Topic<InHand> for Keyword {
    ghost says = { Of };

    fn answer(self, heap: Global, hand: &mut InHand, words: &[&str]) -> Result<Reply, AllocError> {
        match self {
            Keyword::Base => carry_out::<InHand, BaseLine>(
                heap,
                hand,
                words,
                "base YYYY-MM CAPACITY MONTHLY ALLOCATION..",
            ),
            Keyword::Tolerance => carry_out::<InHand, ToleranceLine>(
                heap,
                hand,
                words,
                "tolerance north-b|north-h|south BASE",
            ),
            Keyword::Bands => answer_chosen::<BandsForm, InHand>(
                heap,
                hand,
                words,
                "none, zero, fixed or schedule after bands",
            ),
        }
    }
}

/// What is said to a line of these words; none where its first word is no keyword of these.
pub fn answer(heap: Global, hand: &mut InHand, words: &[&str]) -> Result<Option<Reply>, AllocError>
    ensures { IfOk result (λ o. Answered spelled Of (texts words.now) hand.old hand.new (option_map said o)) }
{
    answer_by::<Keyword, InHand>(heap, hand, words)
}

#[cfg(test)]
mod tests {
    use super::{InHand, answer};
    use commands::Reply;
    use rules::rules::{Either, Fixed};

    #[test]
    fn lines_are_answered(rt: HostRuntime) {
        let heap = rt.alloc();
        let mut hand: InHand = Either::This(Fixed { value: None });
        let zero = answer(heap, &mut hand, &["bands", "zero"]).expect(&rt, "an answer");
        assert!(rt; matches!(zero, Some(Reply::Text(_))));
        let lacking = answer(heap, &mut hand, &["bands"]).expect(&rt, "an answer");
        assert!(rt; matches!(lacking, Some(Reply::Unreadable(_))));
        let other = answer(heap, &mut hand, &["share"]).expect(&rt, "an answer");
        assert!(rt; other.is_none());
    }
}
