//! The words that begin a line on prices, and what is said to such a line.
ghost use Rattle.std.specs.Option.{option_map};
ghost use Rattle.std.specs.Prelude.{IfOk};
ghost use Rattle.lines.specs.Words.{texts};
ghost use Rattle.commands.specs.Replies.{said, Answered};
ghost use Rattle.desk_prices.specs.Keywords.{spelled, spelled_form, Of, OfForm};

use crate::hand::{PricesInHand, SeriesInHand};
use crate::series::SeriesLine;
use crate::setting::{FixedLine, Line2008, Line2012, NoneLine};
use commands::{Key, Reply, Topic, answer_by, answer_chosen, carry_out};
use std::alloc::{AllocError, Global};

/// The first word of a line on prices.
#[derive(Clone, Copy, PartialEq, Eq, Debug)]
pub enum Keyword {
    Reference,
    Hub,
    Supplement,
    Prices,
}

impl Key for Keyword {
    ghost spelled = { spelled };

    fn of(word: &str) -> Option<Keyword> {
        match word {
            "reference" => Some(Keyword::Reference),
            "hub" => Some(Keyword::Hub),
            "supplement" => Some(Keyword::Supplement),
            "prices" => Some(Keyword::Prices),
            _ => None,
        }
    }
}

/// The word after `prices`.
#[derive(Clone, Copy, PartialEq, Eq, Debug)]
pub enum PricesForm {
    None,
    Fixed,
    Of2012,
    Of2008,
}

impl Key for PricesForm {
    ghost spelled = { spelled_form };

    fn of(word: &str) -> Option<PricesForm> {
        match word {
            "none" => Some(PricesForm::None),
            "fixed" => Some(PricesForm::Fixed),
            "2012" => Some(PricesForm::Of2012),
            "2008" => Some(PricesForm::Of2008),
            _ => None,
        }
    }
}

// Here a match says which command to run: each word has a line of a type of its own, which a table of `dyn` commands would lose.
impl Topic<PricesInHand> for PricesForm {
    ghost says = { OfForm };

    fn answer(
        self,
        heap: Global,
        hand: &mut PricesInHand,
        words: &[&str],
    ) -> Result<Reply, AllocError> {
        match self {
            PricesForm::None => {
                carry_out::<PricesInHand, NoneLine>(heap, hand, words, "prices none")
            }
            PricesForm::Fixed => carry_out::<PricesInHand, FixedLine>(
                heap,
                hand,
                words,
                "prices fixed P1 BUY SELL P3",
            ),
            PricesForm::Of2012 => {
                carry_out::<PricesInHand, Line2012>(heap, hand, words, "prices 2012")
            }
            PricesForm::Of2008 => {
                carry_out::<PricesInHand, Line2008>(heap, hand, words, "prices 2008")
            }
        }
    }
}

// The keywords of a series have one line, whose state is the series of the keyword: it reaches no other. That series
// beside its form as the value of a match, and one call after it, was tried: the borrow checker does not cover it.
impl Topic<PricesInHand> for Keyword {
    ghost says = { Of };

    fn answer(
        self,
        heap: Global,
        hand: &mut PricesInHand,
        words: &[&str],
    ) -> Result<Reply, AllocError> {
        match self {
            Keyword::Reference => carry_out::<SeriesInHand, SeriesLine>(
                heap,
                &mut hand.reference,
                words,
                "reference YYYY-MM R..",
            ),
            Keyword::Hub => carry_out::<SeriesInHand, SeriesLine>(
                heap,
                &mut hand.hub,
                words,
                "hub YYYY-MM H..",
            ),
            Keyword::Supplement => carry_out::<SeriesInHand, SeriesLine>(
                heap,
                &mut hand.supplement,
                words,
                "supplement YYYY-MM S..",
            ),
            Keyword::Prices => answer_chosen::<PricesForm, PricesInHand>(
                heap,
                hand,
                words,
                "none, fixed, 2012 or 2008 after prices",
            ),
        }
    }
}

/// What is said to a line of these words; none where its first word is no keyword of these.
pub fn answer(
    heap: Global,
    hand: &mut PricesInHand,
    words: &[&str],
) -> Result<Option<Reply>, AllocError>
    ensures { IfOk result (λ o. Answered spelled Of (texts words.now) hand.old hand.new (option_map said o)) }
{
    answer_by::<Keyword, PricesInHand>(heap, hand, words)
}

#[cfg(test)]
mod tests {
    use super::{Global, PricesInHand, answer};
    use crate::asking::ask;
    use commands::Reply;

    // The words that give a series of February 2013: this value on the 1st, and none after it.
    fn february(keyword: &'static str, value: &'static str) -> [&'static str; 30] {
        let mut words = ["-"; 30];
        words[0] = keyword;
        words[1] = "2013-02";
        words[2] = value;
        words
    }

    fn succeeds(heap: Global, hand: &mut PricesInHand, words: &[&str]) -> bool {
        matches!(answer(heap, hand, words), Ok(Some(Reply::Text(_))))
    }

    fn shows(heap: Global, hand: &mut PricesInHand, expected: &str) -> bool {
        match ask(heap, hand, &["2013-02-01"]) {
            Ok(Reply::Text(text)) => text.as_str() == expected,
            _ => false,
        }
    }

    #[test]
    fn lines_are_answered(rt: HostRuntime) {
        let heap = rt.alloc();
        let mut hand = PricesInHand::start();
        assert!(rt; shows(heap, &mut hand, "no prices"));
        assert!(rt; succeeds(heap, &mut hand, &february("reference", "2500")));
        assert!(rt; succeeds(heap, &mut hand, &february("hub", "1500")));
        assert!(rt; succeeds(heap, &mut hand, &february("supplement", "2700")));
        assert!(rt; succeeds(heap, &mut hand, &["prices", "2012"]));
        assert!(rt; shows(heap, &mut hand, "prices 25000 17500 32500 27000"));
        assert!(rt; succeeds(heap, &mut hand, &["prices", "2008"]));
        assert!(rt; shows(heap, &mut hand, "prices 25000 17500 22500 27000"));
        assert!(rt; succeeds(heap, &mut hand, &["prices", "fixed", "1", "2", "3", "4"]));
        assert!(rt; shows(heap, &mut hand, "prices 1 2 3 4"));
        assert!(rt; succeeds(heap, &mut hand, &["prices", "none"]));
        assert!(rt; shows(heap, &mut hand, "no prices"));
    }

    #[test]
    fn lines_that_lack_something(rt: HostRuntime) {
        let heap = rt.alloc();
        let mut hand = PricesInHand::start();
        let early = answer(heap, &mut hand, &["prices", "2012"]).expect(&rt, "an answer");
        assert!(rt; matches!(early, Some(Reply::Unreadable(_))));
        let short = answer(heap, &mut hand, &["hub", "2013-02", "1"]).expect(&rt, "an answer");
        assert!(rt; matches!(short, Some(Reply::Refused(_))));
        let other = answer(heap, &mut hand, &["share"]).expect(&rt, "an answer");
        assert!(rt; other.is_none());
    }
}
