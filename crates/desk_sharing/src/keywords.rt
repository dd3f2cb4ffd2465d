//! The words that begin a line that shares, and what is said to such a line.
ghost use Rattle.std.specs.Option.{option_map};
ghost use Rattle.std.specs.Prelude.{◌≡◌, IfOk};
ghost use Rattle.lines.specs.Words.{texts};
ghost use Rattle.commands.specs.Replies.{said, Answered};
ghost use Rattle.desk_sharing.specs.Sharings.{spelled, OneKeyword, form_of, Of};

use crate::sharings::{AmountLine, ShareLine};
use commands::{Key, Reply, Topic, answer_by, carry_out};
use std::alloc::{AllocError, Global};

/// The first word of a line that shares.
#[derive(Clone, Copy, PartialEq, Eq, Debug)]
pub enum Keyword {
    Share,
    Amount,
}

impl Key for Keyword {
    ghost spelled = { spelled };

    fn of(word: &str) -> Option<Keyword> {
        match word {
            "share" => Some(Keyword::Share),
            "amount" => Some(Keyword::Amount),
            _ => None,
        }
    }
}

impl Keyword {
    /// The form of a line with this keyword.
    fn form(self) -> &'static str
        ensures { result.now ≡ form_of self }
    {
        match self {
            Keyword::Share => "share P Q V..",
            Keyword::Amount => "amount A W..",
        }
    }
}

impl Topic<()> for Keyword {
    ghost says = { Of };

    // A match says which command to run: each keyword has a line of a type of its own, which a table of `dyn` commands would lose.
    fn answer(self, heap: Global, state: &mut (), words: &[&str]) -> Result<Reply, AllocError> {
        let form = self.form();
        match self {
            Keyword::Share => carry_out::<(), ShareLine>(heap, state, words, form),
            Keyword::Amount => carry_out::<(), AmountLine>(heap, state, words, form),
        }
    }
}

/// What is said to a line of these words; none where its first word is no keyword of these.
pub fn answer(heap: Global, words: &[&str]) -> Result<Option<Reply>, AllocError>
    ensures said { IfOk result (λ o. Answered spelled Of (texts words.now) tt tt (option_map said o)) }
    ensures one_keyword { OneKeyword }
{
    answer_by::<Keyword, ()>(heap, &mut (), words)
}
