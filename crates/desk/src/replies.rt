//! What the desk answers to a line.
ghost use Rattle.std.specs.Option.{option_map};
ghost use Rattle.std.specs.Prelude.{◌≡◌, IfOk, string_bytes};
ghost use Rattle.commands.specs.Replies.{said};
ghost use Rattle.desk_sharing.specs.Sharings.{OneKeyword};
ghost use Rattle.desk.specs.Replies.{unreadable, printed, Responds};
ghost use Rattle.desk.specs.Turns.{OneTopic};

use crate::hand::Hand;
use crate::turns::answer_in_turn;
use commands::{Reply, refused_text};
use lines::{split_words, uncommented};
use std::alloc::{AllocError, Global};

/// The text for a line that cannot be read: its number, and what was expected in plain words.
pub fn unread_text(heap: Global, number: u64, expected: &str) -> Result<String, AllocError>
    ensures { IfOk result (λ s. string_bytes s ≡ unreadable number expected.now) }
{
    format!(in heap; "UNREADABLE {number} expected {expected}")
}

/// The text of what is said to the line of this number.
fn reply_text(heap: Global, number: u64, reply: Option<Reply>) -> Result<String, AllocError>
    ensures { IfOk result (λ s. string_bytes s ≡ printed number (option_map said reply)) }
{
    match reply {
        Some(Reply::Text(text)) => Ok(text),
        Some(Reply::Refused(refusal)) => refused_text(heap, refusal),
        Some(Reply::Unreadable(form)) => unread_text(heap, number, form),
        None => unread_text(
            heap,
            number,
            "share, amount, base, tolerance, bands, reference, hub, supplement, prices or ask",
        ),
    }
}

/// The text that answers the line of this number, and the empty text where the line asks for nothing;
/// the hand holds what the line sets.
/// A word is one keyword at most: by a line that cannot be read no command at all is meant, or a price
/// rule that needs a series which was never given.
#[tactic(auto, using(crate::proofs::Topics::one_topic))]
pub fn answer_line(
    heap: Global,
    hand: &mut Hand,
    number: u64,
    line: &[u8],
) -> Result<String, AllocError>
    ensures said { IfOk result (λ s. Responds number line.now hand.old hand.new (string_bytes s)) }
    ensures one_keyword { OneKeyword }
    ensures one_topic { OneTopic }
{
    // A let-else: it leaves with an answer of its own, which no `?` gives.
    let Ok(text) = std::str::from_utf8(line) else {
        return unread_text(heap, number, "a line of text");
    };
    let command = uncommented(text);
    let words = split_words(heap, command)?;
    match words.as_slice() {
        [] => Ok(String::new(heap)),
        words => reply_text(heap, number, answer_in_turn(heap, hand, words)?),
    }
}

#[cfg(test)]
mod tests {
    use super::answer_line;
    use crate::hand::Hand;

    #[test]
    fn lines_are_answered_over_a_hand(rt: HostRuntime) {
        let heap = rt.alloc();
        let mut hand = Hand::new();
        let none = answer_line(heap, &mut hand, 1, b"ask bands 2024-02-29").expect(
            &rt,
            "an answer",
        );
        assert!(rt; none.as_str() == "no bands");
        let set = answer_line(heap, &mut hand, 2, b"bands fixed 4 3 2 5 6").expect(
            &rt,
            "an answer",
        );
        assert!(rt; set.as_str() == "ok");
        let other = answer_line(heap, &mut hand, 3, b"share 1 1 5").expect(&rt, "an answer");
        assert!(rt; other.as_str() == "total 5 shares 5");
        let some = answer_line(heap, &mut hand, 4, b"ask bands 2024-02-29").expect(
            &rt,
            "an answer",
        );
        assert!(rt; some.as_str() == "bands 4 3 2 5 6");
    }
}
