//! The topics of the desk, asked in turn.
ghost use Rattle.std.specs.Option.{option_map};
ghost use Rattle.std.specs.Prelude.{IfOk};
ghost use Rattle.lines.specs.Words.{texts};
ghost use Rattle.commands.specs.Replies.{said};
ghost use Rattle.desk.specs.Turns.{InTurn};

use crate::asking::Keyword;
use crate::hand::Hand;
use commands::{Reply, answer_by};
use std::alloc::{AllocError, Global};

/// What the first topic says whose keyword stands first; none where it is a keyword of no topic.
pub fn answer_in_turn(
    heap: Global,
    hand: &mut Hand,
    words: &[&str],
) -> Result<Option<Reply>, AllocError>
    ensures { IfOk result (λ o. InTurn (texts words.now) hand.old hand.new (option_map said o)) }
{
    if let Some(reply) = desk_sharing::answer(heap, words)? {
        return Ok(Some(reply));
    }
    if let Some(reply) = desk_bands::answer(heap, &mut hand.bands, words)? {
        return Ok(Some(reply));
    }
    if let Some(reply) = desk_prices::answer(heap, &mut hand.prices, words)? {
        return Ok(Some(reply));
    }
    answer_by::<Keyword, Hand>(heap, hand, words)
}
