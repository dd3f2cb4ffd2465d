//! What is said to a line by the choice that its first word makes.
ghost use Rattle.std.specs.Option.{option_map};
ghost use Rattle.std.specs.Prelude.{ℕ, List, IfOk};
ghost use Rattle.lines.specs.Words.{texts};
ghost use Rattle.commands.specs.Replies.{Said, said, Answered, Chosen};

use crate::keys::{Key, first_key};
use crate::replies::Reply;
use std::alloc::{AllocError, Global};

/// A choice of what is said to the words after it, over a state of the kind `S`.
pub trait Topic<S>: Key {
    /// What is said to the words after each choice, and the state then.
    ghost says: { Self → List (List ℕ) → S → S → Said → Type 0 };

    /// Answers the words after this choice.
    fn answer(self, heap: Global, state: &mut S, words: &[&str]) -> Result<Reply, AllocError>
        ensures { IfOk result (λ x. says self (texts words.now) state.old state.new (said x)) };
}

/// What is said to a line of these words; none where its first word makes no choice.
pub fn answer_by<K: Topic<S>, S>(
    heap: Global,
    state: &mut S,
    words: &[&str],
) -> Result<Option<Reply>, AllocError>
    ensures { IfOk result (λ o. Answered K.spelled K.says (texts words.now) state.old state.new (option_map said o)) }
{
    match first_key::<K>(words) {
        Some((choice, rest)) => Ok(Some(choice.answer(heap, state, rest)?)),
        None => Ok(None),
    }
}

/// What is said to a line of these words; where its first word makes no choice, the form that it lacks.
pub fn answer_chosen<K: Topic<S>, S>(
    heap: Global,
    state: &mut S,
    words: &[&str],
    form: &'static str,
) -> Result<Reply, AllocError>
    ensures { IfOk result (λ x. Chosen K.spelled K.says form.now (texts words.now) state.old state.new (said x)) }
{
    match answer_by::<K, S>(heap, state, words)? {
        Some(reply) => Ok(reply),
        None => Ok(Reply::Unreadable(form)),
    }
}
