//! A command of the desk: the words that mean it, and what is said to it.
ghost use Rattle.std.specs.Prelude.{◌≡◌, ℕ, List, IfOk};
ghost use Rattle.lines.specs.Readers.{Reads};
ghost use Rattle.lines.specs.Words.{texts};
ghost use Rattle.commands.specs.Replies.{Said, said, Replied};

use kinds::Refusal;
use lines::Fault;
use std::alloc::{AllocError, Global};

/// What is said to a line.
#[derive(PartialEq, Eq, Debug, Drop)]
pub enum Reply {
    /// The text that answers it.
    Text(String),
    /// It is refused.
    Refused(Refusal),
    /// It cannot be read, or not now: what was expected.
    Unreadable(&'static str),
}

/// A command over a state of the kind `S`.
pub trait Command<S>: Sized {
    /// The words that mean each command.
    ghost means: { List (List ℕ) → Self → Type 0 };

    /// What a command makes of a state, and what is said to it.
    ghost does: { Self → S → S → Said → Type 0 };

    /// The command that the words mean.
    fn read(heap: Global, words: &[&str]) -> Result<Self, Fault>
        ensures { Reads (means (texts words.now)) result };

    /// Carries it out.
    fn answer(&self, heap: Global, state: &mut S) -> Result<Reply, AllocError>
        ensures { IfOk result (λ x. does self.now state.old state.new (said x)) };
}

/// What is said to the words of a command: the command that they mean is carried out, or the form of
/// its line is told.
pub fn carry_out<S, C: Command<S> + Drop>(
    heap: Global,
    state: &mut S,
    words: &[&str],
    form: &'static str,
) -> Result<Reply, AllocError>
    ensures { IfOk result (λ x. Replied C.means C.does form.now (texts words.now) state.old state.new (said x)) }
{
    match C::read(heap, words) {
        Ok(command) => command.answer(heap, state),
        Err(Fault::Memory) => Err(AllocError),
        Err(Fault::Unreadable) => Ok(Reply::Unreadable(form)),
    }
}
