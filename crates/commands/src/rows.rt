//! Rows of words: which values the words write, one after the other.
ghost use Rattle.std.specs.Prelude.{◌≡◌, ℕ, List, []};
ghost use Rattle.lines.specs.Fields.{First, Each};
ghost use Rattle.lines.specs.Readers.{Reads};
ghost use Rattle.lines.specs.Words.{texts};

use lines::{Fault, Field, each, first};
use std::alloc::Global;

/// Values that a row of words writes, to its end.
// The heap goes with the words: each call that allocates takes its allocator.
pub trait Row: Sized {
    ghost says: { List (List ℕ) → Self → Type 0 };

    fn read(heap: Global, words: &[&str]) -> Result<Self, Fault>
        ensures { Reads (says (texts words.now)) result };
}

/// No words.
impl Row for () {
    ghost says = { λ ws _. ws ≡ [] };

    fn read(_heap: Global, words: &[&str]) -> Result<(), Fault> {
        if words.is_empty() {
            Ok(())
        } else {
            Err(Fault::Unreadable)
        }
    }
}

/// A value for each word.
impl<T: Field + Drop> Row for Vec<T> {
    ghost says = { λ ws v. Each T.Field.writes ws v.items };

    fn read(heap: Global, words: &[&str]) -> Result<Vec<T>, Fault> {
        each::<T>(heap, words)
    }
}

/// The value of the first word, and then a row.
impl<T: Field + Drop, R: Row> Row for (T, R) {
    ghost says = { λ ws x. First T.Field.writes x.0 (λ vs. R.Row.says vs x.1) ws };

    fn read(heap: Global, words: &[&str]) -> Result<(T, R), Fault> {
        let (value, words) = first::<T>(words)?;
        let rest = R::read(heap, words)?;
        Ok((value, rest))
    }
}
