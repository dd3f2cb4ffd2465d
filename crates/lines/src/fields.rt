//! The values that words write.
ghost use Rattle.std.specs.Prelude.{◌≡◌, ℕ, List};
ghost use Rattle.lines.specs.Words.{texts};
ghost use Rattle.lines.specs.Fields.{Natural, NaturalBelow, Number, NumberWithin, Missing, Each};
ghost use Rattle.std.specs.Int.{w16};
ghost use Rattle.lines.specs.Readers.{Reads, Splits};
ghost use Rattle.lines.specs.declared.fields.Fault.TheVariants.{Memory, Unreadable};

use std::alloc::{AllocError, AllocFailed, Global};
use std::num::ParseIntError;

/// Why nothing was read: memory failed, or no word writes such a value.
// An enum of its own: one shared with the rules would make `Fault::Unreadable` a second type inside it.
#[derive(Clone, Copy, PartialEq, Eq, Debug)]
pub enum Fault {
    Memory,
    Unreadable,
}

impl From<AllocError> for Fault {
    ghost from_gives = { λ _ r. r ≡ Memory };

    fn from(_error: AllocError) -> Fault {
        Fault::Memory
    }
}

impl<T: Drop> From<AllocFailed<T>> for Fault {
    ghost from_gives = { λ _ r. r ≡ Memory };

    fn from(_refused: AllocFailed<T>) -> Fault {
        Fault::Memory
    }
}

impl From<ParseIntError> for Fault {
    ghost from_gives = { λ _ r. r ≡ Unreadable };

    fn from(_error: ParseIntError) -> Fault {
        Fault::Unreadable
    }
}

/// A kind of value that a word can write.
pub trait Field: Sized {
    ghost writes: { List ℕ → Self → Type 0 };

    fn read(word: &str) -> Result<Self, Fault>
        ensures { Reads (writes word.now) result };
}

// An impl for each number: one for all that `parse` reads would conflict with those of options and dates.
impl Field for u8 {
    ghost writes = { NaturalBelow 8 };

    fn read(word: &str) -> Result<u8, Fault> {
        Ok(word.parse::<u8>()?)
    }
}

impl Field for u32 {
    ghost writes = { NaturalBelow 32 };

    fn read(word: &str) -> Result<u32, Fault> {
        Ok(word.parse::<u32>()?)
    }
}

impl Field for u64 {
    ghost writes = { Natural };

    fn read(word: &str) -> Result<u64, Fault> {
        Ok(word.parse::<u64>()?)
    }
}

impl Field for i16 {
    ghost writes = { NumberWithin w16 };

    fn read(word: &str) -> Result<i16, Fault> {
        Ok(word.parse::<i16>()?)
    }
}

impl Field for i64 {
    ghost writes = { Number };

    fn read(word: &str) -> Result<i64, Fault> {
        Ok(word.parse::<i64>()?)
    }
}

/// A value, or a dash where there is none.
impl<T: Field> Field for Option<T> {
    ghost writes = { Missing T.Field.writes };

    fn read(word: &str) -> Result<Option<T>, Fault> {
        if word == "-" {
            return Ok(None);
        }
        Ok(Some(T::read(word)?))
    }
}

/// The value of the first word, and the words after it.
pub fn first<'a, 'b, T: Field>(words: &'a [&'b str]) -> Result<(T, &'a [&'b str]), Fault>
    ensures { Splits T.writes (texts words.now) result }
{
    // A let-else: `ok_or(..)?` was tried, and asks for a proof.
    let Some((word, rest)) = words.split_first() else {
        return Err(Fault::Unreadable);
    };
    let value = T::read(word)?;
    Ok((value, rest))
}

/// The value of each word.
pub fn each<T: Field + Drop>(heap: Global, words: &[&str]) -> Result<Vec<T>, Fault>
    ensures { Reads (λ v. Each T.writes (texts words.now) v.items) result }
{
    let mut out = Vec::new(heap);
    for word in words {
        out.push(T::read(word)?)?;
    }
    Ok(out)
}
