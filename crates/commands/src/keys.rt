//! Words that decide what the words after them mean.
ghost use Rattle.std.specs.Prelude.{◌≡◌, ℕ, List, MatchOption, ◌≢◌};
ghost use Rattle.lines.specs.Words.{texts};
ghost use Rattle.commands.specs.Keys.{Keyed, Unkeyed};

/// A choice that a word makes.
// Not `FromStr` or `TryFrom`: those would need, beside an error type, a law that says which words make no choice.
// Each enum has an impl of its own, in which only its words differ: a derive or macro of this repository may write none.
pub trait Key: Sized {
    /// The word for each choice.
    ghost spelled: { Self → List ℕ };

    /// The choice that this word makes.
    fn of(word: &str) -> Option<Self>
        ensures { MatchOption result ((k : Self) → word.now ≢ spelled k) (λ k. word.now ≡ spelled k) };
}

/// The choice that the first word makes, and the words after it.
pub fn first_key<'a, 'b, K: Key>(words: &'a [&'b str]) -> Option<(K, &'a [&'b str])>
    ensures { MatchOption result
        (Unkeyed K.spelled (texts words.now))
        (λ x. Keyed K.spelled x.0 (texts x.1.now) (texts words.now)) }
{
    let (word, rest) = words.split_first()?;
    let choice = K::of(word)?;
    Some((choice, rest))
}
