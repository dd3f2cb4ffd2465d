//! The words of a line.
ghost use Rattle.std.specs.Prelude.{◌≡◌, ◌++◌, IfOk, OnOk};
ghost use Rattle.lines.specs.Words.{before, kept, texts, words};

use std::alloc::{AllocError, AllocFailed, Global};

/// The text of a line before its comment.
pub fn uncommented(line: &str) -> &str
    ensures { result.now ≡ before 35 line.now }
{
    match line.split_once('#') {
        Some((text, _)) => text,
        None => line,
    }
}

/// Adds a word, unless it is empty.
fn keep<'a>(out: &mut Vec<&'a str>, word: &'a str) -> Result<(), AllocFailed<&'a str>>
    ensures { OnOk result (texts out.new.items ≡ texts out.old.items ++ kept word.now) }
{
    if word.is_empty() {
        Ok(())
    } else {
        out.push(word)
    }
}

/// The words of a text, which blanks part.
pub fn split_words<'a>(heap: Global, text: &'a str) -> Result<Vec<&'a str>, AllocError>
    ensures { IfOk result (λ v. texts v.items ≡ words text.now) }
{
    let mut out = Vec::new(heap);
    let mut rest = text;
    // A loop: `split` at a set of characters states nothing of its pieces that a proof could use.
    while let Some((word, after)) = rest.split_once([' ', '\t', '\r']) {
        keep(&mut out, word)?;
        rest = after;
    }
    keep(&mut out, rest)?;
    Ok(out)
}
