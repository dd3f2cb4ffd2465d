//! A refusal as text.
ghost use Rattle.std.specs.Prelude.{◌≡◌, IfOk, string_bytes};
ghost use Rattle.commands.specs.Refusals.{refused};

use kinds::Refusal;
use std::alloc::{AllocError, Global};

/// The text of a refusal: its number, its day or place where it has one, and its reason.
pub fn refused_text(heap: Global, refusal: Refusal) -> Result<String, AllocError>
    ensures { IfOk result (λ s. string_bytes s ≡ refused refusal) }
{
    format!(in heap; "REFUSED {refusal}")
}
