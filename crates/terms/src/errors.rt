//! Why no rule was made.
ghost use Rattle.std.specs.Prelude.{◌≡◌};
ghost use Rattle.terms.specs.declared.errors.RuleError.{RuleError};

use kinds::Refusal;
use std::alloc::{AllocError, AllocFailed};

/// Why no rule was made: memory failed, or the call was refused.
// Apart from `lines::Fault`: an enum over its ground for both would make `RuleError::Refused(r)` and
// `Fault::Unreadable` into `Failure::Ground(..)` with a second type each, which is no plainer.
#[derive(Clone, Copy, PartialEq, Eq, Debug)]
pub enum RuleError {
    Memory,
    Refused(Refusal),
}

impl From<AllocError> for RuleError {
    ghost from_gives = { λ _ r. r ≡ RuleError.Memory };

    fn from(_error: AllocError) -> RuleError {
        RuleError::Memory
    }
}

impl<T: Drop> From<AllocFailed<T>> for RuleError {
    ghost from_gives = { λ _ r. r ≡ RuleError.Memory };

    fn from(_refused: AllocFailed<T>) -> RuleError {
        RuleError::Memory
    }
}

impl From<Refusal> for RuleError {
    ghost from_gives = { λ e r. r ≡ RuleError.Refused e };

    fn from(refusal: Refusal) -> RuleError {
        RuleError::Refused(refusal)
    }
}
