//! The rule of a pool without capacity.
ghost use Rattle.std.specs.Prelude.{◌≡◌, MatchOption};
ghost use Rattle.rules.specs.Bands.{figures_of, zeros};

use crate::bands::Bands;
use crate::bands::parts::BandFigures;
use crate::rules::Fixed;

/// The rule that has five zeros on every date.
pub fn no_capacity() -> Fixed<Bands>
    ensures { MatchOption result.value ⊥ (λ b. figures_of b ≡ zeros) }
{
    Fixed {
        value: Bands::try_from(BandFigures::default()).ok(),
    }
}
