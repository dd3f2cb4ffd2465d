//! Making a set of bands, and reading it.
ghost use Rattle.std.specs.Prelude.{◌≡◌, MatchBool, MatchResult};
ghost use Rattle.rules.specs.Bands.{figures_of, Ranged, Misfit};

use crate::bands::Bands;
use kinds::Refusal;

/// Five figures, in the order of their names; by default five zeros.
// Beside `Bands`: the figures as they come in, and as definitions speak of them, before they are tested.
#[derive(Clone, Copy, PartialEq, Eq, Default, Debug)]
pub struct BandFigures {
    pub lower_allowed: u32,
    pub lower_cumulable: u32,
    pub upper_cumulable: u32,
    pub upper_allowed: u32,
    pub carry_limit: u32,
}

/// The largest figure of a set of bands.
pub const MOST: u32 = 100_000_000;

impl BandFigures {
    /// Whether each figure is within its range.
    // Five tests in a row: no call takes a single figure, so that a type of one figure with its own test would
    // only wrap five fields, and a chain over an array asks for a proof that its places are the five fields.
    fn are_ranged(self) -> bool
        ensures { MatchBool result (Ranged self) (Ranged self → ⊥) }
    {
        self.lower_allowed <= MOST
            && self.lower_cumulable <= MOST
            && self.upper_cumulable <= MOST
            && self.upper_allowed <= MOST
            && self.carry_limit <= MOST
    }
}

/// The set of these figures; refused where one is out of its range, and then where they are not in order.
impl TryFrom<BandFigures> for Bands {
    type Error = Refusal;

    ghost try_from_gives = { λ figures r. MatchResult r (λ b. figures_of b ≡ figures) (Misfit figures) };

    #[tactic(auto, using(crate::specs::Bands::ranged, crate::specs::Bands::ordered))]
    fn try_from(figures: BandFigures) -> Result<Bands, Refusal> {
        if !figures.are_ranged() {
            return Err(Refusal::TermOutOfRange);
        }
        let BandFigures {
            lower_allowed,
            lower_cumulable,
            upper_cumulable,
            upper_allowed,
            carry_limit,
        } = figures;
        if lower_cumulable > lower_allowed || upper_cumulable > upper_allowed {
            return Err(Refusal::BandOrder);
        }
        Ok(Bands {
            lower_allowed,
            lower_cumulable,
            upper_cumulable,
            upper_allowed,
            carry_limit,
        })
    }
}

/// The five figures.
impl From<Bands> for BandFigures {
    ghost from_gives = { λ bands f. f ≡ figures_of bands };

    fn from(bands: Bands) -> BandFigures {
        BandFigures {
            lower_allowed: bands.lower_allowed,
            lower_cumulable: bands.lower_cumulable,
            upper_cumulable: bands.upper_cumulable,
            upper_allowed: bands.upper_allowed,
            carry_limit: bands.carry_limit,
        }
    }
}
