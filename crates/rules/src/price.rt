//! A price, which stays within its range.
ghost use Rattle.std.specs.Prelude.{◌≡◌, ◌<◌, ◌≤◌, MatchResult};
ghost use Rattle.kinds.specs.declared.refusals.Refusal.TheVariants.{TermOutOfRange};

use kinds::Refusal;

/// A price in mills per MWh, at most 400,000.
#[derive(Clone, Copy, PartialEq, Eq, PartialOrd, Ord, Debug)]
pub struct Price {
    pub mills: u32,
    ghost ranged: { mills ≤ 400000 },
}

/// The largest price.
pub const MOST: u32 = 400_000;

// Apart from that of `DayPrice`: mills and cents per MWh, two units that must not be taken for one another.
impl TryFrom<u32> for Price {
    type Error = Refusal;

    ghost try_from_gives = { λ mills r. MatchResult r
        (λ p. p.mills ≡ mills)
        (λ e. (400000 < mills) × (e ≡ TermOutOfRange)) };

    fn try_from(mills: u32) -> Result<Price, Refusal> {
        if mills > MOST {
            return Err(Refusal::TermOutOfRange);
        }
        Ok(Price { mills })
    }
}
