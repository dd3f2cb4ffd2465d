//! A price of a day's series.
ghost use Rattle.std.specs.Prelude.{◌≡◌, ◌<◌, ◌≤◌, MatchResult};
ghost use Rattle.kinds.specs.declared.refusals.Refusal.TheVariants.{TermOutOfRange};

use kinds::Refusal;

/// A price of a day, in cents per MWh, at most 30,000.
#[derive(Clone, Copy, PartialEq, Eq, Debug)]
pub struct DayPrice {
    pub cents: u16,
    ghost ranged: { cents ≤ 30000 },
}

/// The largest price of a day, in cents.
pub const MOST_CENTS: u32 = 30_000;

impl TryFrom<u32> for DayPrice {
    type Error = Refusal;

    ghost try_from_gives = { λ cents r. MatchResult r
        (λ p. p.cents ≡ cents)
        (λ e. (30000 < cents) × (e ≡ TermOutOfRange)) };

    fn try_from(cents: u32) -> Result<DayPrice, Refusal> {
        if cents > MOST_CENTS {
            return Err(Refusal::TermOutOfRange);
        }
        Ok(DayPrice {
            cents: cents as u16,
        })
    }
}
