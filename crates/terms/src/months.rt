//! The months that a rule can be made for.
ghost use Rattle.std.specs.Prelude.{◌≡◌, MatchBool, MatchResult};
ghost use Rattle.kinds.specs.declared.refusals.Refusal.TheVariants.{WrongMonth};
ghost use Rattle.terms.specs.Months.{Ruled, days_in};

use kinds::{Month, Refusal};

/// Whether the month is one from January 2000 to December 2099.
pub fn is_ruled(month: Month) -> bool
    ensures { MatchBool result (Ruled month) (Ruled month → ⊥) }
{
    (2000..=2099).contains(&month.year) && (1..=12).contains(&month.month)
}

/// How many days a month has; refused where the month is outside January 2000 to December 2099.
pub fn ruled_days(month: Month) -> Result<u8, Refusal>
    ensures { MatchResult result
        (λ n. Ruled month × (n ≡ days_in month))
        (λ e. (Ruled month → ⊥) × (e ≡ WrongMonth)) }
{
    if is_ruled(month) {
        Ok(month.days())
    } else {
        Err(Refusal::WrongMonth)
    }
}
