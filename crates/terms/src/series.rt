//! A series of day prices: a price or none for each day of a month.
ghost use Rattle.std.specs.Prelude.{◌≡◌, ◌<◌, map, MatchResult};
ghost use Rattle.kinds.specs.declared.refusals.Refusal.TheVariants.{TermOutOfRange};
ghost use Rattle.terms.specs.Errors.{RefusedOn};
ghost use Rattle.terms.specs.Series.{value_of, SomeAbove, Series, NoSeries};

use crate::errors::RuleError;
use crate::months::ruled_days;
use kinds::{Month, Refusal};
use rules::day_price::DayPrice;
use rules::monthly::Monthly;
use std::alloc::Global;

/// The prices of these values; refused where one is above the largest.
fn prices_of(heap: Global, values: &[Option<u32>]) -> Result<Vec<Option<DayPrice>>, RuleError>
    ensures { MatchResult result
        (λ v. map value_of v.items ≡ values.now)
        (RefusedOn (λ e. SomeAbove values.now × (e ≡ TermOutOfRange))) }
{
    // A chain that ends in `try_collect` was tried: its proof did not close at the value that is refused.
    let mut days = Vec::new(heap);
    for value in values {
        days.push(value.map(DayPrice::try_from).transpose()?)?;
    }
    Ok(days)
}

/// The series of these values, in cents, from the 1st of the month on. Refused where the month is
/// outside January 2000 to December 2099, then where there is another number of values than the
/// month has days, then where a value is above 30,000.
pub fn series(
    heap: Global,
    month: Month,
    values: &[Option<u32>],
) -> Result<Monthly<DayPrice>, RuleError>
    ensures { MatchResult result (Series month values.now) (RefusedOn (NoSeries month values.now)) }
{
    if values.len() != usize::from(ruled_days(month)?) {
        return Err(RuleError::Refused(Refusal::WrongSeries));
    }
    let days = prices_of(heap, values)?;
    Ok(Monthly { month, days })
}
