//! The base of a month, on which the tolerances are.
ghost use Rattle.std.specs.Prelude.{◌<◌, length, MatchResult};
ghost use Rattle.terms.specs.Base.{Largest, Based, Baseless};

use crate::months::ruled_days;
use crate::tolerance::MOST_BASE;
use kinds::{Month, Refusal};

/// The largest of some numbers.
fn largest(numbers: &[u32]) -> u32
    requires { 0 < length numbers.now }
    ensures { Largest numbers.now result }
{
    numbers.iter().copied().max().unwrap_or(0)
}

/// The base of a month in kWh a day: the capacity, the largest allocation and the monthly capacity. The
/// allocations are one for the eve of the month and one for each of its days. Refused where the month
/// is outside 2000 to 2099, then where there is another number of allocations, and then where the base
/// is out of its range.
pub fn base(month: Month, capacity: u32, monthly: u32, allocations: &[u32]) -> Result<u32, Refusal>
    ensures { MatchResult result
        (Based month capacity monthly allocations.now)
        (Baseless month capacity monthly allocations.now) }
{
    if allocations.len() != usize::from(ruled_days(month)?) + 1 {
        return Err(Refusal::WrongSeries);
    }
    let sum = u64::from(capacity) + u64::from(largest(allocations)) + u64::from(monthly);
    if sum > u64::from(MOST_BASE) {
        return Err(Refusal::TermOutOfRange);
    }
    Ok(sum as u32)
}
