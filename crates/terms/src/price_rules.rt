//! The price rules of 2012 and of 2008 over a month, from series of day prices.
ghost use Rattle.std.specs.Prelude.{◌≡◌, IfOk};
ghost use Rattle.terms.specs.PriceRules.{on_day, day_at, By2012, By2008, Filled, Over};

use kinds::Month;
use rules::day_price::DayPrice;
use rules::monthly::Monthly;
use rules::prices::Prices;
use std::alloc::{AllocError, Global};

/// The price that the series has for the day at this place of the month, the 1st at 0.
fn price_at(series: &Monthly<DayPrice>, month: Month, place: usize) -> Option<DayPrice>
    ensures { result ≡ on_day series.now (day_at month place) }
{
    // By place and not by date, since a series can have more days than a date can number.
    if series.month == month {
        series.days.get(place).copied().flatten()
    } else {
        None
    }
}

/// A rule over a month: what a formula answers at each place of its days, the 1st at 0.
fn over<F: Fn(usize) -> Option<Prices>>(
    heap: Global,
    month: Month,
    count: usize,
    formula: F,
) -> Result<Monthly<Prices>, AllocError>
    requires { F.IsAlwaysCallable formula }
    ensures { IfOk result (λ m. (m.month ≡ month) × Filled (F.post formula) count m.days.items) }
{
    let days = (0..count).map(&formula).collect(heap)?;
    Ok(Monthly { month, days })
}

/// The rule of 2012 over the month of the reference: prices on each date on which the reference and
/// the supplement have one, and none on any other.
pub fn rule_2012(
    heap: Global,
    reference: &Monthly<DayPrice>,
    supplement: &Monthly<DayPrice>,
) -> Result<Monthly<Prices>, AllocError>
    ensures { IfOk result (Over reference.now.month
        (λ d. By2012 (on_day reference.now d) (on_day supplement.now d))) }
{
    let month = reference.month;
    over(heap, month, reference.days.len(), |place| {
        let referred = price_at(reference, month, place)?;
        Some(Prices::of_2012(referred, price_at(supplement, month, place)?))
    })
}

/// The rule of 2008 over the month of the reference: prices on each date on which the reference, the
/// hub and the supplement have one, and none on any other.
pub fn rule_2008(
    heap: Global,
    reference: &Monthly<DayPrice>,
    hub: &Monthly<DayPrice>,
    supplement: &Monthly<DayPrice>,
) -> Result<Monthly<Prices>, AllocError>
    ensures { IfOk result (Over reference.now.month
        (λ d. By2008 (on_day reference.now d) (on_day hub.now d) (on_day supplement.now d))) }
{
    let month = reference.month;
    over(heap, month, reference.days.len(), |place| {
        let referred = price_at(reference, month, place)?;
        let traded = price_at(hub, month, place)?;
        let supplied = price_at(supplement, month, place)?;
        Some(Prices::of_2008(referred, traded, supplied))
    })
}

#[cfg(test)]
mod tests {
    use super::*;

    // A series of two days in January 2012, of which the second has no price.
    fn first_day(heap: Global, price: DayPrice) -> Result<Monthly<DayPrice>, AllocError> {
        let mut days = Vec::new(heap);
        days.push(Some(price))?;
        days.push(None)?;
        let month = Month {
            year: 2012,
            month: 1,
        };
        Ok(Monthly { month, days })
    }

    #[test]
    fn rules_are_made(rt: HostRuntime) {
        let heap = rt.alloc();
        let reference = first_day(heap, DayPrice { cents: 2_500 }).expect(&rt, "a series");
        let hub = first_day(heap, DayPrice { cents: 2_400 }).expect(&rt, "a series");
        let supplement = first_day(heap, DayPrice { cents: 2_700 }).expect(&rt, "a series");
        let new = rule_2012(heap, &reference, &supplement).expect(&rt, "a rule");
        assert_eq!(rt; new.days.len(), 2);
        assert!(rt; new.days[0].is_some() && new.days[1].is_none());
        let old = rule_2008(heap, &reference, &hub, &supplement).expect(&rt, "a rule");
        assert_eq!(rt; old.days.len(), 2);
        assert!(rt; old.days[0].is_some() && old.days[1].is_none());
    }
}
