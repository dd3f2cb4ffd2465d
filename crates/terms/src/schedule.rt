//! The schedule of a month's bands, from the month's terms and its forecasts.
ghost use Rattle.std.specs.Prelude.{◌≡◌, MatchBool, MatchResult};
ghost use Rattle.terms.specs.Errors.{RefusedOn};
ghost use Rattle.terms.specs.Schedule.{Plausible, PlausibleOrNone, AllPlausible, Sound, Fit, Unfit, DayOf, Scheduled};
ghost use Rattle.terms.specs.Tolerance.{thousandths};

use crate::errors::RuleError;
use crate::months::ruled_days;
use crate::tolerance::{MOST_BASE, Perimeter};
use kinds::{Month, Refusal};
use rules::bands::Bands;
use rules::monthly::Monthly;
use rules::temperature::{Temperature, TemperatureShare};
use rules::tolerances::Tolerances;
use std::alloc::Global;

/// The terms of a month's schedule.
#[derive(Clone, Copy, PartialEq, Eq, Debug)]
pub struct Terms {
    pub month: Month,
    pub perimeter: Perimeter,
    /// The base, in kWh a day.
    pub base: u32,
    /// The optional tolerance, in tenths of a percent of the base.
    pub optional: u8,
    /// The temperature, in tenths of a degree, from which up the temperature share is 0.
    pub threshold: i16,
    /// The temperature, in tenths of a degree, from which down the temperature share is 1.
    pub limit: i16,
    /// The talon, in percent.
    pub talon: u8,
}

/// Whether a temperature is within its range.
// A test and not a conversion: what comes in stays a number until the bands of a day are worked out.
fn is_plausible(temperature: i16) -> bool
    ensures { MatchBool result (Plausible temperature) (Plausible temperature → ⊥) }
{
    (-600..=600).contains(&temperature)
}

/// Whether each forecast, where there is one, is within its range.
fn are_plausible(forecasts: &[Option<i16>]) -> bool
    ensures { MatchBool result (AllPlausible forecasts.now) (AllPlausible forecasts.now → ⊥) }
{
    forecasts
        .iter()
        .all(|forecast| forecast.is_none_or(is_plausible))
}

impl Terms {
    /// Whether each term is within its range.
    fn are_sound(self) -> bool
        ensures { MatchBool result (Sound self) (Sound self → ⊥) }
    {
        self.base <= MOST_BASE
            && self.optional <= 30
            && is_plausible(self.threshold)
            && is_plausible(self.limit)
            && self.limit < self.threshold
            && self.talon <= 100
    }

    /// Whether a schedule can be made: the first ground against it.
    fn check(self, forecasts: &[Option<i16>]) -> Result<(), Refusal>
        ensures { MatchResult result (λ _. Fit self forecasts.now) (Unfit self forecasts.now) }
    {
        if forecasts.len() != usize::from(ruled_days(self.month)?) {
            return Err(Refusal::WrongSeries);
        }
        if !self.are_sound() || !are_plausible(forecasts) {
            return Err(Refusal::TermOutOfRange);
        }
        Ok(())
    }

    /// The bands of a day from its forecast, at the standard tolerance in thousandths of a kWh.
    fn bands_at(self, standard: u64, forecast: Option<i16>) -> Option<Bands>
        requires sound { Sound self }
        requires tolerance { standard ≡ thousandths self.perimeter self.base }
        requires plausible { PlausibleOrNone forecast }
        ensures { DayOf self forecast result }
    {
        let forecast = Temperature { tenths: forecast? };
        let threshold = Temperature {
            tenths: self.threshold,
        };
        let limit = Temperature { tenths: self.limit };
        let optional = u64::from(self.base) * u64::from(self.optional);
        let share = TemperatureShare::new(forecast, threshold, limit);
        Some(Bands::exact(Tolerances { standard, optional }, share, self.talon))
    }
}

/// The bands of a month, one set for each day that has a forecast. Refused where the month is outside
/// 2000 to 2099, then where there is another number of forecasts than the month has days, and then
/// where a term or a forecast is out of its range.
pub fn schedule(
    heap: Global,
    terms: Terms,
    forecasts: &[Option<i16>],
) -> Result<Monthly<Bands>, RuleError>
    ensures { MatchResult result
        (λ m. Scheduled terms forecasts.now m.month m.days.items)
        (RefusedOn (Unfit terms forecasts.now)) }
{
    terms.check(forecasts)?;
    let (standard, _) = terms.perimeter.tolerance(terms.base)?;
    let days = forecasts
        .iter()
        .map(|forecast| terms.bands_at(standard, *forecast))
        .collect(heap)?;
    Ok(Monthly {
        month: terms.month,
        days,
    })
}
