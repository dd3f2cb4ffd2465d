//! A temperature, which stays within its range, and how cold a day is, as a share.
ghost use Rattle.std.specs.Prelude.{◌<◌, ◌≤◌, pos, negsuc, ◌≤ℤ◌, ◌<ℤ◌};
ghost use Rattle.rules.specs.Exact.{Coldness};

/// A temperature in tenths of a degree, within 60 degrees either way.
#[derive(Clone, Copy, PartialEq, Eq, PartialOrd, Ord, Debug)]
pub struct Temperature {
    pub tenths: i16,
    ghost cold: { negsuc 599 ≤ℤ tenths },
    ghost warm: { tenths ≤ℤ pos 600 },
}

/// The temperature share A: how far the forecast lies on the way from the threshold down to the limit,
/// kept within 0 to 1, as a part of a whole of 1 to 1,200, both in tenths of a degree.
// No `PartialEq`: 1/2 and 2/4 are one share, and a derive would tell them apart.
#[derive(Clone, Copy, Debug)]
pub struct TemperatureShare {
    pub part: u16,
    pub whole: u16,
    ghost within: { part ≤ whole },
    ghost some: { 0 < whole },
    ghost most: { whole ≤ 1200 },
}

impl TemperatureShare {
    /// The share of a forecast.
    pub fn new(
        forecast: Temperature,
        threshold: Temperature,
        limit: Temperature,
    ) -> TemperatureShare
        requires ends { limit.tenths <ℤ threshold.tenths }
        ensures { Coldness forecast.tenths threshold.tenths limit.tenths result.part result.whole }
    {
        let kept = forecast.tenths.clamp(limit.tenths, threshold.tenths);
        let part = threshold.tenths.abs_diff(kept);
        let whole = threshold.tenths.abs_diff(limit.tenths);
        TemperatureShare { part, whole }
    }
}
