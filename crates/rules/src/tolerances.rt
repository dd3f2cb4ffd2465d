//! The tolerances of a day.
ghost use Rattle.std.specs.Prelude.{◌≤◌};

/// The standard and the optional tolerance, in thousandths of a kWh, each at most 10,000,000,000.
#[derive(Clone, Copy, PartialEq, Eq, Debug)]
pub struct Tolerances {
    pub standard: u64,
    pub optional: u64,
    ghost usual: { standard ≤ 10000000000 },
    ghost extra: { optional ≤ 10000000000 },
}
