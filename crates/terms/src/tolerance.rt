//! The standard tolerance on a base, by brackets.
ghost use Rattle.std.specs.Prelude.{◌≡◌, ◌-◌, ◌<◌, ◌≤◌, min, MatchResult};
ghost use Rattle.kinds.specs.declared.refusals.Refusal.TheVariants.{TermOutOfRange};
ghost use Rattle.terms.specs.Tolerance.{rates_of, thousandths, Ends};

use kinds::Refusal;

/// A balancing perimeter.
#[derive(Clone, Copy, Debug, PartialEq, Eq)]
pub enum Perimeter {
    NorthB,
    NorthH,
    South,
}

/// The largest base, in kWh a day.
// Tested where a base comes in, and no type of its own: the public calls take any number.
pub const MOST_BASE: u32 = 100_000_000;

/// The brackets, from a lower to an upper edge in kWh a day.
const BRACKETS: [(u32, u32); 5] = [
    (0, 500_000),
    (500_000, 1_000_000),
    (1_000_000, 2_000_000),
    (2_000_000, 50_000_000),
    (50_000_000, MOST_BASE),
];

/// The part of the base between two edges.
fn inside(base: u32, low: u32, high: u32) -> u64
    ensures { result ≡ min base high - low }
{
    u64::from(base.min(high).saturating_sub(low))
}

/// The number of the bracket in which the base ends: one more than the edges between brackets that it
/// is above.
fn bracket(base: u32) -> u8
    ensures { Ends base result }
{
    let above: u8 = BRACKETS[1..]
        .iter()
        .map(|(low, _)| u8::from(*low < base))
        .sum();
    1 + above
}

impl Perimeter {
    /// The rate of each bracket, in thousandths.
    // Apart from the brackets: the rates differ by perimeter, and the brackets do not.
    fn rates(self) -> [u16; 5]
        ensures { result ≡ rates_of self }
    {
        match self {
            Perimeter::NorthB => [300, 200, 50, 50, 50],
            Perimeter::NorthH => [300, 200, 200, 50, 45],
            Perimeter::South => [300, 200, 200, 55, 50],
        }
    }

    /// The standard tolerance in thousandths of a kWh, and the number of the bracket in which the base
    /// ends; refused where the base is out of its range.
    // A pair: the form that was asked for (docs/DECISIONS.md).
    pub fn tolerance(self, base: u32) -> Result<(u64, u8), Refusal>
        ensures { MatchResult result
            (λ t. (base ≤ 100000000) × (t.0 ≡ thousandths self base) × Ends base t.1)
            (λ e. (100000000 < base) × (e ≡ TermOutOfRange)) }
    {
        if base > MOST_BASE {
            return Err(Refusal::TermOutOfRange);
        }
        let rates = self.rates();
        let sum = BRACKETS
            .iter()
            .zip(&rates)
            .map(|((low, high), rate)| u64::from(*rate) * inside(base, *low, *high))
            .sum();
        Ok((sum, bracket(base)))
    }
}
