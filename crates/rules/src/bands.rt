//! A set of bands, which exists in one order alone.
ghost use Rattle.std.specs.Prelude.{◌≤◌};

/// The bands of a day, in kWh at 25°: what is allowed and what is cumulable below and above zero, and
/// the carry limit. Each is at most 100,000,000, and a cumulable figure is never above the allowed
/// figure of its side.
// No type of one figure for the bound: no call takes a single figure, as `Price::amount` takes a price,
// so that such a type would only wrap five fields.
#[derive(Clone, Copy, PartialEq, Eq, Debug)]
pub struct Bands {
    lower_allowed: u32,
    lower_cumulable: u32,
    upper_cumulable: u32,
    upper_allowed: u32,
    carry_limit: u32,
    ghost lower: { lower_cumulable ≤ lower_allowed },
    ghost upper: { upper_cumulable ≤ upper_allowed },
    ghost low: { lower_allowed ≤ 100000000 },
    ghost high: { upper_allowed ≤ 100000000 },
    ghost limit: { carry_limit ≤ 100000000 },
}

pub mod exact;
pub mod parts;
