//! What the desk has in hand from line to line.
ghost use Rattle.desk.specs.Hands.{NoBands};
ghost use Rattle.desk_prices.specs.Hand.{Start};

use desk_bands::setting::InHand;
use desk_prices::PricesInHand;
use rules::rules::{Either, Fixed};

/// The rules and the series that the lines set.
#[derive(PartialEq, Eq, Debug, Drop)]
pub struct Hand {
    pub bands: InHand,
    pub prices: PricesInHand,
}

impl Hand {
    /// The hand at the start: no bands and no prices on any date, and no series.
    pub fn new() -> Hand
        ensures bands { NoBands result }
        ensures prices { Start result.prices }
    {
        Hand {
            bands: Either::This(Fixed { value: None }),
            prices: PricesInHand::start(),
        }
    }
}
