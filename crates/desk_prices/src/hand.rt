//! What the desk has in hand for prices.
ghost use Rattle.desk_prices.specs.Hand.{Start};

use rules::day_price::DayPrice;
use rules::monthly::Monthly;
use rules::prices::Prices;
use rules::rules::{Either, Fixed};

/// A price rule: fixed, or a month's.
pub type PriceRule = Either<Fixed<Prices>, Monthly<Prices>>;

/// A series in hand, or none yet.
pub type SeriesInHand = Option<Monthly<DayPrice>>;

/// The price rule that the desk has in hand, and the last series given of each kind.
#[derive(PartialEq, Eq, Debug, Drop)]
pub struct PricesInHand {
    pub rule: PriceRule,
    pub reference: SeriesInHand,
    pub hub: SeriesInHand,
    pub supplement: SeriesInHand,
}

impl PricesInHand {
    /// What is in hand at the start: no prices on any date, and no series.
    pub fn start() -> PricesInHand
        ensures { Start result }
    {
        PricesInHand {
            rule: Either::This(Fixed { value: None }),
            reference: None,
            hub: None,
            supplement: None,
        }
    }
}
