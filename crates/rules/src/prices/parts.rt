//! Making a set of prices, and reading it.
ghost use Rattle.std.specs.Prelude.{◌≡◌, MatchResult};
ghost use Rattle.rules.specs.Prices.{price_figures_of, Overpriced};

use crate::price::Price;
use crate::prices::Prices;
use kinds::Refusal;

/// Four prices in mills per MWh.
// Beside `Prices`: the prices as they come in, and as definitions speak of them, before they are tested.
#[derive(Clone, Copy, PartialEq, Eq, Debug)]
pub struct PriceFigures {
    pub p1: u32,
    pub buy: u32,
    pub sell: u32,
    pub p3: u32,
}

/// The set of these prices; refused where one is out of its range.
impl TryFrom<PriceFigures> for Prices {
    type Error = Refusal;

    ghost try_from_gives = { λ figures r. MatchResult r (λ p. price_figures_of p ≡ figures) (Overpriced figures) };

    #[tactic(auto, using(crate::specs::Prices::overpriced))]
    fn try_from(figures: PriceFigures) -> Result<Prices, Refusal> {
        let PriceFigures { p1, buy, sell, p3 } = figures;
        Ok(Prices {
            p1: Price::try_from(p1)?,
            buy: Price::try_from(buy)?,
            sell: Price::try_from(sell)?,
            p3: Price::try_from(p3)?,
        })
    }
}

/// The four prices.
impl From<Prices> for PriceFigures {
    ghost from_gives = { λ prices f. f ≡ price_figures_of prices };

    fn from(prices: Prices) -> PriceFigures {
        PriceFigures {
            p1: prices.p1.mills,
            buy: prices.buy.mills,
            sell: prices.sell.mills,
            p3: prices.p3.mills,
        }
    }
}
