//! The four prices of a day from those of its series.
ghost use Rattle.std.specs.Prelude.{◌≡◌};
ghost use Rattle.rules.specs.Formulas.{from2012, from2008};
ghost use Rattle.rules.specs.Prices.{price_figures_of};

use crate::day_price::DayPrice;
use crate::price::Price;
use crate::prices::Prices;

impl Prices {
    /// The prices by the rule of 2012, from the reference and the supplement.
    pub fn of_2012(reference: DayPrice, supplement: DayPrice) -> Prices
        ensures { price_figures_of result ≡ from2012 reference.cents supplement.cents }
    {
        let r = u32::from(reference.cents);
        let s = u32::from(supplement.cents);
        Prices {
            p1: Price { mills: 10 * r },
            buy: Price { mills: 7 * r },
            sell: Price { mills: 13 * r },
            p3: Price { mills: 10 * s },
        }
    }

    /// The prices by the rule of 2008, from the reference, the hub and the supplement: those of 2012, but
    /// never below half of the hub's where the pool is long, nor above one and a half of it where short.
    // Three parameters, as in `rule_2008` of `terms`: a struct, generic in what it holds, would be made at each
    // call only to be taken apart.
    pub fn of_2008(reference: DayPrice, hub: DayPrice, supplement: DayPrice) -> Prices
        ensures { price_figures_of result ≡ from2008 reference.cents hub.cents supplement.cents }
    {
        let Prices { p1, buy, sell, p3 } = Prices::of_2012(reference, supplement);
        let h = u32::from(hub.cents);
        let buy = buy.mills.max(5 * h);
        let sell = sell.mills.min(15 * h);
        Prices {
            p1,
            buy: Price { mills: buy },
            sell: Price { mills: sell },
            p3,
        }
    }
}
