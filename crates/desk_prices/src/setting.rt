//! The lines that set the price rule in hand.
ghost use Rattle.std.specs.Prelude.{◌≡◌, []};
ghost use Rattle.desk_prices.specs.Setting.{NoneSet, FixedWords, FixedSet, Set2012, Set2008};

use crate::hand::PricesInHand;
use commands::{Command, Reply, Row};
use lines::{Fault, Field};
use rules::prices::Prices;
use rules::prices::parts::PriceFigures;
use rules::rules::{Either, Fixed};
use std::alloc::{AllocError, Global};
use terms::price_rules::{rule_2008, rule_2012};

/// `prices none`: a rule without prices.
// Three structs without fields, here and below: each sets another rule with another promise.
#[derive(PartialEq, Eq, Debug, Drop)]
pub struct NoneLine;

impl Command<PricesInHand> for NoneLine {
    ghost means = { λ ws _. ws ≡ [] };

    ghost does = { λ _. NoneSet };

    fn read(heap: Global, words: &[&str]) -> Result<NoneLine, Fault> {
        <()>::read(heap, words)?;
        Ok(NoneLine)
    }

    fn answer(&self, heap: Global, hand: &mut PricesInHand) -> Result<Reply, AllocError> {
        hand.rule = Either::This(Fixed { value: None });
        Ok(Reply::Text(format!(in heap; "ok")?))
    }
}

/// `prices fixed P1 BUY SELL P3`: the same prices on every date.
#[derive(PartialEq, Eq, Debug, Drop)]
pub struct FixedLine {
    pub figures: PriceFigures,
}

impl Command<PricesInHand> for FixedLine {
    ghost means = { FixedWords };

    ghost does = { FixedSet };

    fn read(heap: Global, words: &[&str]) -> Result<FixedLine, Fault> {
        let (p1, (buy, (sell, (p3, ())))) = <(u32, (u32, (u32, (u32, ()))))>::read(heap, words)?;
        Ok(FixedLine {
            figures: PriceFigures { p1, buy, sell, p3 },
        })
    }

    fn answer(&self, heap: Global, hand: &mut PricesInHand) -> Result<Reply, AllocError> {
        match Prices::try_from(self.figures) {
            Ok(prices) => {
                hand.rule = Either::This(Fixed {
                    value: Some(prices),
                });
                Ok(Reply::Text(format!(in heap; "ok")?))
            }
            Err(refusal) => Ok(Reply::Refused(refusal)),
        }
    }
}

/// `prices 2012`: the rule of 2012 over the month of the reference in hand.
#[derive(PartialEq, Eq, Debug, Drop)]
pub struct Line2012;

impl Command<PricesInHand> for Line2012 {
    ghost means = { λ ws _. ws ≡ [] };

    ghost does = { λ _. Set2012 };

    fn read(heap: Global, words: &[&str]) -> Result<Line2012, Fault> {
        <()>::read(heap, words)?;
        Ok(Line2012)
    }

    fn answer(&self, heap: Global, hand: &mut PricesInHand) -> Result<Reply, AllocError> {
        let (Some(reference), Some(supplement)) = (&hand.reference, &hand.supplement) else {
            return Ok(Reply::Unreadable("a reference and a supplement before prices 2012"));
        };
        hand.rule = Either::That(rule_2012(heap, reference, supplement)?);
        Ok(Reply::Text(format!(in heap; "ok")?))
    }
}

/// `prices 2008`: the rule of 2008 over the month of the reference in hand.
#[derive(PartialEq, Eq, Debug, Drop)]
pub struct Line2008;

impl Command<PricesInHand> for Line2008 {
    ghost means = { λ ws _. ws ≡ [] };

    ghost does = { λ _. Set2008 };

    fn read(heap: Global, words: &[&str]) -> Result<Line2008, Fault> {
        <()>::read(heap, words)?;
        Ok(Line2008)
    }

    fn answer(&self, heap: Global, hand: &mut PricesInHand) -> Result<Reply, AllocError> {
        let (Some(reference), Some(hub), Some(supplement)) = (
            &hand.reference,
            &hand.hub,
            &hand.supplement,
        ) else {
            return Ok(Reply::Unreadable("a reference, a hub and a supplement before prices 2008"));
        };
        hand.rule = Either::That(rule_2008(heap, reference, hub, supplement)?);
        Ok(Reply::Text(format!(in heap; "ok")?))
    }
}
