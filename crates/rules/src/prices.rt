//! A set of four prices.
use crate::price::Price;

/// The prices of a day: P1, P2 where the pool is long (buy) and where it is short (sell), and P3.
#[derive(Clone, Copy, PartialEq, Eq, Debug)]
pub struct Prices {
    pub p1: Price,
    pub buy: Price,
    pub sell: Price,
    pub p3: Price,
}

pub mod formulas;
pub mod parts;
