//! The line that gives a series of day prices.
ghost use Rattle.desk_prices.specs.Series.{SeriesWords, SeriesSet};

use crate::hand::SeriesInHand;
use commands::{Command, Reply, Row};
use kinds::Month;
use lines::{Fault, Field};
use std::alloc::{AllocError, Global};
use terms::RuleError;
use terms::series::series;

/// The words after `reference`, `hub` or `supplement`: a month, and a value or a dash for each of its
/// days. The state of the line is the one series that it changes.
#[derive(PartialEq, Eq, Debug, Drop)]
pub struct SeriesLine {
    pub month: Month,
    pub values: Vec<Option<u32>>,
}

impl Command<SeriesInHand> for SeriesLine {
    ghost means = { SeriesWords };

    ghost does = { SeriesSet };

    fn read(heap: Global, words: &[&str]) -> Result<SeriesLine, Fault> {
        let (month, values) = <(Month, Vec<Option<u32>>)>::read(heap, words)?;
        Ok(SeriesLine { month, values })
    }

    fn answer(&self, heap: Global, hand: &mut SeriesInHand) -> Result<Reply, AllocError> {
        match series(heap, self.month, self.values.as_slice()) {
            Ok(given) => {
                *hand = Some(given);
                Ok(Reply::Text(format!(in heap; "ok")?))
            }
            Err(RuleError::Memory) => Err(AllocError),
            Err(RuleError::Refused(refusal)) => Ok(Reply::Refused(refusal)),
        }
    }
}
