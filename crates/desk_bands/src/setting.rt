//! The lines that set the band rule in hand.
ghost use Rattle.std.specs.Prelude.{◌≡◌, []};
ghost use Rattle.desk_bands.specs.Setting.{NoneSet, ZeroSet, FixedWords, FixedSet, ScheduleWords, ScheduleSet};

use crate::bases::PerimeterName;
use commands::{Command, Reply, Row};
use kinds::Month;
use lines::{Fault, Field};
use rules::bands::Bands;
use rules::bands::parts::BandFigures;
use rules::capacity::no_capacity;
use rules::monthly::Monthly;
use rules::rules::{Either, Fixed};
use std::alloc::{AllocError, Global};
use terms::RuleError;
use terms::schedule::{Terms, schedule};

/// The band rule that the desk has in hand: fixed, or a month's.
pub type InHand = Either<Fixed<Bands>, Monthly<Bands>>;

/// `bands none`: a rule without bands.
// Apart from `ZeroLine`: both have no words, and each sets another rule with another promise.
#[derive(PartialEq, Eq, Debug, Drop)]
pub struct NoneLine;

impl Command<InHand> for NoneLine {
    ghost means = { λ ws _. ws ≡ [] };

    ghost does = { λ _ _ t y. NoneSet t y };

    fn read(heap: Global, words: &[&str]) -> Result<NoneLine, Fault> {
        <()>::read(heap, words)?;
        Ok(NoneLine)
    }

    fn answer(&self, heap: Global, hand: &mut InHand) -> Result<Reply, AllocError> {
        *hand = Either::This(Fixed { value: None });
        Ok(Reply::Text(format!(in heap; "ok")?))
    }
}

/// `bands zero`: the rule of a pool without capacity.
#[derive(PartialEq, Eq, Debug, Drop)]
pub struct ZeroLine;

impl Command<InHand> for ZeroLine {
    ghost means = { λ ws _. ws ≡ [] };

    ghost does = { λ _ _ t y. ZeroSet t y };

    fn read(heap: Global, words: &[&str]) -> Result<ZeroLine, Fault> {
        <()>::read(heap, words)?;
        Ok(ZeroLine)
    }

    fn answer(&self, heap: Global, hand: &mut InHand) -> Result<Reply, AllocError> {
        *hand = Either::This(no_capacity());
        Ok(Reply::Text(format!(in heap; "ok")?))
    }
}

/// `bands fixed LA LC UC UA LIMIT`: the same bands on every date.
#[derive(PartialEq, Eq, Debug, Drop)]
pub struct FixedLine {
    pub figures: BandFigures,
}

impl Command<InHand> for FixedLine {
    ghost means = { FixedWords };

    ghost does = { FixedSet };

    fn read(heap: Global, words: &[&str]) -> Result<FixedLine, Fault> {
        let (
            lower_allowed,
            (lower_cumulable, (upper_cumulable, (upper_allowed, (carry_limit, ())))),
        ) = <(u32, (u32, (u32, (u32, (u32, ())))))>::read(heap, words)?;
        Ok(FixedLine {
            figures: BandFigures {
                lower_allowed,
                lower_cumulable,
                upper_cumulable,
                upper_allowed,
                carry_limit,
            },
        })
    }

    fn answer(&self, heap: Global, hand: &mut InHand) -> Result<Reply, AllocError> {
        match Bands::try_from(self.figures) {
            Ok(bands) => {
                *hand = Either::This(Fixed { value: Some(bands) });
                Ok(Reply::Text(format!(in heap; "ok")?))
            }
            Err(refusal) => Ok(Reply::Refused(refusal)),
        }
    }
}

/// `bands schedule YYYY-MM PERIMETER BASE TOE THRESHOLD LIMIT TALON FORECAST..`: a month's schedule.
#[derive(PartialEq, Eq, Debug, Drop)]
pub struct ScheduleLine {
    pub terms: Terms,
    pub forecasts: Vec<Option<i16>>,
}

/// The words that write the terms of a schedule, and then those of its forecasts.
type ScheduleRow = (
    Month,
    (
        PerimeterName,
        (u32, (u8, (i16, (i16, (u8, Vec<Option<i16>>))))),
    ),
);

impl Command<InHand> for ScheduleLine {
    ghost means = { ScheduleWords };

    ghost does = { ScheduleSet };

    fn read(heap: Global, words: &[&str]) -> Result<ScheduleLine, Fault> {
        let (month, (perimeter, (base, (optional, (threshold, (limit, (talon, forecasts))))))) =
            ScheduleRow::read(heap, words)?;
        Ok(ScheduleLine {
            terms: Terms {
                month,
                perimeter: perimeter.0,
                base,
                optional,
                threshold,
                limit,
                talon,
            },
            forecasts,
        })
    }

    fn answer(&self, heap: Global, hand: &mut InHand) -> Result<Reply, AllocError> {
        match schedule(heap, self.terms, self.forecasts.as_slice()) {
            Ok(rule) => {
                *hand = Either::That(rule);
                Ok(Reply::Text(format!(in heap; "ok")?))
            }
            Err(RuleError::Memory) => Err(AllocError),
            Err(RuleError::Refused(refusal)) => Ok(Reply::Refused(refusal)),
        }
    }
}
