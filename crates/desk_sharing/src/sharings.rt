//! The lines that share a fraction or an amount.
ghost use Rattle.desk_sharing.specs.Sharings.{ShareWords, Shares, AmountWords, Amounts};

use crate::figures::{Shares, figures_of};
use commands::{Command, Reply, Row};
use kinds::Refusal;
use lines::Fault;
use sharing::{Fraction, MOST_CLAIMS, share, share_amount};
use std::alloc::{AllocError, Global};

/// `share P Q V..`: the fraction P / Q of each of the claims V.
#[derive(PartialEq, Eq, Debug, Drop)]
pub struct ShareLine {
    pub fraction: Fraction,
    pub claims: Vec<i64>,
}

impl Command<()> for ShareLine {
    ghost means = { ShareWords };

    ghost does = { λ x _ _ s. Shares x s };

    fn read(heap: Global, words: &[&str]) -> Result<ShareLine, Fault> {
        let (p, (q, claims)) = <(u64, (u64, Vec<i64>))>::read(heap, words)?;
        let fraction = Fraction { p, q };
        Ok(ShareLine { fraction, claims })
    }

    fn answer(&self, heap: Global, _state: &mut ()) -> Result<Reply, AllocError> {
        // Tested before as many claims are made as a line can name.
        if self.claims.len() > MOST_CLAIMS {
            return Ok(Reply::Refused(Refusal::TooManyClaims));
        }
        let mut figures = figures_of(heap, self.claims.as_slice())?;
        let claims = figures.as_mut_slice();
        match share(claims, self.fraction) {
            Ok(total) => {
                let shares = Shares(claims);
                Ok(Reply::Text(format!(in heap; "total {total} shares{shares}")?))
            }
            Err(refusal) => Ok(Reply::Refused(refusal)),
        }
    }
}

/// `amount A W..`: the amount A over the weights W.
// Apart from `ShareLine`: the two share an outline, and differ in fields, call and rule.
#[derive(PartialEq, Eq, Debug, Drop)]
pub struct AmountLine {
    pub amount: i64,
    pub weights: Vec<i64>,
}

impl Command<()> for AmountLine {
    ghost means = { AmountWords };

    ghost does = { λ x _ _ s. Amounts x s };

    fn read(heap: Global, words: &[&str]) -> Result<AmountLine, Fault> {
        let (amount, weights) = <(i64, Vec<i64>)>::read(heap, words)?;
        Ok(AmountLine { amount, weights })
    }

    fn answer(&self, heap: Global, _state: &mut ()) -> Result<Reply, AllocError> {
        // As in a line that shares a fraction.
        if self.weights.len() > MOST_CLAIMS {
            return Ok(Reply::Refused(Refusal::TooManyClaims));
        }
        let mut figures = figures_of(heap, self.weights.as_slice())?;
        let claims = figures.as_mut_slice();
        match share_amount(claims, self.amount) {
            Ok(()) => {
                let shares = Shares(claims);
                Ok(Reply::Text(format!(in heap; "shares{shares}")?))
            }
            Err(refusal) => Ok(Reply::Refused(refusal)),
        }
    }
}
