//! The numbers of a line as claims on a sharing.
ghost use Rattle.std.specs.Prelude.{◌≡◌, map, IfOk, Some};
ghost use Rattle.desk_sharing.specs.Figures.{told_by, held_by, listed};

use sharing::PlainClaim;
use std::alloc::{AllocError, Global};
use std::fmt;

/// The numbers as claims that hold nothing yet.
pub fn figures_of(heap: Global, values: &[i64]) -> Result<Vec<PlainClaim>, AllocError>
    ensures { IfOk result (λ v. map told_by v.items ≡ values.now) }
{
    values
        .iter()
        .map(|value| PlainClaim {
            value: *value,
            share: 0,
        })
        .collect(heap)
}

/// The shares that claims hold, each after a blank.
// A borrow made to be printed: nothing compares it.
#[derive(Clone, Copy)]
pub struct Shares<'a>(pub &'a [PlainClaim]);

impl<'a> fmt::Display for Shares<'a> {
    ghost output = { λ x. Some (listed (map held_by x.0.now)) };

    #[tactic(auto, using(crate::proofs::Listing::put_share))]
    fn fmt<W: fmt::Write>(&self, f: &mut fmt::Formatter<W>) -> fmt::Result {
        for claim in self.0 {
            write!(f, " {}", claim.share)?;
        }
        Ok(())
    }
}
