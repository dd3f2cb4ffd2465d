//! Shares out a part of a sum in whole numbers that add up.
#![tactic(auto)]

pub mod claims;
mod dealing;
mod fractions;
mod limits;
mod rows;
mod shares;

pub use claims::{CarriedClaim, Claim, EnergyClaim, MeteredClaim, PlainClaim, Stake};
pub use fractions::Fraction;
pub use limits::MOST_CLAIMS;
pub use shares::{share, share_amount};
