//! The limits of the claims of a sharing.

/// How many claims a sharing takes at most.
pub const MOST_CLAIMS: usize = 40;

/// The largest size of a claim.
pub const MOST_CLAIMED: u64 = 10_000_000_000;
