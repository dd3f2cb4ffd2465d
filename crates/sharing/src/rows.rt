//! The working table of a sharing: what the claims tell, and the shares as they are found.
ghost use Rattle.std.specs.Prelude.{◌≡◌, ℕ, map, length, pos, ◌≤ℤ◌, MatchResult};
ghost use Rattle.sharing.specs.Sharing.{at, sizes};
ghost use Rattle.sharing.specs.Limits.{Few, Small, Breaks};
ghost use Rattle.sharing.specs.Amounts.{size, signed};
ghost use Rattle.sharing.specs.Claims.{Takes};
ghost use Rattle.sharing.specs.Rows.{values, shares};

use crate::claims::Claim;
use crate::limits::{MOST_CLAIMED, MOST_CLAIMS};
use kinds::Refusal;

/// A claim's value, its share so far, and the remainder that its division left.
// No `PartialEq`: nothing compares rows.
#[derive(Clone, Copy, Default)]
pub struct Row {
    pub value: i64,
    pub share: i64,
    pub rest: u64,
}

/// Reads what the claims tell into the table, and answers a row for each and the sum of their sizes,
/// unless they are too many or one is beyond its limit.
pub fn read<'a, C: Claim>(
    claims: &[C],
    table: &'a mut [Row; MOST_CLAIMS],
) -> Result<(&'a mut [Row], u64), Refusal>
    ensures { let vs = map C.told claims.now in MatchResult result
        (λ r. Few vs × Small vs × (r.1 ≡ sizes vs) × (values r.0.now ≡ vs))
        (λ e. (p q : ℕ) → Breaks p q vs e) }
{
    if claims.len() > MOST_CLAIMS {
        return Err(Refusal::TooManyClaims);
    }
    let rows = &mut table[..claims.len()];
    let mut sum = 0;
    // By place and not a `zip` with `iter_mut`: then an invariant cannot name the rows.
    for (i, claim) in claims.iter().enumerate() {
        let value = claim.value();
        let size = value.unsigned_abs();
        if size > MOST_CLAIMED {
            return Err(Refusal::ClaimTooLarge);
        }
        sum += size;
        rows[i].value = value;
    }
    Ok((rows, sum))
}

/// Puts the size of each value in its place.
pub fn by_size(rows: &mut [Row])
    requires { Small (values rows.old) }
    ensures { values rows.new ≡ map size (values rows.old) }
{
    for row in rows.iter_mut() {
        row.value = row.value.abs();
    }
}

/// Gives each share, none of them below zero, the sign of the amount.
pub fn sign_by(rows: &mut [Row], amount: i64)
    requires { (k : ℕ) → pos 0 ≤ℤ at (shares rows.old) k }
    ensures { shares rows.new ≡ map (signed amount) (shares rows.old) }
{
    if amount < 0 {
        for row in rows.iter_mut() {
            row.share = -row.share;
        }
    }
}

/// Has each claim take its share.
pub fn give<C: Claim>(claims: &mut [C], rows: &[Row])
    requires { length rows.now ≡ length claims.old }
    ensures { Takes C.taking (at (shares rows.now)) claims.old claims.new }
{
    // By place and not a `zip` with the rows: then an invariant cannot name the claims.
    for (i, claim) in claims.iter_mut().enumerate() {
        claim.take(rows[i].share);
    }
}
