//! The two calls of sharing.
ghost use Rattle.std.specs.Prelude.{◌≡◌, map, MatchResult};
ghost use Rattle.sharing.specs.Sharing.{OneWay};
ghost use Rattle.sharing.specs.Limits.{Breaks, ExactLimits};
ghost use Rattle.sharing.specs.Amounts.{Unsharable, ExactAmounts, Fairly, OneOver};
ghost use Rattle.sharing.specs.Claims.{Given, Allotted};

use crate::claims::Claim;
use crate::dealing::deal;
use crate::fractions::Fraction;
use crate::limits::MOST_CLAIMS;
use crate::rows::{Row, by_size, give, read, sign_by};
use kinds::Refusal;

/// Shares the fraction of the sum of the claims out to them, and answers the total: the nearest whole,
/// of two the upper one. Each share is rounded downward; the units that are then lacking go one each to
/// the largest remainders, of equal ones to the lower claim number. Refused, it changes no claim.
pub fn share<C: Claim>(claims: &mut [C], fraction: Fraction) -> Result<i64, Refusal>
    ensures shared { MatchResult result
        (λ t. Given C.told C.held C.taking fraction.p fraction.q claims.old claims.new t)
        (λ e. Breaks fraction.p fraction.q (map C.told claims.old) e × (claims.new ≡ claims.old)) }
    ensures exact { ExactLimits }
    ensures one_way { OneWay }
{
    // On the stack, at its largest: fixed memory and no heap. An `ArrayVec` would only keep beside it
    // the length that the claims have.
    let mut table = [Row::default(); MOST_CLAIMS];
    let (rows, sum) = read(claims, &mut table)?;
    fraction.check(sum)?;
    let total = deal(rows, fraction);
    give(claims, rows);
    Ok(total)
}

/// Shares the amount out over the claims by the sizes of what they tell; every share has the sign of
/// the amount. Over claims that are all nil only the amount nil is shared. Refused, it changes no claim.
pub fn share_amount<C: Claim>(claims: &mut [C], amount: i64) -> Result<(), Refusal>
    ensures shared { MatchResult result
        (λ _. Allotted C.told C.held C.taking amount claims.old claims.new)
        (λ e. Unsharable amount (map C.told claims.old) e × (claims.new ≡ claims.old)) }
    ensures exact { ExactAmounts }
    ensures fair { Fairly }
    ensures one_over { OneOver }
{
    // On the stack, as in `share`.
    let mut table = [Row::default(); MOST_CLAIMS];
    let (rows, sum) = read(claims, &mut table)?;
    if sum == 0 && amount != 0 {
        return Err(Refusal::NoWeight);
    }
    let part = Fraction::over(amount, sum);
    part.check(sum)?;
    by_size(rows);
    deal(rows, part);
    sign_by(rows, amount);
    give(claims, rows);
    Ok(())
}
