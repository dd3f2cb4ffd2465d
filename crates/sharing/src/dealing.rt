//! Divides the values of a table into whole shares that add up.
ghost use Rattle.std.specs.Prelude.{◌≡◌, ℕ, ◌<◌, ◌≤◌, length, unsigned_abs};
ghost use Rattle.sharing.specs.Sharing.{at, Shared};
ghost use Rattle.sharing.specs.Limits.{Limits};
ghost use Rattle.sharing.specs.Rows.{values, shares, rest_at};
ghost use Rattle.sharing.specs.Steps.{sum_to, total, floors, rests, rank_of, due_of};

use crate::fractions::Fraction;
use crate::rows::Row;

// That the values stay, and that the limits hold, stands in each contract: both tie a table that is lent
// to a fraction, so no type of its own could hold them while the table is written.

/// Starts each share rounded downward, with its remainder beside it, and answers the sums of both.
fn divide(rows: &mut [Row], fraction: Fraction) -> (i64, u64)
    requires { Limits fraction.p fraction.q (values rows.old) }
    ensures values { values rows.new ≡ values rows.old }
    ensures shares { (k : ℕ) → k < length rows.old → at (shares rows.new) k ≡ floors fraction.p fraction.q (values rows.old) k }
    ensures rests { (k : ℕ) → k < length rows.old → rest_at rows.new k ≡ rests fraction.p fraction.q (values rows.old) k }
    ensures floor_sum { result.0 ≡ sum_to (length rows.old) (floors fraction.p fraction.q (values rows.old)) }
    ensures rest_sum { result.1 ≡ total (length rows.old) (rests fraction.p fraction.q (values rows.old)) }
    ensures small { (unsigned_abs result.0 ≤ 9000000000000000000) × (result.1 ≤ 40000000000000) }
{
    let mut floor_sum = 0;
    let mut rest_sum = 0;
    for row in rows.iter_mut() {
        let (floor, rest) = fraction.part_of(row.value);
        row.share = floor;
        row.rest = rest;
        floor_sum += floor;
        rest_sum += rest;
    }
    (floor_sum, rest_sum)
}

/// How many places come before the place `i`: those of a larger remainder, and of the same the lower ones.
fn rank(rows: &[Row], i: usize) -> usize
    requires { i < length rows.now }
    ensures { result ≡ rank_of (length rows.now) (rest_at rows.now) i }
{
    let own = rows[i].rest;
    // A sum of ones and noughts, and equal remainders tested first: which remainder is the larger no
    // processor can guess, so no branch goes by it, as one of a filter or an `||` would.
    rows.iter()
        .enumerate()
        .map(|(j, row)| usize::from(if row.rest == own {
            j < i
        } else {
            row.rest > own
        }))
        .sum()
}

/// Hands out the units that are lacking, one each, to the places with the largest remainders.
fn hand_out(rows: &mut [Row], lacking: u64)
    requires { (k : ℕ) → k < length rows.old → unsigned_abs (at (shares rows.old) k) ≤ 9000000000000000000 }
    ensures values { values rows.new ≡ values rows.old }
    ensures shares { (k : ℕ) → k < length rows.old → at (shares rows.new) k ≡ due_of (length rows.old) (at (shares rows.old)) (rest_at rows.old) lacking k }
{
    // By index and not `iter_mut`: each rank reads the whole table between two writes.
    for i in 0..rows.len() {
        let unit = (rank(rows, i) as u64) < lacking;
        rows[i].share += i64::from(unit);
    }
}

/// Shares the fraction of the sum of the values out to them, and answers the total.
pub fn deal(rows: &mut [Row], fraction: Fraction) -> i64
    requires { Limits fraction.p fraction.q (values rows.old) }
    ensures values { values rows.new ≡ values rows.old }
    ensures shared { Shared fraction.p fraction.q (values rows.old) (shares rows.new) result }
{
    let (floor_sum, rest_sum) = divide(rows, fraction);
    let lacking = (2 * rest_sum + fraction.q) / (2 * fraction.q);
    if lacking > 0 {
        hand_out(rows, lacking);
    }
    floor_sum + lacking as i64
}
