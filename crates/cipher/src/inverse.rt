// Whether the inverses of a prepared set are the inverses of its layers. Matrices are public, so a branch on their bits is fine here.
ghost use Rattle.std.specs.Prelude.{◌≡◌, ◌*◌, ◌^◌, ◌<◌, ◌≤◌, length, ◌==◌, bit_xor};
ghost use Rattle.bits.specs.Gf2.{comb, dot, value};
ghost use Rattle.bits.specs.Matrices.{rows_in};
ghost use Rattle.cipher.specs.Instances.{first_wrong_of, inverses_in, same, set_in, times, units};

use crate::prepared::Prepared;
use crate::state::flip;
use bits::matrix::Matrix;
use bits::words::{add, bit, lowest_one};

// Adds `row` to `sum` where `pick` has bit `i`.
fn add_picked(sum: &mut [u64], row: &[u64], pick: &[u64], i: usize)
    requires { length sum.old ≡ length row.now }
    ensures { value sum.new ≡ bit_xor (value sum.old) (dot (2 ^ i) (value pick.now) * value row.now) }
{
    if bit(pick, i) == 1 {
        add(sum, row);
    }
}

// Makes `sum` the sum of those of the rows that `pick` picks.
fn combine(m: Matrix<'_>, pick: &[u64], sum: &mut [u64])
    requires { length sum.old ≡ m.width }
    ensures { value sum.new ≡ comb (rows_in m.entry) (value pick.now) }
{
    sum.fill(0);
    for (i, row) in m.rows().enumerate() {
        add_picked(sum, row, pick, i);
    }
}

// Whether `sum` has bit `j` and no other.
fn is_unit(sum: &mut [u64], j: usize) -> bool
    requires place { j < 64 * length sum.old }
    requires small { length sum.old ≤ 4 }
    ensures { result ≡ (value sum.old == 2 ^ j) }
{
    flip(sum, j, 1);
    lowest_one(sum).is_none()
}

// Whether row `j` of the product is the identity's, where `row` is row `j` of the inverse; `sum` is room for a row.
fn row_stands(layer: Matrix<'_>, row: &[u64], j: usize, sum: &mut [u64]) -> bool
    requires size { length sum.old ≡ layer.width }
    requires place { j < 64 * layer.width }
    requires small { layer.width ≤ 4 }
    ensures { result ≡ (comb (rows_in layer.entry) (value row.now) == 2 ^ j) }
{
    combine(layer, row, sum);
    is_unit(sum, j)
}

// What `undoes` does, with room for a row.
fn undoes_in(inverse: Matrix<'_>, layer: Matrix<'_>, sum: &mut [u64]) -> bool
    requires size { length sum.old ≡ layer.width }
    requires tall { inverse.height ≤ 64 * layer.width }
    requires small { layer.width ≤ 4 }
    ensures { result ≡ same (times (rows_in inverse.entry) (rows_in layer.entry)) (units 1 inverse.entry.height) }
{
    // A loop and not `all`: a closure would hold `sum` for writing.
    for (j, row) in inverse.rows().enumerate() {
        if !row_stands(layer, row, j, sum) {
            return false;
        }
    }
    true
}

// Whether a matrix times a layer is the identity. Rows are of at most 4 words, for which there is room here; a matrix itself may be wider.
fn undoes(inverse: Matrix<'_>, layer: Matrix<'_>) -> bool
    requires tall { inverse.height ≤ 64 * layer.width }
    requires small { layer.width ≤ 4 }
    ensures { result ≡ same (times (rows_in inverse.entry) (rows_in layer.entry)) (units 1 inverse.entry.height) }
{
    let mut sum = [0u64; 4];
    undoes_in(inverse, layer, &mut sum[..layer.width])
}

// The first round, from 1, whose inverse is not that of its layer.
pub(crate) fn first_wrong(set: Prepared<'_>) -> Option<usize>
    ensures { result ≡ first_wrong_of set.entry.params.n 1 (inverses_in set.entry.params set.entry.words.now) (set_in set.entry.params set.entry.words.now).layers }
{
    // A loop and not `find`, as the clause goes on from round to round; a `find` says only where it stops.
    for i in 0..set.params.r as usize {
        let round = set.round(i);
        if !undoes(round.inverse, round.layer) {
            return Some(i + 1);
        }
    }
    None
}
