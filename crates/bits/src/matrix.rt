// Matrices: products with a vector, and whether rows are independent.
ghost use Rattle.std.specs.Prelude.{◌≡◌, ◌*◌, ◌^◌, ◌≤◌, true, map, length};
ghost use Rattle.bits.specs.Gf2.{Independent, mul, rows, value};
ghost use Rattle.bits.specs.Gauss.{clear};
ghost use Rattle.bits.specs.Matrices.{rows_in};

pub use crate::rows::{Matrix, Rows};
use crate::words::{add, bit, lowest_one, parity};

// The product of a matrix with the vector `v`.
pub fn product(m: Matrix<'_>, v: &[u64], out: &mut [u64])
    requires { m.height ≤ 64 * length out.old }
    ensures { value out.new ≡ mul (rows_in m.entry) (value v.now) }
{
    out.fill(0);
    for (i, row) in m.rows().enumerate() {
        out[i / 64] |= parity(row, v) << (i % 64);
    }
}

// Takes `row` out of `s` where `s` has bit `j`.
fn clear_row(row: &[u64], s: &mut [u64], j: usize)
    requires size { length s.old ≡ length row.now }
    ensures { value s.new ≡ clear (2 ^ j) (value row.now) (value s.old) }
{
    if bit(s, j) == 1 {
        add(s, row);
    }
}

// Takes `row` out of each of the `count` rows of `rest` that has bit `j`.
pub(crate) fn clear_rows(row: &[u64], rest: &mut [u64], count: usize, j: usize)
    requires size { length rest.old ≡ count * length row.now }
    ensures { rows (length row.now) count rest.new ≡ map (clear (2 ^ j) (value row.now)) (rows (length row.now) count rest.old) }
{
    // By an index: what a loop over `chunks_exact_mut` writes is lost to the proof, and it refuses rows of no words.
    let w = row.len();
    for i in 0..count {
        let start = i * w;
        clear_row(row, &mut rest[start..start + w], j);
    }
}

// What `independent` does, in a matrix that it may change. Each row is taken out of those below it at its lowest one: a row that is zero
// at its turn is a sum of rows above it.
fn independent_in(m: &mut [u64], count: usize, w: usize) -> bool
    requires size { length m.old ≡ count * w }
    requires small { 64 * w ≤ 2 ^ 64 }
    ensures sound { result ≡ true → Independent (rows w count m.old) }
    ensures complete { Independent (rows w count m.old) → result ≡ true }
{
    // The rows below are counted, since rows of no words do not say how many they are.
    let mut rest = m;
    for i in 0..count {
        let (row, below) = rest.split_at_mut(w);
        let Some(j) = lowest_one(row) else {
            return false;
        };
        clear_rows(row, below, count - 1 - i, j);
        rest = below;
    }
    true
}

// Whether the rows of a matrix are independent. It is read only: the work is done in a copy.
pub fn independent(m: Matrix<'_>) -> bool
    requires many { m.height ≤ 256 }
    requires wide { m.width ≤ 4 }
    ensures sound { result ≡ true → Independent (rows_in m.entry) }
    ensures complete { Independent (rows_in m.entry) → result ≡ true }
{
    let mut copy = [0u64; 1024];
    let used = m.height * m.width;
    copy[..used].copy_from_slice(&m.words[..used]);
    independent_in(&mut copy[..used], m.height, m.width)
}
