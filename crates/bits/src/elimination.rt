// Inverting a layer. The layer L and the identity stand side by side as rows [L | 1], so that one row operation serves both; where L has become
// the identity, its inverse stands beside it, and where a column has no pivot, that column says which vector L sends to zero.
ghost use Rattle.std.specs.Prelude.{◌≡◌, ℕ, ◌+◌, ◌*◌, ◌/◌, ◌^◌, ◌<◌, ◌≤◌, length, MatchOption, Some, bit_xor, codes};
ghost use Rattle.bits.specs.Gf2.{dot, mul, rows, value};
ghost use Rattle.bits.specs.Gauss.{Carried, Missing, Outcome, Solved, row_at};

use crate::matrix::{Matrix, clear_rows, product};
use crate::words::{add, bit, fitting};
use std::error::Error;
use std::fmt;

// The layer collapses: it has no inverse.
#[derive(Clone, Copy, PartialEq, Eq, Debug)]
pub struct Singular;

impl fmt::Display for Singular {
    ghost output = { λ _. Some (codes "the layer has no inverse") };

    fn fmt<W: fmt::Write>(&self, f: &mut fmt::Formatter<W>) -> fmt::Result {
        write!(f, "the layer has no inverse")
    }
}

impl Error for Singular {}

// Adds `on` times the vector `b` to `a`, for `on` 0 or 1: a digit and no bool, since the clause multiplies by it.
fn add_times(a: &mut [u64], b: &[u64], on: u64)
    requires size { length a.old ≡ length b.now }
    requires digit { on < 2 }
    ensures { value a.new ≡ bit_xor (value a.old) (on * value b.now) }
{
    if on == 1 {
        add(a, b);
    }
}

// Sets bit `k` of `v`, above all its others.
fn put_bit(v: &mut [u64], k: usize)
    requires place { k < 64 * length v.old }
    requires above { value v.old < 2 ^ k }
    ensures { value v.new ≡ value v.old + 2 ^ k }
{
    v[k / 64] |= 1 << (k % 64);
}

// Makes `v` the vector whose one bit is `k`.
fn unit(v: &mut [u64], k: usize)
    requires { k < 64 * length v.old }
    ensures { value v.new ≡ 2 ^ k }
{
    v.fill(0);
    put_bit(v, k);
}

// Writes a row of the layer and row `k` of the identity side by side.
fn augment_row(from: &[u64], k: usize, to: &mut [u64])
    requires size { length to.old ≡ 2 * length from.now }
    requires place { k < 64 * length from.now }
    ensures { value to.new ≡ value from.now + 2 ^ (64 * length from.now) * 2 ^ k }
{
    let w = from.len();
    to[..w].copy_from_slice(from);
    unit(&mut to[w..], k);
}

// Writes the rows of the layer with the identity beside them. That a layer is no taller than wide is asked here and by who calls it, and is no field of
// `Matrix`: a matrix of constants or keys may be taller.
fn augment(layer: Matrix<'_>, work: &mut [u64])
    requires room { length work.old ≡ layer.height * (2 * layer.width) }
    requires fits { layer.height ≤ 64 * layer.width }
    ensures { (k : ℕ) → k < layer.entry.height → row_at (2 * layer.entry.width) work.new k ≡ row_at layer.entry.width layer.entry.words.now k + 2 ^ (64 * layer.entry.width) * 2 ^ k }
{
    // Here and in `write_out` the rows that are written go by index: what is written through `chunks_exact_mut` is lost to the proof.
    for (i, row) in layer.rows().enumerate() {
        let width = 2 * row.len();
        let start = i * width;
        augment_row(row, i, &mut work[start..start + width]);
    }
}

// The first row from `c` on that has bit `c`.
fn find_row(work: Matrix<'_>, c: usize) -> Option<usize>
    ensures { MatchOption result (Missing work.entry.height c (row_at work.entry.width work.entry.words.now)) (λ k. (c ≤ k) × (k < work.entry.height) × (dot (2 ^ c) (row_at work.entry.width work.entry.words.now k) ≡ 1)) }
{
    (c..work.height).find(|k| bit(work.row(*k), c) == 1)
}

// `work` goes with the number of its rows, here and below, and not in a struct: it is lent for writing and, as a `Matrix`, for reading in turn, so that a
// struct would be made anew at each step.
//
// Makes column `c` the identity's, by row `r`, which has bit `c`; `row` is room for a row.
fn reduce(work: &mut [u64], n: usize, c: usize, r: usize, row: &mut [u64])
    requires size { length work.old ≡ n * length row.old }
    requires pivot { (c ≤ r) × (r < n) × (dot (2 ^ c) (row_at (length row.old) work.old r) ≡ 1) }
    requires solved { Solved n c (row_at (length row.old) work.old) }
    ensures solved { Solved n (c + 1) (row_at (length row.old) work.new) }
    ensures carried { Carried n (row_at (length row.old) work.old) (row_at (length row.old) work.new) }
{
    let width = row.len();
    let start = c * width;
    let other = r * width;
    row.copy_from_slice(&work[start..start + width]);
    let lacks = 1 - bit(row, c);
    add_times(row, &work[other..other + width], lacks);
    clear_rows(row, work, n, c);
    work[start..start + width].copy_from_slice(row);
}

// Makes the columns the identity's, one by one, up to the first that no row at or below its own place has; which that is.
fn eliminate(work: &mut [u64], n: usize, row: &mut [u64]) -> Option<usize>
    requires { length work.old ≡ n * length row.old }
    ensures stop { MatchOption result (Solved n n (row_at (length row.old) work.new)) (λ c. (c < n) × Solved n c (row_at (length row.old) work.new) × Missing n c (row_at (length row.old) work.new)) }
    ensures carried { Carried n (row_at (length row.old) work.old) (row_at (length row.old) work.new) }
{
    let width = row.len();
    for c in 0..n {
        let Some(r) = find_row(Matrix::new(work, width, n), c) else {
            return Some(c);
        };
        reduce(work, n, c, r, row);
    }
    None
}

// Copies out the second halves of the rows of `work`, of `w` words each.
fn write_out(work: Matrix<'_>, w: usize, out: &mut [u64])
    requires halves { work.width ≡ 2 * w }
    requires room { length out.old ≡ work.height * w }
    ensures { (k : ℕ) → k < work.entry.height → row_at w out.new k ≡ row_at (2 * w) work.entry.words.now k / 2 ^ (64 * w) }
{
    for (i, row) in work.rows().enumerate() {
        out[i * w..i * w + w].copy_from_slice(&row[w..]);
    }
}

// The vector that column `c` has in the rows above row `c`, and bit `c`.
fn column_above(work: &[u64], c: usize, row: &mut [u64], out: &mut [u64])
    requires fits { c * length row.old ≤ length work.now }
    requires place { c < 64 * length row.old }
    requires room { c < 64 * length out.old }
    ensures { value out.new ≡ mul (rows (length row.old) c work.now) (2 ^ c) + 2 ^ c }
{
    unit(row, c);
    product(Matrix::new(work, row.len(), c), row, out);
    put_bit(out, c);
}

// What `invert` does, with room for the layer twice and for a row twice.
fn invert_in(
    layer: Matrix<'_>,
    work: &mut [u64],
    row: &mut [u64],
    inverse: &mut [u64],
    witness: &mut [u64],
) -> Result<(), Singular>
    requires size { length layer.words.now ≡ layer.height * layer.width }
    requires wide { length witness.old ≡ layer.width }
    requires work { length work.old ≡ layer.height * (2 * layer.width) }
    requires row { length row.old ≡ 2 * layer.width }
    requires room { length inverse.old ≡ layer.height * layer.width }
    requires fits { layer.height ≤ 64 * layer.width }
    ensures { Outcome layer.entry.width layer.entry.height layer.entry.words.now inverse.old inverse.new witness.old witness.new result }
{
    augment(layer, work);
    match eliminate(work, layer.height, row) {
        None => {
            write_out(
                Matrix::new(work, row.len(), layer.height),
                layer.width,
                inverse,
            );
            fitting(inverse);
            Ok(())
        }
        Some(c) => {
            column_above(work, c, row, witness);
            Err(Singular)
        }
    }
}

// Writes the inverse of the layer to `inverse`, and leaves `witness`. Where the layer collapses, leaves `inverse`, and writes a
// vector other than zero that the layer sends to zero to `witness`, which has as many words as a row.
pub fn invert(layer: Matrix<'_>, inverse: &mut [u64], witness: &mut [u64]) -> Result<(), Singular>
    requires size { length layer.words.now ≡ layer.height * layer.width }
    requires witness { length witness.old ≡ layer.width }
    requires room { length inverse.old ≡ layer.height * layer.width }
    requires fits { layer.height ≤ 64 * layer.width }
    requires many { layer.height ≤ 256 }
    requires wide { layer.width ≤ 4 }
    ensures { Outcome layer.entry.width layer.entry.height layer.entry.words.now inverse.old inverse.new witness.old witness.new result }
{
    let mut work = [0u64; 2048];
    let mut row = [0u64; 8];
    let width = 2 * layer.width;
    invert_in(
        layer,
        &mut work[..layer.height * width],
        &mut row[..width],
        inverse,
        witness,
    )
}
