// Linear work on wires: products with matrices that stand in words, and sums. Only entering, reading and adding wires is asked of an engine here.
// Matrices and constants are public, so their bits may be branched on; what a wire carries never is.
ghost use Rattle.std.specs.Prelude.{◌≡◌, ℕ, ◌+◌, ◌-◌, ◌*◌, ◌/◌, ◌%◌, ◌^◌, ◌<◌, ◌≤◌, map, length, replicate, bit_xor, slice_index};
ghost use Rattle.bits.specs.Gf2.{comb, dot, mul, value};
ghost use Rattle.bits.specs.Matrices.{rows_in};
ghost use Rattle.cipher.specs.Instances.{times};
ghost use Rattle.bits.specs.Gauss.{row_at};
ghost use Rattle.batches.specs.Lanes.{lane, table};

use bits::matrix::Matrix;
use bits::words::bit;
use engines::engine::Engine;

// How many wires are picked among at a time: as many as there is room for the sums of all ways to pick, of 1, 2 or 4.
fn group_size(room: usize) -> usize
    requires { 2 ≤ room }
    ensures { (2 ^ result ≤ room) × (1 ≤ result) × (result ≤ 4) × (result * (64 / result) ≡ 64) }
{
    match room {
        16.. => 4,
        4.. => 2,
        _ => 1,
    }
}

// The place of the highest one of `t`, which is from 1 to 15. Not by `ilog2`: with it the loop over the ways is not unrolled, and takes half as long again.
fn highest(t: usize) -> usize
    requires { (1 ≤ t) × (t < 16) }
    ensures { (result < 4) × (2 ^ result ≤ t) × (t < 2 ^ (result + 1)) }
{
    match t {
        8.. => 3,
        4.. => 2,
        2.. => 1,
        _ => 0,
    }
}

// The wire at `i`, or one that carries 0 past the end.
fn wire_at<E: Engine>(e: &E, from: &[E::Wire], i: usize) -> E::Wire
    ensures { E.means result ≡ slice_index (map E.means from.now) i }
{
    from.get(i).copied().unwrap_or_else(|| e.enter(0, 0))
}

// The sums of the first `b` wires of `from`, for each way to pick among them: entry t has the wires whose bit in t is 1.
fn sum_ways<E: Engine>(e: &E, from: &[E::Wire], b: usize, sums: &mut [E::Wire])
    requires room { 2 ^ b ≤ length sums.old }
    requires few { b ≤ 4 }
    ensures { (t : ℕ) → t < 2 ^ b → slice_index (map E.means sums.new) t ≡ comb (map E.means from.now) t }
{
    sums[0] = e.enter(0, 0);
    // `t` is a set of wires, and not the place of one.
    for t in 1..1usize << b {
        let top = highest(t);
        sums[t] = e.add(sums[t - (1 << top)], wire_at(e, from, top));
    }
}

// Adds to each wire of `to` the sum that group `g` of `b` bits of its row picks.
fn add_group<E: Engine>(
    e: &E,
    m: Matrix<'_>,
    b: usize,
    g: usize,
    sums: &[E::Wire],
    to: &mut [E::Wire],
)
    requires tall { length to.old ≤ m.height }
    requires room { 2 ^ b ≤ length sums.now }
    requires whole { (1 ≤ b) × (b ≤ 4) × (b * (64 / b) ≡ 64) }
    requires place { b * g < 64 * m.width }
    ensures { map E.means to.new ≡ table (length to.old) (λ i. bit_xor (slice_index (map E.means to.old) i) (slice_index (map E.means sums.now) (row_at m.entry.width m.entry.words.now i / 2 ^ (b * g) % 2 ^ b))) }
{
    let in_word = 64 / b;
    let word = g / in_word;
    let shift = b * (g % in_word);
    let ways: u64 = 1 << b;
    // No `zip` with the rows: what is written through an adapter of `iter_mut` other than `enumerate` is lost to the proof.
    for (i, wire) in to.iter_mut().enumerate() {
        let pick = (m.row(i)[word] >> shift) % ways;
        *wire = e.add(*wire, sums[pick as usize]);
    }
}

// The product of a matrix with the wires `from`. Wires are added a few at a time: the sums of all ways to pick among them are computed once, into
// `sums`, and then each row picks one.
pub(crate) fn product<E: Engine>(
    e: &E,
    m: Matrix<'_>,
    from: &[E::Wire],
    to: &mut [E::Wire],
    sums: &mut [E::Wire],
)
    requires tall { length to.old ≡ m.height }
    requires wide { length from.now ≤ 64 * m.width }
    requires room { 2 ≤ length sums.old }
    ensures { map E.means to.new ≡ times (rows_in m.entry) (map E.means from.now) }
{
    clear(e, to);
    let b = group_size(sums.len());
    for (g, wires) in from.chunks(b).enumerate() {
        sum_ways(e, wires, b, sums);
        add_group(e, m, b, g, sums, to);
    }
}

// Adds the wires `from` to the wires `to`.
pub(crate) fn add_wires<E: Engine>(e: &E, to: &mut [E::Wire], from: &[E::Wire])
    requires { length to.old ≡ length from.now }
    ensures { (v : ℕ) → mul (map E.means to.new) v ≡ bit_xor (mul (map E.means to.old) v) (mul (map E.means from.now) v) }
{
    // No `zip`, through which what is written is lost to the proof.
    for (i, wire) in to.iter_mut().enumerate() {
        *wire = e.add(*wire, from[i]);
    }
}

// All ones where bit `i` of the constant is 1, else 0.
fn spread(constant: &[u64], i: usize) -> u64
    ensures { result ≡ dot (2 ^ i) (value constant.now) * (2 ^ 64 - 1) }
{
    if bit(constant, i) == 1 { u64::MAX } else { 0 }
}

// Adds the constant to the block in each lane.
pub(crate) fn add_constant<E: Engine>(e: &E, to: &mut [E::Wire], constant: &[u64])
    requires { value constant.now < 2 ^ length to.old }
    ensures { (j : ℕ) → j < E.lanes → lane j (map E.means to.new) ≡ bit_xor (lane j (map E.means to.old)) (value constant.now) }
{
    for (i, wire) in to.iter_mut().enumerate() {
        let c = e.enter(spread(constant, i), 0);
        *wire = e.add(*wire, c);
    }
}

// Makes each cell carry 0 in every lane.
pub(crate) fn clear<E: Engine>(e: &E, cells: &mut [E::Wire])
    ensures { map E.means cells.new ≡ replicate (length cells.old) 0 }
{
    // Not by `fill`, which says of a type parameter only that each is a clone.
    for cell in cells.iter_mut() {
        *cell = e.enter(0, 0);
    }
}
