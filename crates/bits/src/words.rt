// Vectors of bits in 64-bit words, lowest first. No function branches on what a vector holds, but `lowest_one`, which is for rows of a matrix.
ghost use Rattle.std.specs.Prelude.{◌≡◌, ◌+◌, ◌*◌, ◌^◌, ◌<◌, ◌≤◌, length, MatchOption, bit_xor};
ghost use Rattle.bits.specs.Gf2.{Words, dot, lowest_one_of, value, width_of};
ghost use Rattle.bits.specs.Gauss.{Lowest};

// How many words hold `bits` bits.
pub fn width(bits: usize) -> usize
    ensures value { result ≡ width_of bits }
    ensures covers { (bits ≤ 64 * result) × (64 * result < bits + 64) }
{
    bits.div_ceil(64)
}

// The parity of the ones that `row` and `v` share. Past the end of the shorter there are none.
pub fn parity(row: &[u64], v: &[u64]) -> u64
    ensures { result ≡ dot (value row.now) (value v.now) }
{
    // No `zip`, which looks at two ends for each word: rows are of a few words, and a block takes a fifth longer with it.
    let shared = row.len().min(v.len());
    let mut acc: u64 = 0;
    for (i, x) in row[..shared].iter().enumerate() {
        acc ^= *x & v[i];
    }
    u64::from(acc.count_ones() % 2)
}

// Does nothing but say that each word is below 2^64: a proof knows that of a shared slice, and not of one that a loop writes to.
pub fn fitting(v: &[u64])
    ensures { Words v.now }
{
    let _none = v.is_empty();
}

// Bit `j` of `v`, which is 0 past the end.
pub fn bit(v: &[u64], j: usize) -> u64
    ensures { result ≡ dot (2 ^ j) (value v.now) }
{
    fitting(v);
    // No `unwrap_or` before the shift: past the end there is then nothing to shift, and the cipher asks for a bit at each turn.
    match v.get(j / 64) {
        Some(word) => (*word >> (j % 64)) % 2,
        None => 0,
    }
}

// The place of the lowest one of `row`, or nothing where it has none. The bound is there because a place is a `usize`.
pub fn lowest_one(row: &[u64]) -> Option<usize>
    requires { 64 * length row.now ≤ 2 ^ 64 }
    ensures value { result ≡ lowest_one_of (value row.now) }
    ensures lowest { MatchOption result (value row.now ≡ 0) (λ j. (j < 64 * length row.now) × Lowest (value row.now) j) }
{
    let k = row.iter().position(|x| *x != 0)?;
    Some(64 * k + row[k].trailing_zeros() as usize)
}

// Adds the vector `b` to `a`.
pub fn add(a: &mut [u64], b: &[u64])
    requires { length a.old ≡ length b.now }
    ensures { value a.new ≡ bit_xor (value a.old) (value b.now) }
{
    fitting(a);
    // By index in `b`: what is written through a `zip` with `iter_mut` is lost to the proof.
    for (i, x) in a.iter_mut().enumerate() {
        *x ^= b[i];
    }
}
