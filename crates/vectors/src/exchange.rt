// From the numbering of the published vectors to that of this library. There the first bit of triple t is bit 3t + 2 and the last is bit 3t; here it is
// the other way round. So bits 3t and 3t + 2 change places, for every triple: in blocks, in constants, in the rows of all matrices and in the columns of
// layers and their inverses. The columns of key matrices are key bits and stay.
use bits::words::bit;
use cipher::params::Params;

// Adds `b`, which is 0 or 1, to bit `j`.
fn add_bit(vector: &mut [u64], j: usize, b: u64) {
    if j / 64 < vector.len() {
        vector[j / 64] ^= b << (j % 64);
    }
}

// Exchanges the outer bits of each of the `m` triples.
pub(crate) fn exchange_bits(vector: &mut [u64], m: u16) {
    // By number: a triple is three bits, and may straddle two words.
    for t in 0..m {
        let first = 3 * t as usize;
        let differ = bit(vector, first) ^ bit(vector, first + 2);
        add_bit(vector, first, differ);
        add_bit(vector, first + 2, differ);
    }
}

// Exchanges the first and the last of three rows.
fn exchange_outer(three: &mut [u64]) {
    let w = three.len() / 3;
    let (first, rest) = three.split_at_mut(w);
    first.swap_with_slice(&mut rest[w..2 * w]);
}

// Exchanges the outer rows of each triple of a matrix whose rows have `width` words.
fn exchange_rows(p: Params, matrix: &mut [u64], width: usize) {
    let size = width.saturating_mul(3).max(1);
    for three in matrix.chunks_exact_mut(size).take(p.m as usize) {
        exchange_outer(three);
    }
}

// Exchanges rows in each of many matrices of `n` rows.
fn exchange_matrices(p: Params, matrices: &mut [u64], width: usize) {
    let size = width.saturating_mul(p.n as usize).max(1);
    for matrix in matrices.chunks_exact_mut(size) {
        exchange_rows(p, matrix, width);
    }
}

// Exchanges bits in each of many vectors of `n` bits: constants, or the rows of layers and their inverses.
fn exchange_vectors(p: Params, vectors: &mut [u64]) {
    for vector in vectors.chunks_exact_mut(p.block_words().max(1)) {
        exchange_bits(vector, p.m);
    }
}

// The words from `from` on and before `to`, or none where there are fewer.
fn part(words: &mut [u64], from: usize, to: usize) -> &mut [u64] {
    words.get_mut(from..to).unwrap_or(&mut [])
}

// The prepared set in the other numbering: layers, constants, key matrices, inverses.
pub(crate) fn exchange_set(p: Params, words: &mut [u64]) {
    let (n, r) = (p.n as usize, p.r as usize);
    let (w, v) = (p.block_words(), p.key_words());
    let layers = r.saturating_mul(w.saturating_mul(n));
    let constants = layers.saturating_add(r.saturating_mul(w));
    let keys = constants.saturating_add(v.saturating_mul(n).saturating_mul(r + 1));
    let all = p.prepared_words();
    exchange_matrices(p, part(words, 0, layers), w);
    // the rows of all layers and the constants, which stand after them, are vectors of one width
    exchange_vectors(p, part(words, 0, constants));
    exchange_matrices(p, part(words, constants, keys), v);
    exchange_matrices(p, part(words, keys, all), w);
    exchange_vectors(p, part(words, keys, all));
}
