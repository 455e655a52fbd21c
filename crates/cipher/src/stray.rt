// Stray bits: bits of a word at or past the end of its row.
ghost use Rattle.std.specs.Prelude.{◌≡◌, ◌+◌, ◌*◌, ◌^◌, ◌<◌, ◌≤◌, min, not, length, drop, nat_lt};
ghost use Rattle.cipher.specs.Instances.{first_stray_of, many_limits, row_limits, word_limits};

use crate::places::{inverses_from, keys_from};
use crate::prepared::Prepared;
use bits::matrix::Matrix;

// Whether a word has a bit at or past `bits`. The test is on the word as a whole, and the answer is public: such a word is refused.
fn strays(word: u64, bits: usize) -> bool
    ensures { result ≡ not (nat_lt word (2 ^ min 64 bits)) }
{
    bits < 64 && (word >> bits) != 0
}

// The first word of a row of `bits` bits that has a bit at or past their end.
pub fn first_stray(words: &[u64], bits: usize) -> Option<usize>
    ensures { result ≡ first_stray_of 0 (row_limits (length words.now) bits) words.now }
{
    let mut left = bits;
    for (i, word) in words.iter().enumerate() {
        if strays(*word, left) {
            return Some(i);
        }
        left = left.saturating_sub(64);
    }
    None
}

// The first such word in rows of `bits` bits.
pub fn first_in_rows(m: Matrix<'_>, bits: usize) -> Option<usize>
    ensures { result ≡ first_stray_of 0 (many_limits m.entry.width bits m.entry.height) m.entry.words.now }
{
    // A loop and not `find_map`, as the clause goes on from row to row.
    for (j, row) in m.rows().enumerate() {
        if let Some(i) = first_stray(row, bits) {
            return Some(j * m.width + i);
        }
    }
    None
}

// The first such word of rows that stand at a place of a set.
fn first_in_part(set: Prepared<'_>, at: usize, w: usize, count: usize, bits: usize) -> Option<usize>
    requires { at + count * w ≤ length set.words.now }
    ensures { result ≡ first_stray_of at (many_limits w bits count) (drop at set.entry.words.now) }
{
    let i = first_in_rows(Matrix::new(&set.words[at..], w, count), bits)?;
    Some(at + i)
}

// The first such word of a prepared set, of all its words: layers and constants, key matrices, inverses.
pub(crate) fn first_in_set(set: Prepared<'_>) -> Option<usize>
    ensures { result ≡ first_stray_of 0 (word_limits set.entry.params) set.entry.words.now }
{
    let p = set.params;
    let (n, k, r) = (p.n as usize, p.k as usize, p.r as usize);
    let (w, v) = (p.block_words(), p.key_words());
    if let Some(i) = first_in_part(set, 0, w, r * n + r, n) {
        return Some(i);
    }
    if let Some(i) = first_in_part(set, keys_from(p), v, (r + 1) * n, k) {
        return Some(i);
    }
    first_in_part(set, inverses_from(p), w, r * n, n)
}
