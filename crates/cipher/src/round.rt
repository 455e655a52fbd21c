// The rounds on a state, with a set that stands in words. Loops go by words and rows: nothing branches or indexes on what a key or a state holds.
// That `state` and `spare` are of one length each function asks for itself: they are lent on one by one, and every call would take a struct apart.
ghost use Rattle.std.specs.Prelude.{◌≡◌, ◌*◌, ◌≤◌, map, length};
ghost use Rattle.bits.specs.Gf2.{inverse_of, value};
ghost use Rattle.bits.specs.Matrices.{rows_in};
ghost use Rattle.cipher.specs.Parameters.{block_words_of};
ghost use Rattle.cipher.specs.Instances.{inverses_in, set_in};
ghost use Rattle.cipher.specs.Places.{unround_by};
ghost use Rattle.cipher.specs.LowMC.{decrypt as deciphered, encrypt as enciphered, round as rounded};

use crate::direction::Direction;
use crate::prepared::{Prepared, Round};
use crate::state::substitute;
use bits::matrix::product;
use bits::words::add;

// One round: substitution, layer, constant, round key. `spare` is changed.
fn forward(round: Round<'_>, m: u16, key: &[u64], state: &mut [u64], spare: &mut [u64])
    requires same { length spare.old ≡ length state.old }
    requires constant { length round.constant.now ≡ length state.old }
    requires layer { round.layer.height ≤ 64 * length state.old }
    requires keyed { round.key.height ≤ 64 * length state.old }
    requires triples { 3 * m ≤ 64 * length state.old }
    ensures { value state.new ≡ rounded m (value key.now) (rows_in round.entry.layer) (value round.entry.constant.now) (rows_in round.entry.key) (value state.old) }
{
    substitute(Direction::Encrypt, state, m);
    product(round.layer, state, spare);
    add(spare, round.constant);
    product(round.key, key, state);
    add(state, spare);
}

// Undoes a round, by the matrix that stands at its inverse's place. `spare` is changed.
fn backward(round: Round<'_>, m: u16, key: &[u64], state: &mut [u64], spare: &mut [u64])
    requires same { length spare.old ≡ length state.old }
    requires constant { length round.constant.now ≡ length state.old }
    requires inverse { round.inverse.height ≤ 64 * length state.old }
    requires keyed { round.key.height ≤ 64 * length state.old }
    requires triples { 3 * m ≤ 64 * length state.old }
    ensures { value state.new ≡ unround_by m (value key.now) (rows_in round.entry.inverse) (value round.entry.constant.now) (rows_in round.entry.key) (value state.old) }
{
    product(round.key, key, spare);
    add(state, spare);
    add(state, round.constant);
    product(round.inverse, state, spare);
    state.copy_from_slice(spare);
    substitute(Direction::Decrypt, state, m);
}

// Encrypts a state: the first key matrix, then the rounds. `spare` is changed.
pub(crate) fn encrypt_state(set: Prepared<'_>, key: &[u64], state: &mut [u64], spare: &mut [u64])
    requires block { length state.old ≡ block_words_of set.params }
    requires same { length spare.old ≡ block_words_of set.params }
    ensures { value state.new ≡ enciphered (set_in set.entry.params set.entry.words.now) (value key.now) (value state.old) }
{
    let m = set.params.m;
    product(set.first_key(), key, spare);
    add(state, spare);
    for i in 0..set.params.r as usize {
        forward(set.round(i), m, key, state, spare);
    }
}

// Decrypts a state: the rounds back, from the last, then the first key matrix. `spare` is changed.
pub(crate) fn decrypt_state(set: Prepared<'_>, key: &[u64], state: &mut [u64], spare: &mut [u64])
    requires inverses { inverses_in set.params set.words.now ≡ map inverse_of (set_in set.params set.words.now).layers }
    requires block { length state.old ≡ block_words_of set.params }
    requires same { length spare.old ≡ block_words_of set.params }
    ensures { value state.new ≡ deciphered (set_in set.entry.params set.entry.words.now) (value key.now) (value state.old) }
{
    let m = set.params.m;
    for i in (0..set.params.r as usize).rev() {
        backward(set.round(i), m, key, state, spare);
    }
    product(set.first_key(), key, spare);
    add(state, spare);
}
