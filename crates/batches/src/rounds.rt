// The rounds on wires: each lane goes through the rounds of one block. They are not the rounds of `cipher` over another type: a gate is asked of an engine,
// which counts it, and a product has room for sums, so that a trait for both would have each contract twice.
ghost use Rattle.std.specs.Prelude.{◌≡◌, ℕ, ◌+◌, ◌*◌, ◌^◌, ◌<◌, ◌≤◌, map, length};
ghost use Rattle.bits.specs.Gf2.{value};
ghost use Rattle.bits.specs.Matrices.{rows_in};
ghost use Rattle.cipher.specs.Parameters.{gates_of};
ghost use Rattle.cipher.specs.Instances.{set_in};
ghost use Rattle.cipher.specs.Places.{unround_by};
ghost use Rattle.cipher.specs.LowMC.{decrypt as deciphered, encrypt as enciphered, round as rounded};
ghost use Rattle.engines.specs.Accounts.{Spent};
ghost use Rattle.batches.specs.Lanes.{lane};
ghost use Rattle.batches.specs.Batches.{GatesLeft, WiresFor};

use crate::gates::substitute;
use crate::wires::{add_constant, add_wires, product};
use cipher::direction::Direction;
use cipher::opened::Opened;
use cipher::prepared::Round;
use engines::engine::Engine;

// One round: substitution, layer, round key, constant. `spare` and `sums` are changed. The wires are slices, here and below, and no struct of slices: each
// is lent on alone, now for reading and now for writing, so that every call would take the struct apart. The gates that are left are asked for by number, which is
// another for one triple, one round and all rounds.
fn forward<E: Engine>(
    e: &mut E,
    round: Round<'_>,
    m: usize,
    key: &[E::Wire],
    state: &mut [E::Wire],
    spare: &mut [E::Wire],
    sums: &mut [E::Wire],
)
    requires wires { (length spare.old ≡ length state.old) × (2 ≤ length sums.old) }
    requires layer { (round.layer.height ≡ length state.old) × (length state.old ≤ 64 * round.layer.width) }
    requires keyed { (round.key.height ≡ length state.old) × (length key.now ≤ 64 * round.key.width) }
    requires narrow { value round.constant.now < 2 ^ length state.old }
    requires triples { 3 * m ≤ length state.old }
    requires gates { GatesLeft (E.acct e.old) (3 * m) }
    ensures lanes { (j : ℕ) → j < E.lanes → lane j (map E.means state.new) ≡ rounded m (lane j (map E.means key.now)) (rows_in round.entry.layer) (value round.entry.constant.now) (rows_in round.entry.key) (lane j (map E.means state.old)) }
    ensures spent { Spent (E.acct e.old) (3 * m) (E.acct e.new) }
{
    substitute(Direction::Encrypt, e, state, m);
    product(e, round.layer, state, spare, sums);
    product(e, round.key, key, state, sums);
    add_wires(e, state, spare);
    add_constant(e, state, round.constant);
}

// Undoes a round, by the matrix that stands at its inverse's place. `spare` and `sums` are changed.
fn backward<E: Engine>(
    e: &mut E,
    round: Round<'_>,
    m: usize,
    key: &[E::Wire],
    state: &mut [E::Wire],
    spare: &mut [E::Wire],
    sums: &mut [E::Wire],
)
    requires wires { (length spare.old ≡ length state.old) × (2 ≤ length sums.old) }
    requires inverse { (round.inverse.height ≡ length state.old) × (length state.old ≤ 64 * round.inverse.width) }
    requires keyed { (round.key.height ≡ length state.old) × (length key.now ≤ 64 * round.key.width) }
    requires narrow { value round.constant.now < 2 ^ length state.old }
    requires triples { 3 * m ≤ length state.old }
    requires gates { GatesLeft (E.acct e.old) (3 * m) }
    ensures lanes { (j : ℕ) → j < E.lanes → lane j (map E.means state.new) ≡ unround_by m (lane j (map E.means key.now)) (rows_in round.entry.inverse) (value round.entry.constant.now) (rows_in round.entry.key) (lane j (map E.means state.old)) }
    ensures spent { Spent (E.acct e.old) (3 * m) (E.acct e.new) }
{
    product(e, round.key, key, spare, sums);
    add_wires(e, state, spare);
    add_constant(e, state, round.constant);
    product(e, round.inverse, state, spare, sums);
    state.copy_from_slice(spare);
    substitute(Direction::Decrypt, e, state, m);
}

// Encrypts the state in each lane: the first key matrix, then the rounds. `spare` and `sums` are changed.
pub(crate) fn encrypt_wires<E: Engine>(
    e: &mut E,
    opened: Opened<'_>,
    key: &[E::Wire],
    state: &mut [E::Wire],
    spare: &mut [E::Wire],
    sums: &mut [E::Wire],
)
    requires wires { WiresFor opened.set.params state.old spare.old key.now sums.old }
    requires gates { GatesLeft (E.acct e.old) (gates_of opened.set.params) }
    ensures lanes { (j : ℕ) → j < E.lanes → lane j (map E.means state.new) ≡ enciphered (set_in opened.entry.set.params opened.entry.set.words.now) (lane j (map E.means key.now)) (lane j (map E.means state.old)) }
    ensures spent { Spent (E.acct e.old) (gates_of opened.entry.set.params) (E.acct e.new) }
{
    let set = opened.set;
    let m = set.params.m as usize;
    product(e, set.first_key(), key, spare, sums);
    add_wires(e, state, spare);
    for i in 0..set.params.r as usize {
        forward(e, set.round(i), m, key, state, spare, sums);
    }
}

// Decrypts the state in each lane: the rounds back, from the last, then the first key matrix. `spare` and `sums` are changed.
pub(crate) fn decrypt_wires<E: Engine>(
    e: &mut E,
    opened: Opened<'_>,
    key: &[E::Wire],
    state: &mut [E::Wire],
    spare: &mut [E::Wire],
    sums: &mut [E::Wire],
)
    requires wires { WiresFor opened.set.params state.old spare.old key.now sums.old }
    requires gates { GatesLeft (E.acct e.old) (gates_of opened.set.params) }
    ensures lanes { (j : ℕ) → j < E.lanes → lane j (map E.means state.new) ≡ deciphered (set_in opened.entry.set.params opened.entry.set.words.now) (lane j (map E.means key.now)) (lane j (map E.means state.old)) }
    ensures spent { Spent (E.acct e.old) (gates_of opened.entry.set.params) (E.acct e.new) }
{
    let set = opened.set;
    let m = set.params.m as usize;
    for i in (0..set.params.r as usize).rev() {
        backward(e, set.round(i), m, key, state, spare, sums);
    }
    product(e, set.first_key(), key, spare, sums);
    add_wires(e, state, spare);
}
