// A batch: its checks, and the cipher on all its blocks at once. The count, blocks, keys, masks and cells go one by one: that is the signature of the
// public calls, and their slices are lent on as they came.
ghost use Rattle.std.specs.Prelude.{◌≡◌, ℕ, ◌+◌, ◌*◌, ◌<◌, ◌≤◌, false, List, map, length, is_ok, Some};
ghost use Rattle.bits.specs.Gf2.{Below, flat, rows};
ghost use Rattle.cipher.specs.LowMC.{decrypt as deciphered, encrypt as enciphered};
ghost use Rattle.cipher.specs.Parameters.{block_words_of, gates_of, key_words_of};
ghost use Rattle.cipher.specs.Instances.{set_in};
ghost use Rattle.cipher.specs.Holds.{held_by};
ghost use Rattle.cipher.specs.Directions.{along};
ghost use Rattle.engines.specs.Accounts.{Spent};
ghost use Rattle.batches.specs.Lanes.{lane};
ghost use Rattle.batches.specs.Batches.{Cleared, GatesLeft, Leaves, WiresFor, batch_checks, blocks_after, cells_of, masks_of, one_by_one_of};

use crate::lanes::{load, unload};
use crate::rounds::{decrypt_wires, encrypt_wires};
use crate::wires::clear;
use bits::matrix::Matrix;
use bits::refusal::{Fault, Layer, Refusal};
use cipher::direction::Direction;
use cipher::instance::Instance;
use cipher::opened::Opened;
use cipher::params::Params;
use cipher::stray::first_in_rows;
use engines::engine::{Account, Engine};

// The count, words of blocks and of keys, stray bits in blocks and in keys, masks, cells, gates.
fn check_batch(
    p: Params,
    lanes: u32,
    account: Account,
    count: usize,
    blocks: &[u64],
    keys: &[u64],
    masks: usize,
    cells: usize,
) -> Result<(), Fault>
    ensures { (ws : List ℕ) → result ≡ batch_checks lanes account (Some (p, ws)) count blocks.now keys.now masks cells }
{
    let (n, k, w, v) = (p.n as usize, p.k as usize, p.block_words(), p.key_words());
    if count == 0 || count > lanes as usize {
        return Err(Fault::at(Refusal::WrongCount, Layer::Batch, count));
    }
    if blocks.len() != count * w {
        return Err(Fault::at(Refusal::WrongLength, Layer::Batch, count * w));
    }
    if keys.len() != count * v {
        return Err(Fault::at(Refusal::WrongLength, Layer::Batch, count * v));
    }
    if let Some(i) = first_in_rows(Matrix::new(blocks, w, count), n) {
        return Err(Fault::at(Refusal::StrayBit, Layer::Batch, i));
    }
    if let Some(i) = first_in_rows(Matrix::new(keys, v, count), k) {
        return Err(Fault::at(Refusal::StrayBit, Layer::Batch, i));
    }
    if masks < n + k {
        return Err(Fault::at(Refusal::TooFewWords, Layer::Set, n + k));
    }
    if cells < 3 * n + k {
        return Err(Fault::at(Refusal::TooFewWords, Layer::Set, 3 * n + k));
    }
    if u64::from(account.left()) < p.gates() {
        return Err(Fault::at(Refusal::OutOfGates, Layer::Engine, account.left() as usize));
    }
    Ok(())
}

// The cipher in every lane; `spare` and `sums` are changed.
fn run_wires<E: Engine>(
    way: Direction,
    e: &mut E,
    opened: Opened<'_>,
    key: &[E::Wire],
    state: &mut [E::Wire],
    spare: &mut [E::Wire],
    sums: &mut [E::Wire],
)
    requires wires { WiresFor opened.set.params state.old spare.old key.now sums.old }
    requires gates { GatesLeft (E.acct e.old) (gates_of opened.set.params) }
    ensures lanes { (j : ℕ) → j < E.lanes → lane j (map E.means state.new) ≡ along way (set_in opened.entry.set.params opened.entry.set.words.now) (lane j (map E.means key.now)) (lane j (map E.means state.old)) }
    ensures spent { Spent (E.acct e.old) (gates_of opened.entry.set.params) (E.acct e.new) }
{
    // A switch and no closure: a closure's contract would say all of both.
    match way {
        Direction::Encrypt => encrypt_wires(e, opened, key, state, spare, sums),
        Direction::Decrypt => decrypt_wires(e, opened, key, state, spare, sums),
    }
}

// A batch that passed its checks, in just the cells that it needs: a state, a spare one, sums of wires, and the key.
fn run_cells<E: Engine>(
    way: Direction,
    e: &mut E,
    opened: Opened<'_>,
    count: usize,
    blocks: &mut [u64],
    keys: &[u64],
    masks: &[u64],
    cells: &mut [E::Wire],
)
    requires lanes { count ≤ E.lanes }
    requires sizes { (length blocks.old ≡ count * block_words_of opened.set.params) × (length keys.now ≡ count * key_words_of opened.set.params) }
    requires narrow { Below opened.set.params.n (rows (block_words_of opened.set.params) count blocks.old) × Below opened.set.params.k (rows (key_words_of opened.set.params) count keys.now) }
    requires masks { masks_of opened.set.params ≤ length masks.now }
    requires cells { length cells.old ≡ cells_of opened.set.params }
    requires gates { GatesLeft (E.acct e.old) (gates_of opened.set.params) }
    ensures blocks { blocks.new ≡ flat (block_words_of opened.entry.set.params) (one_by_one_of (along way (set_in opened.entry.set.params opened.entry.set.words.now)) (rows (key_words_of opened.entry.set.params) count keys.now) (rows (block_words_of opened.entry.set.params) count blocks.old)) }
    ensures spent { Spent (E.acct e.old) (gates_of opened.entry.set.params) (E.acct e.new) }
{
    let p = opened.set.params;
    let (n, w) = (p.n as usize, p.block_words());
    let (state, more) = cells.split_at_mut(n);
    let (spare, last) = more.split_at_mut(n);
    let (sums, key) = last.split_at_mut(n);
    load(e, Matrix::new(blocks, w, count), masks, state);
    load(e, Matrix::new(keys, p.key_words(), count), &masks[n..], key);
    run_wires(way, e, opened, key, state, spare, sums);
    unload(e, state, blocks, w, count);
}

// The same in the first of the cells that were lent, which carry 0 afterwards.
fn run_accepted<E: Engine>(
    way: Direction,
    e: &mut E,
    opened: Opened<'_>,
    count: usize,
    blocks: &mut [u64],
    keys: &[u64],
    masks: &[u64],
    cells: &mut [E::Wire],
)
    requires lanes { count ≤ E.lanes }
    requires sizes { (length blocks.old ≡ count * block_words_of opened.set.params) × (length keys.now ≡ count * key_words_of opened.set.params) }
    requires narrow { Below opened.set.params.n (rows (block_words_of opened.set.params) count blocks.old) × Below opened.set.params.k (rows (key_words_of opened.set.params) count keys.now) }
    requires masks { masks_of opened.set.params ≤ length masks.now }
    requires cells { cells_of opened.set.params ≤ length cells.old }
    requires gates { GatesLeft (E.acct e.old) (gates_of opened.set.params) }
    ensures blocks { blocks.new ≡ flat (block_words_of opened.entry.set.params) (one_by_one_of (along way (set_in opened.entry.set.params opened.entry.set.words.now)) (rows (key_words_of opened.entry.set.params) count keys.now) (rows (block_words_of opened.entry.set.params) count blocks.old)) }
    ensures spent { Spent (E.acct e.old) (gates_of opened.entry.set.params) (E.acct e.new) }
    ensures cells { Cleared E.means (cells_of opened.entry.set.params) cells.old cells.new }
{
    let used = 3 * opened.set.params.n as usize + opened.set.params.k as usize;
    run_cells(
        way,
        e,
        opened,
        count,
        blocks,
        keys,
        masks,
        &mut cells[..used],
    );
    clear(e, &mut cells[..used]);
}

// A batch in either direction, with the promises of `encrypt` and `decrypt`.
pub fn run_batch<E: Engine>(
    way: Direction,
    engine: &mut E,
    held: &Instance,
    count: usize,
    blocks: &mut [u64],
    keys: &[u64],
    masks: &[u64],
    cells: &mut [E::Wire],
) -> Result<(), Fault>
    ensures answer { result ≡ batch_checks E.lanes (E.acct engine.old) (held_by held.now) count blocks.old keys.now (length masks.now) (length cells.old) }
    ensures blocks { blocks.new ≡ blocks_after (along way) (held_by held.now) result count keys.now blocks.old }
    ensures leaves { Leaves E.means (held_by held.now) result (E.acct engine.old) (E.acct engine.new) cells.old cells.new }
    ensures stays { is_ok result ≡ false → engine.new ≡ engine.old }
{
    let Some(opened) = held.held() else {
        return Err(Fault::at(Refusal::NoInstance, Layer::Batch, 0));
    };
    check_batch(
        opened.set.params,
        E::lanes_of(),
        engine.account(),
        count,
        blocks,
        keys,
        masks.len(),
        cells.len(),
    )?;
    run_accepted(way, engine, opened, count, blocks, keys, masks, cells);
    Ok(())
}

// `run_batch` by a name for each direction, with its promise in its own words.
//
// Encrypts `count` blocks in place, block j under key j. It spends the gates of one block, whatever the count, and leaves the cells that it used
// carrying 0. Refused, it leaves everything as it was and asks for no gate.
pub fn encrypt<E: Engine>(
    engine: &mut E,
    held: &Instance,
    count: usize,
    blocks: &mut [u64],
    keys: &[u64],
    masks: &[u64],
    cells: &mut [E::Wire],
) -> Result<(), Fault>
    ensures answer { result ≡ batch_checks E.lanes (E.acct engine.old) (held_by held.now) count blocks.old keys.now (length masks.now) (length cells.old) }
    ensures blocks { blocks.new ≡ blocks_after enciphered (held_by held.now) result count keys.now blocks.old }
    ensures leaves { Leaves E.means (held_by held.now) result (E.acct engine.old) (E.acct engine.new) cells.old cells.new }
    ensures stays { is_ok result ≡ false → engine.new ≡ engine.old }
{
    run_batch(
        Direction::Encrypt,
        engine,
        held,
        count,
        blocks,
        keys,
        masks,
        cells,
    )
}

// Decrypts `count` blocks in place, with the same refusals, cost and cells.
pub fn decrypt<E: Engine>(
    engine: &mut E,
    held: &Instance,
    count: usize,
    blocks: &mut [u64],
    keys: &[u64],
    masks: &[u64],
    cells: &mut [E::Wire],
) -> Result<(), Fault>
    ensures answer { result ≡ batch_checks E.lanes (E.acct engine.old) (held_by held.now) count blocks.old keys.now (length masks.now) (length cells.old) }
    ensures blocks { blocks.new ≡ blocks_after deciphered (held_by held.now) result count keys.now blocks.old }
    ensures leaves { Leaves E.means (held_by held.now) result (E.acct engine.old) (E.acct engine.new) cells.old cells.new }
    ensures stays { is_ok result ≡ false → engine.new ≡ engine.old }
{
    run_batch(
        Direction::Decrypt,
        engine,
        held,
        count,
        blocks,
        keys,
        masks,
        cells,
    )
}
