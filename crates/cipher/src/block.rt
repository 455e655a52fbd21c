// One block under one key.
ghost use Rattle.std.specs.Prelude.{◌≡◌, ℕ, ◌≤◌, List, length, replicate, Some};
ghost use Rattle.bits.specs.Gf2.{value, words_of};
ghost use Rattle.cipher.specs.LowMC.{decrypt as deciphered, encrypt as enciphered};
ghost use Rattle.cipher.specs.Parameters.{block_words_of};
ghost use Rattle.cipher.specs.Instances.{set_in};
ghost use Rattle.cipher.specs.Blocks.{LeadsBack, block_after, block_checks};
ghost use Rattle.cipher.specs.Holds.{held_by};
ghost use Rattle.cipher.specs.Directions.{against, along};

use crate::direction::Direction;
use crate::guard::Wipe;
use crate::instance::Instance;
use crate::opened::Opened;
use crate::params::Params;
use crate::round::{decrypt_state, encrypt_state};
use crate::stray::first_stray;
use bits::refusal::{Fault, Layer, Refusal};
use bits::words::fitting;

// Work words of a call: a state and a spare one, of at most 4 words each.
const WORK: usize = 8;

// Lengths of key and block, stray bits in key and block, work words.
fn check_call(p: Params, key: &[u64], block: &[u64], work: usize) -> Result<(), Fault>
    ensures { (ws : List ℕ) → result ≡ block_checks (Some (p, ws)) key.now block.now work }
{
    if key.len() != p.key_words() {
        return Err(Fault::at(Refusal::WrongLength, Layer::Batch, p.key_words()));
    }
    if block.len() != p.block_words() {
        return Err(Fault::at(Refusal::WrongLength, Layer::Batch, p.block_words()));
    }
    if let Some(i) = first_stray(key, p.k as usize) {
        return Err(Fault::at(Refusal::StrayBit, Layer::Batch, i));
    }
    if let Some(i) = first_stray(block, p.n as usize) {
        return Err(Fault::at(Refusal::StrayBit, Layer::Batch, i));
    }
    if work < WORK {
        return Err(Fault::at(Refusal::TooFewWords, Layer::Set, WORK));
    }
    Ok(())
}

// The cipher on a state; `spare` is changed.
fn run_state(way: Direction, opened: Opened<'_>, key: &[u64], state: &mut [u64], spare: &mut [u64])
    requires size { length state.old ≡ block_words_of opened.set.params }
    requires same { length spare.old ≡ block_words_of opened.set.params }
    ensures { value state.new ≡ along way (set_in opened.entry.set.params opened.entry.set.words.now) (value key.now) (value state.old) }
{
    // A switch and no closure: the two differ in what they ask of a set, and a closure's contract would say all of both.
    match way {
        Direction::Encrypt => encrypt_state(opened.set, key, state, spare),
        Direction::Decrypt => decrypt_state(opened.set, key, state, spare),
    }
}

// The cipher on a block, which changes only at the end. The slices go one by one, as the public calls are lent them.
fn run_in(
    way: Direction,
    opened: Opened<'_>,
    key: &[u64],
    block: &mut [u64],
    state: &mut [u64],
    spare: &mut [u64],
)
    requires size { length block.old ≡ block_words_of opened.set.params }
    requires room { length state.old ≡ block_words_of opened.set.params }
    requires same { length spare.old ≡ block_words_of opened.set.params }
    ensures { block.new ≡ words_of (block_words_of opened.entry.set.params) (along way (set_in opened.entry.set.params opened.entry.set.words.now) (value key.now) (value block.old)) }
{
    state.copy_from_slice(block);
    run_state(way, opened, key, state, spare);
    block.copy_from_slice(state);
    fitting(block);
}

// The same in work memory: its first words are the state, its second half is spare.
fn run_block(way: Direction, opened: Opened<'_>, key: &[u64], block: &mut [u64], work: &mut [u64])
    requires size { length block.old ≡ block_words_of opened.set.params }
    requires room { 8 ≤ length work.old }
    ensures { block.new ≡ words_of (block_words_of opened.entry.set.params) (along way (set_in opened.entry.set.params opened.entry.set.words.now) (value key.now) (value block.old)) }
{
    let w = block.len();
    let (state, spare) = work.split_at_mut(4);
    run_in(way, opened, key, block, &mut state[..w], &mut spare[..w]);
}

// The checks of a call and, where they pass, the cipher. What is left in `work` is the guard's to wipe.
fn attempt(
    held: &Instance,
    way: Direction,
    key: &[u64],
    block: &mut [u64],
    work: &mut [u64],
) -> Result<(), Fault>
    ensures answer { result ≡ block_checks (held_by held.now) key.now block.old (length work.old) }
    ensures block { block.new ≡ block_after (along way) (held_by held.now) result key.now block.old }
    ensures back { LeadsBack (against way) (held_by held.now) result key.now block.old block.new }
{
    let Some(opened) = held.opened else {
        return Err(Fault::at(Refusal::NoInstance, Layer::Batch, 0));
    };
    check_call(opened.set.params, key, block, work.len())?;
    run_block(way, opened, key, block, work);
    Ok(())
}

// A call: everything runs while the guard lives.
fn call(
    held: &Instance,
    way: Direction,
    key: &[u64],
    block: &mut [u64],
    work: &mut [u64],
) -> Result<(), Fault>
    ensures answer { result ≡ block_checks (held_by held.now) key.now block.old (length work.old) }
    ensures wiped { work.new ≡ replicate (length work.old) 0 }
    ensures block { block.new ≡ block_after (along way) (held_by held.now) result key.now block.old }
    ensures back { LeadsBack (against way) (held_by held.now) result key.now block.old block.new }
{
    let guard = Wipe { work };
    attempt(held, way, key, block, guard.work)
}

// A name for each direction, with its promise in its own words; the work is `call`'s.
impl<'a> Instance<'a> {
    // Encrypts a block in place. Refused, the block stays as it was; the work words read 0 after every call.
    pub fn encrypt(&self, key: &[u64], block: &mut [u64], work: &mut [u64]) -> Result<(), Fault>
        ensures answer { result ≡ block_checks (held_by self.now) key.now block.old (length work.old) }
        ensures wiped { work.new ≡ replicate (length work.old) 0 }
        ensures block { block.new ≡ block_after enciphered (held_by self.now) result key.now block.old }
        ensures back { LeadsBack deciphered (held_by self.now) result key.now block.old block.new }
    {
        call(self, Direction::Encrypt, key, block, work)
    }

    // Decrypts a block in place, with the same refusals.
    pub fn decrypt(&self, key: &[u64], block: &mut [u64], work: &mut [u64]) -> Result<(), Fault>
        ensures answer { result ≡ block_checks (held_by self.now) key.now block.old (length work.old) }
        ensures wiped { work.new ≡ replicate (length work.old) 0 }
        ensures block { block.new ≡ block_after deciphered (held_by self.now) result key.now block.old }
        ensures back { LeadsBack enciphered (held_by self.now) result key.now block.old block.new }
    {
        call(self, Direction::Decrypt, key, block, work)
    }
}
