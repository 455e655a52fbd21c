// A demonstration: reads a set file from standard input, opens the set, encrypts a block, decrypts it again, and prints each step; then it draws a
// set of its own from the Grain source and does the same with that.
#![tactic(auto)]

use arrayvec::ArrayVec;
use bits::refusal::Fault;
use cipher::instance::Instance;
use cipher::params::Params;
use drawing::drawer::draw;
use drawing::grain::GrainSource;
use files::reading::{WITNESS_WORDS, read};
use files::report::MOST_BYTES;
use input::read_front;
use std::io;
use thiserror::Error;

// The words that there are for the set.
const SET_WORDS: usize = 8192;

// A set for one sitting: small enough to be drawn at once.
const DRAWN: Params = Params {
    n: 24,
    k: 24,
    m: 5,
    r: 4,
};

// What ends the steps on one set early.
#[derive(Debug, Drop, Error)]
enum Stop {
    #[error("{0}")]
    Refused(#[from] Fault),
    #[error("{0}")]
    Output(#[from] io::Error),
}

// The lowest word of a vector, 0 where it has none.
fn lowest(words: &[u64]) -> u64 {
    words.first().copied().unwrap_or(0)
}

// Encrypts a block and decrypts it again; only the lowest words are shown, and there is one of each at least.
fn show_block(
    rt: &HostRuntime,
    held: &Instance,
    key: &[u64],
    block: &mut [u64],
) -> Result<(), Stop> {
    let mut work = [0u64; 8];
    println!(rt; "key {}, block {}", lowest(key), lowest(block))?;
    held.encrypt(key, block, &mut work)?;
    println!(rt; "encrypted: {}", lowest(block))?;
    held.decrypt(key, block, &mut work)?;
    println!(rt; "decrypted: {}", lowest(block))?;
    Ok(())
}

// Opens the set and works on the block 1 under the key 1.
fn show_opened(rt: &HostRuntime, params: Params, words: &[u64]) -> Result<(), Stop> {
    let mut held = Instance::empty();
    held.open(params, words)?;
    println!(rt; "opened")?;
    let mut key = ArrayVec::from([1u64, 0, 0, 0]);
    let mut block = ArrayVec::from([1u64, 0, 0, 0]);
    key.truncate(params.key_words());
    block.truncate(params.block_words());
    show_block(rt, &held, &key, &mut block)
}

fn show_set(rt: &HostRuntime, file: &[u8]) -> Result<(), Stop> {
    let mut words = [0u64; SET_WORDS];
    let mut witness = [0u64; WITNESS_WORDS];
    let p = read(file, &mut words, &mut witness)?;
    println!(rt;
        "read: {} block bits, {} key bits, {} triples, {} rounds, {} AND gates",
        p.n,
        p.k,
        p.m,
        p.r,
        p.gates()
    )?;
    show_opened(rt, p, &words)
}

fn show_drawn(rt: &HostRuntime) -> Result<(), Stop> {
    let mut words = [0u64; SET_WORDS];
    let taken = draw(DRAWN, &mut GrainSource::new(), &mut words)?;
    println!(rt;
        "drawn: {} block bits, {} key bits, {} triples, {} rounds, from {} bits",
        DRAWN.n, DRAWN.k, DRAWN.m, DRAWN.r, taken
    )?;
    show_opened(rt, DRAWN, &words)
}

// A refusal is the last line on its set.
fn close(rt: &HostRuntime, shown: Result<(), Stop>) -> io::Result<()> {
    match shown {
        Ok(()) => Ok(()),
        Err(Stop::Refused(fault)) => println!(rt; "{fault}"),
        Err(Stop::Output(error)) => Err(error),
    }
}

fn main(rt: HostRuntime) -> anyhow::Result<()> {
    let mut buffer = [0u8; MOST_BYTES];
    let file = read_front(&mut rt.stdin(), &mut buffer)?;
    close(&rt, show_set(&rt, file))?;
    close(&rt, show_drawn(&rt))?;
    Ok(())
}
