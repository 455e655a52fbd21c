// Speed: makes a set file, reads it, opens the set and encrypts blocks, one by one and in batches; then draws a set from the Grain source. It says
// something only where it is given a word, as `bench go`.
#![tactic(auto)]

mod batching;
mod maker;

use anyhow::Context;
use arrayvec::ArrayVec;
use batching::time_batches;
use cipher::instance::Instance;
use cipher::params::Params;
use drawing::drawer::draw;
use drawing::grain::GrainSource;
use files::reading::{WITNESS_WORDS, read};
use maker::make_file;
use std::env;
use std::time::Instant;

// Microseconds for `count` blocks, each the one before it encrypted.
fn time_blocks(
    rt: &HostRuntime,
    held: &Instance,
    key: &[u64],
    block: &mut [u64],
    count: u32,
) -> anyhow::Result<u128> {
    let mut work = [0u64; 8];
    let start = Instant::now(rt)?;
    for _ in 0..count {
        held.encrypt(key, block, &mut work)
            .context("a block was refused")?;
    }
    Ok(start.elapsed(rt)?.as_micros())
}

// The same number of blocks one by one and in batches of 64.
fn time_both(
    rt: &HostRuntime,
    held: &Instance,
    params: Params,
    batches: u32,
) -> anyhow::Result<()> {
    let mut key = ArrayVec::from([1u64, 0, 0, 0]);
    let mut block = ArrayVec::from([1u64, 0, 0, 0]);
    key.truncate(params.key_words());
    block.truncate(params.block_words());
    let count = batches.saturating_mul(64).max(1);
    let alone = time_blocks(rt, held, &key, &mut block, count)?;
    let together = time_batches(rt, held, params, batches)?;
    let rate = u128::from(count) * 1_000_000 / alone.max(1);
    println!(rt; "  {count} blocks in {alone} us: {rate} blocks a second")?;
    println!(rt;
        "  one by one: {} us a block; in batches of 64: {} us a block",
        alone / u128::from(count),
        together / u128::from(count)
    )?;
    Ok(())
}

fn time_opened(
    rt: &HostRuntime,
    params: Params,
    words: &[u64],
    batches: u32,
) -> anyhow::Result<()> {
    let mut held = Instance::empty();
    let start = Instant::now(rt)?;
    if let Err(fault) = held.open(params, words) {
        println!(rt; "{fault}")?;
        return Ok(());
    }
    let spent = start.elapsed(rt)?.as_micros();
    println!(rt; "  opened in {spent} us")?;
    time_both(rt, &held, params, batches)
}

// One set, with so many batches.
fn time_set(rt: &HostRuntime, params: Params, batches: u32) -> anyhow::Result<()> {
    println!(rt;
        "n {} m {} k {} r {}",
        params.n, params.m, params.k, params.r
    )?;
    let file = make_file(rt.alloc(), params)?;
    let mut words = vec![in rt.alloc(); 0u64; params.prepared_words()]?;
    let mut witness = [0u64; WITNESS_WORDS];
    let start = Instant::now(rt)?;
    match read(&file, &mut words, &mut witness) {
        Ok(p) => {
            let spent = start.elapsed(rt)?.as_micros();
            println!(rt; "  read in {spent} us")?;
            time_opened(rt, p, &words, batches)?;
        }
        Err(fault) => println!(rt; "{fault}")?,
    }
    Ok(())
}

// How long a set takes to be drawn.
fn time_drawn(rt: &HostRuntime, params: Params) -> anyhow::Result<()> {
    let mut words = vec![in rt.alloc(); 0u64; params.prepared_words()]?;
    let mut source = GrainSource::new();
    let start = Instant::now(rt)?;
    match draw(params, &mut source, &mut words) {
        Ok(taken) => {
            let spent = start.elapsed(rt)?.as_micros();
            println!(rt; "  drawn in {spent} us, from {taken} bits")?;
        }
        Err(fault) => println!(rt; "{fault}")?,
    }
    Ok(())
}

fn main(rt: HostRuntime) -> anyhow::Result<()> {
    if env::args(&rt)?.count() < 2 {
        return Ok(());
    }
    time_set(
        &rt,
        Params {
            n: 256,
            k: 80,
            m: 49,
            r: 12,
        },
        32,
    )?;
    time_set(
        &rt,
        Params {
            n: 128,
            k: 128,
            m: 3,
            r: 88,
        },
        32,
    )?;
    let large = Params {
        n: 256,
        k: 256,
        m: 10,
        r: 52,
    };
    time_set(&rt, large, 16)?;
    time_drawn(&rt, large)
}
