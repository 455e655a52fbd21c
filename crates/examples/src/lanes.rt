// Batches on the engine of whole words, lane by lane beside one-block calls.
use crate::agreeing::Lot;
use crate::random::Random;
use crate::sample::{drawn, opened, sample};
use cipher::params::Params;
use engines::engine::Engine;
use engines::word::WordEngine;
use noise::Noise;
use std::alloc::Global;
use std::process::Abort;
use std::test::Fail;

// Every block of 3 bits under every key of 3 bits.
#[test]
fn every_block_under_every_key(rt: HostRuntime) -> Result<(), Fail> {
    let heap = rt.alloc();
    let held = sample()?;
    let mut engine = WordEngine::new(6);
    engine.grant(6)?;
    let blocks: Vec<u64> = (0..64u64).map(|j| j % 8).collect(heap)?;
    let keys: Vec<u64> = (0..64u64).map(|j| j / 8).collect(heap)?;
    let every = Lot {
        held: &held,
        count: 64,
        blocks: &blocks,
        keys: &keys,
        masks: &[0; 6],
    };
    every.agrees(&rt, heap, &mut engine)
}

#[test]
fn one_lane(rt: HostRuntime) -> Result<(), Fail> {
    let heap = rt.alloc();
    let held = sample()?;
    let mut engine = WordEngine::new(12);
    engine.grant(12)?;
    let one = Lot {
        held: &held,
        count: 1,
        blocks: &[1],
        keys: &[0],
        masks: &[0; 6],
    };
    one.agrees(&rt, heap, &mut engine)?;
    let other = Lot {
        blocks: &[0],
        keys: &[7],
        masks: &[0; 7],
        ..one
    };
    other.agrees(&rt, heap, &mut engine)?;
    one.wants_gates(&rt, heap, &mut engine, 0)
}

// Draws a set, opens it, and compares random blocks under random keys.
fn agree(rt: &impl Abort, heap: Global, params: Params, count: usize) -> Result<(), Fail> {
    let set = drawn(heap, params)?;
    let held = opened(params, &set)?;
    let random = Random::new(heap, &mut Noise::new(), params, count)?;
    let mut engine = WordEngine::new(1000);
    engine.grant(1000)?;
    random.lot(&held).agrees(rt, heap, &mut engine)
}

#[test]
fn a_drawn_set(rt: HostRuntime) -> Result<(), Fail> {
    let p = Params {
        n: 24,
        k: 24,
        m: 5,
        r: 4,
    };
    agree(&rt, rt.alloc(), p, 64)?;
    agree(&rt, rt.alloc(), p, 1)
}

#[test]
fn blocks_and_keys_of_several_words(rt: HostRuntime) -> Result<(), Fail> {
    let p = Params {
        n: 70,
        k: 131,
        m: 9,
        r: 2,
    };
    agree(&rt, rt.alloc(), p, 64)?;
    agree(&rt, rt.alloc(), p, 5)
}
