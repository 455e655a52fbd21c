// Two towns count the readers that they have in common. Each card becomes a code, in shares, under a set that was drawn for the occasion; the
// codes are compared, and the cards are not.
#![tactic(auto)]

use anyhow::Context;
use batches::batch::encrypt;
use cipher::instance::Instance;
use cipher::params::Params;
use drawing::drawer::draw;
use drawing::grain::GrainSource;
use engines::engine::Engine;
use engines::share::ShareEngine;
use noise::Noise;
use std::alloc::Global;

// Cards of 24 bits, and keys as wide.
const PARAMS: Params = Params {
    n: 24,
    k: 24,
    m: 5,
    r: 4,
};

const KEY: u64 = 0x5eed_ed;

// The card numbers of the two towns. Four readers have a card in both.
const NORTH: [u64; 6] = [1_204_417, 77, 9_000_001, 16_777_215, 31_337, 5];

const SOUTH: [u64; 7] = [31_337, 2, 16_777_215, 640_000, 77, 4_242, 1_204_417];

// The codes of a town's cards, in one batch, whose cells carry 0 in every lane.
fn codes(
    heap: Global,
    engine: &mut ShareEngine,
    held: &Instance,
    cards: &[u64],
    masks: &[u64],
) -> anyhow::Result<Vec<u64>> {
    let mut blocks = cards.to_vec(heap)?;
    let keys = vec![in heap; KEY; cards.len()]?;
    let mut wires = vec![in heap; engine.enter(0, 0); 96]?;
    encrypt(
        engine,
        held,
        cards.len(),
        &mut blocks,
        &keys,
        masks,
        &mut wires,
    )
    .context("a batch was refused")?;
    Ok(blocks)
}

// How many of the codes stand in both lists.
fn in_common(north: &[u64], south: &[u64]) -> usize {
    north.iter().filter(|&code| south.contains(code)).count()
}

fn print_account<E: Engine>(rt: &HostRuntime, engine: &E) -> anyhow::Result<()> {
    let a = engine.account();
    println!(rt;
        "gates: {} granted, {} spent, {} left",
        a.granted,
        a.done,
        a.left()
    )?;
    Ok(())
}

fn compare(rt: &HostRuntime, held: &Instance) -> anyhow::Result<()> {
    let heap = rt.alloc();
    let mut noise = Noise::new();
    let tape = noise.triples(heap, 128)?;
    let hidden = noise.words(heap, 48)?;
    let mut engine = ShareEngine::empty();
    engine.fill(&tape).context("the triples were refused")?;
    engine.grant(128).context("the gates were refused")?;
    let north = codes(heap, &mut engine, held, &NORTH, &hidden)?;
    let south = codes(heap, &mut engine, held, &SOUTH, &hidden)?;
    println!(rt;
        "cards: {} in the north, {} in the south",
        north.len(),
        south.len()
    )?;
    println!(rt; "readers in common: {}", in_common(&north, &south))?;
    print_account(rt, &engine)
}

// Draws the set, opens it and compares the two towns.
fn show_towns(rt: &HostRuntime) -> anyhow::Result<()> {
    let mut words = vec![in rt.alloc(); 0u64; PARAMS.prepared_words()]?;
    draw(PARAMS, &mut GrainSource::new(), &mut words).context("no set was drawn")?;
    let mut held = Instance::empty();
    held.open(PARAMS, &words).context("the set was refused")?;
    compare(rt, &held)
}

fn main(rt: HostRuntime) -> anyhow::Result<()> {
    show_towns(&rt)
}
