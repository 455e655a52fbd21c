// How long blocks take in batches of 64 on the engine of whole words.
use anyhow::Context;
use batches::batch::encrypt;
use cipher::instance::Instance;
use cipher::params::Params;
use engines::engine::Engine;
use engines::word::{Word, WordEngine};
use std::alloc::Global;
use std::time::Instant;

// Memory that each batch is lent.
#[derive(Drop)]
struct Lent {
    blocks: Vec<u64>,
    keys: Vec<u64>,
    masks: Vec<u64>,
    cells: Vec<Word>,
}

// Each word of a block and of a key is 1, which no width of the sets timed here makes a stray bit.
fn lend(heap: Global, engine: &WordEngine, params: Params) -> anyhow::Result<Lent> {
    let (n, k) = (params.n as usize, params.k as usize);
    Ok(Lent {
        blocks: vec![in heap; 1u64; params.block_words().saturating_mul(64)]?,
        keys: vec![in heap; 1u64; params.key_words().saturating_mul(64)]?,
        masks: vec![in heap; 0u64; n + k]?,
        cells: vec![in heap; engine.enter(0, 0); 3 * n + k]?,
    })
}

// Microseconds for so many batches, each over the blocks that the one before it left.
pub fn time_batches(
    rt: &HostRuntime,
    held: &Instance,
    params: Params,
    count: u32,
) -> anyhow::Result<u128> {
    let mut engine = WordEngine::new(u32::MAX);
    engine.grant(u32::MAX).context("a batch was refused")?;
    let mut lent = lend(rt.alloc(), &engine, params)?;
    let start = Instant::now(rt)?;
    for _ in 0..count {
        encrypt(
            &mut engine,
            held,
            64,
            &mut lent.blocks,
            &lent.keys,
            &lent.masks,
            &mut lent.cells,
        )
        .context("a batch was refused")?;
    }
    Ok(start.elapsed(rt)?.as_micros())
}
