// Batches of blocks and keys that look random.
use crate::agreeing::Lot;
use cipher::instance::Instance;
use cipher::params::Params;
use noise::Noise;
use std::alloc::{AllocError, Global};

// The bits that the last word of a vector of so many bits has.
fn top(bits: usize) -> u64 {
    match bits % 64 {
        0 => u64::MAX,
        left => (1 << left) - 1,
    }
}

// So many random vectors, one after the other.
fn vectors(
    heap: Global,
    noise: &mut Noise,
    count: usize,
    bits: usize,
) -> Result<Vec<u64>, AllocError> {
    let size = bits.div_ceil(64);
    let mut words = Vec::new(heap);
    for _ in 0..count {
        let mut vector = noise.words(heap, size)?;
        if let Some(last) = vector.last_mut() {
            *last &= top(bits);
        }
        words.extend_from_slice(&vector)?;
    }
    Ok(words)
}

// Random blocks, keys and masks for a batch.
#[derive(Drop)]
pub struct Random {
    count: usize,
    blocks: Vec<u64>,
    keys: Vec<u64>,
    masks: Vec<u64>,
}

impl Random {
    pub fn new(
        heap: Global,
        noise: &mut Noise,
        params: Params,
        count: usize,
    ) -> Result<Random, AllocError> {
        let (n, k) = (params.n as usize, params.k as usize);
        Ok(Random {
            count,
            blocks: vectors(heap, noise, count, n)?,
            keys: vectors(heap, noise, count, k)?,
            masks: noise.words(heap, n + k)?,
        })
    }

    // The batch under a set that is held.
    pub fn lot<'x, 's>(&'x self, held: &'x Instance<'s>) -> Lot<'x, 's> {
        Lot {
            held,
            count: self.count,
            blocks: &self.blocks,
            keys: &self.keys,
            masks: &self.masks,
        }
    }
}
