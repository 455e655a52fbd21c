// What calls are lent: cells for batches, with what they carry, and memory for reading.
use bits::refusal::Fault;
use engines::engine::Engine;
use engines::share::ShareEngine;
use std::alloc::{AllocError, Global};
use std::process::Abort;

// What every cell carries before a batch, so that a cell which is written shows.
const FILL: u64 = 0x0123_4567_89ab_cdef;

// Cells for wires, each with a word other than 0.
pub fn cells<E: Engine>(
    heap: Global,
    engine: &E,
    count: usize,
) -> Result<Vec<E::Wire>, AllocError> {
    (0..count).map(|_| engine.enter(FILL, 9)).collect(heap)
}

// An engine on shares with these triples.
pub fn filled(tape: &[u64]) -> Result<ShareEngine<'_>, Fault> {
    let mut engine = ShareEngine::empty();
    engine.fill(tape)?;
    Ok(engine)
}

// The words that the cells carry.
pub fn carried<E: Engine>(
    heap: Global,
    engine: &E,
    cells: &[E::Wire],
) -> Result<Vec<u64>, AllocError> {
    cells.iter().map(|wire| engine.read(*wire)).collect(heap)
}

// That the first `used` cells carry 0 and the others what they carried before.
pub fn check_cleared<E: Engine>(rt: &impl Abort, engine: &E, cells: &[E::Wire], used: usize) {
    for (i, wire) in cells.iter().enumerate() {
        let want = if i < used { 0 } else { FILL };
        assert_eq!(rt; engine.read(*wire), want);
    }
}

// Memory that reading is lent: one word more than it needs, all set to other values than it writes.
#[derive(Clone, Copy, PartialEq, Eq, Debug)]
pub struct Lent {
    pub words: [u64; 14],
    pub witness: [u64; 5],
}

pub const FRESH: Lent = Lent {
    words: [7; 14],
    witness: [9; 5],
};
