// The sample set file: n = k = 3, one triple, one round; layer rows 2, 4, 1; constant 1; both key matrices the identity. And sets that are drawn.
use bits::refusal::Fault;
use cipher::instance::Instance;
use cipher::params::Params;
use drawing::drawer::draw;
use drawing::grain::GrainSource;
use std::alloc::Global;
use std::test::Fail;

pub const SAMPLE: [u8; 32] = [
    b'P', b'R', 0, 3, 0, 3, 1, 1, // parameters
    b'L', b'M', 1, 2, 4, 1, // layer of round 1
    b'R', b'C', 1, 1, // constant of round 1
    b'K', b'M', 0, 1, 2, 4, // key matrix before round 1
    b'K', b'M', 1, 1, 2, 4, // key matrix of round 1
    b'E', b'N', // end
];

// The same set prepared: layer, constant, both key matrices, the inverse of the layer.
pub static PREPARED: [u64; 13] = [2, 4, 1, 1, 1, 2, 4, 1, 2, 4, 4, 1, 2];

pub const PARAMS: Params = Params {
    n: 3,
    k: 3,
    m: 1,
    r: 1,
};

// An instance that holds a prepared set.
pub fn opened(params: Params, set: &[u64]) -> Result<Instance<'_>, Fault> {
    let mut held = Instance::empty();
    held.open(params, set)?;
    Ok(held)
}

// An instance that holds the sample set.
pub fn sample() -> Result<Instance<'static>, Fault> {
    opened(PARAMS, &PREPARED)
}

// A set that is drawn from the Grain source.
pub fn drawn(heap: Global, params: Params) -> Result<Vec<u64>, Fail> {
    let mut set = vec![in heap; 0u64; params.prepared_words()]?;
    draw(params, &mut GrainSource::new(), &mut set)?;
    Ok(set)
}
