// Batches of blocks over any engine of gates: block j and its key are in lane j, and every gate works on all lanes at once.
#![tactic(auto)]

pub mod batch;
mod gates;
mod lanes;
mod rounds;
mod wires;
