// Where batches are tried: under a set that is held.
use cipher::instance::Instance;
use std::alloc::Global;
use std::process::Abort;

#[derive(Drop)]
pub struct Site<'x, 's, R: Abort> {
    pub rt: &'x R,
    pub heap: Global,
    pub held: &'x Instance<'s>,
}

impl<'x, 's, R: Abort> Site<'x, 's, R> {
    pub fn new(rt: &'x R, heap: Global, held: &'x Instance<'s>) -> Site<'x, 's, R> {
        Site { rt, heap, held }
    }
}
