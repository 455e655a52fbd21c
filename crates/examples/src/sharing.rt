// Batches on shares beside one-block calls: random triples and masks, until the tape is spent.
use crate::lent::filled;
use crate::random::Random;
use crate::sample::{PARAMS, drawn, opened, sample};
use crate::site::Site;
use cipher::params::Params;
use engines::engine::Engine;
use engines::share::ShareEngine;
use noise::Noise;
use std::process::Abort;
use std::test::Fail;

impl<'x, 's, R: Abort> Site<'x, 's, R> {
    // One batch of random blocks there and back, under masks of its own.
    fn agrees(
        &self,
        noise: &mut Noise,
        engine: &mut ShareEngine,
        params: Params,
        count: usize,
    ) -> Result<(), Fail> {
        let random = Random::new(self.heap, noise, params, count)?;
        random.lot(self.held).agrees(self.rt, self.heap, engine)
    }

    // One of 3 blocks that finds too few triples left.
    fn wants_gates(
        &self,
        noise: &mut Noise,
        engine: &mut ShareEngine,
        params: Params,
        left: usize,
    ) -> Result<(), Fail> {
        let random = Random::new(self.heap, noise, params, 3)?;
        let lot = random.lot(self.held);
        lot.wants_gates(self.rt, self.heap, engine, left)
    }

    // An engine of so many triples: batches of so many blocks, and one that is refused.
    fn until_spent(
        &self,
        params: Params,
        triples: u32,
        counts: &[usize],
        left: usize,
    ) -> Result<(), Fail> {
        let mut noise = Noise::new();
        let tape = noise.triples(self.heap, triples as usize)?;
        let mut engine = filled(&tape)?;
        engine.grant(triples)?;
        for count in counts {
            self.agrees(&mut noise, &mut engine, params, *count)?;
        }
        self.wants_gates(&mut noise, &mut engine, params, left)
    }
}

// The sample set: 6 of 20 triples for each batch there and back.
#[test]
fn the_sample_set(rt: HostRuntime) -> Result<(), Fail> {
    let held = sample()?;
    let site = Site::new(&rt, rt.alloc(), &held);
    site.until_spent(PARAMS, 20, &[64, 17, 1], 2)
}

// A drawn set: 120 of 250 triples for each batch there and back.
#[test]
fn a_drawn_set(rt: HostRuntime) -> Result<(), Fail> {
    let p = Params {
        n: 24,
        k: 24,
        m: 5,
        r: 4,
    };
    let set = drawn(rt.alloc(), p)?;
    let held = opened(p, &set)?;
    let site = Site::new(&rt, rt.alloc(), &held);
    site.until_spent(p, 250, &[64, 40], 10)
}
