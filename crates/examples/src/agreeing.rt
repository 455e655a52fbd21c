// A batch beside one-block calls, on any engine.
ghost use Rattle.std.specs.Prelude.{◌≡◌, ◌+◌, ◌*◌};

use crate::lent::{carried, cells, check_cleared};
use batches::batch::{decrypt, encrypt};
use bits::refusal::{Fault, Layer, Refusal};
use cipher::direction::Direction;
use cipher::instance::Instance;
use cipher::params::Params;
use engines::engine::{Account, Engine};
use std::alloc::Global;
use std::process::Abort;
use std::test::Fail;

// A batch of so many blocks, each under its own key, under the set that is held.
#[derive(Drop)]
pub struct Lot<'x, 's> {
    pub held: &'x Instance<'s>,
    pub count: usize,
    pub blocks: &'x [u64],
    pub keys: &'x [u64],
    pub masks: &'x [u64],
}

// What a one-block call leaves of a block.
fn alone(heap: Global, held: &Instance, key: &[u64], block: &[u64]) -> Result<Vec<u64>, Fail> {
    let mut work = [0; 8];
    let mut one = block.to_vec(heap)?;
    held.encrypt(key, &mut one, &mut work)?;
    Ok(one)
}

// The account after the gates of one block: nothing is granted.
fn spent(before: Account, p: Params) -> Result<Account, Fail> {
    let done = u64::from(before.done) + p.gates();
    Ok(Account {
        done: u32::try_from(done).ok().ok_or("too many gates")?,
        ..before
    })
}

// The cells that a batch uses.
fn used(p: Params) -> usize
    ensures { result ≡ 3 * p.n + p.k }
{
    3 * p.n as usize + p.k as usize
}

impl<'x, 's> Lot<'x, 's> {
    fn params(&self) -> Result<Params, Fail> {
        Ok(self.held.params().ok_or("nothing is held")?)
    }

    // The batch in one direction.
    pub fn run<E: Engine>(
        &self,
        way: Direction,
        engine: &mut E,
        blocks: &mut [u64],
        cells: &mut [E::Wire],
    ) -> Result<(), Fault> {
        let Lot {
            held,
            count,
            keys,
            masks,
            ..
        } = *self;
        // by the names that callers of the library use, so that these are tried
        match way {
            Direction::Encrypt => encrypt(engine, held, count, blocks, keys, masks, cells),
            Direction::Decrypt => decrypt(engine, held, count, blocks, keys, masks, cells),
        }
    }

    // What one-block calls leave, each block under its own key.
    fn one_by_one(&self, rt: &impl Abort, heap: Global) -> Result<Vec<u64>, Fail> {
        let p = self.params()?;
        let (w, v) = (p.block_words(), p.key_words());
        assert!(rt; 0 < w && 0 < v);
        let mut all = Vec::new(heap);
        for (block, key) in self.blocks.chunks(w).zip(self.keys.chunks(v)) {
            all.extend_from_slice(&alone(heap, self.held, key, block)?)?;
        }
        Ok(all)
    }

    // Takes the blocks in one direction to what is wanted, in two cells more than that uses: the cells that it uses are cleared and no other, and the
    // gates of one block are spent.
    fn takes<E: Engine>(
        &self,
        rt: &impl Abort,
        heap: Global,
        way: Direction,
        engine: &mut E,
        want: &[u64],
    ) -> Result<(), Fail> {
        let p = self.params()?;
        let mut wires = cells(heap, engine, used(p) + 2)?;
        let mut changed = self.blocks.to_vec(heap)?;
        let before = engine.account();
        self.run(way, engine, &mut changed, &mut wires)?;
        assert!(rt; changed.as_slice() == want);
        check_cleared(rt, engine, &wires, used(p));
        assert_eq!(rt; engine.account(), spent(before, p)?);
        Ok(())
    }

    // That the batch gives in each lane what a one-block call gives, and that the other direction leads back.
    pub fn agrees<E: Engine>(
        &self,
        rt: &impl Abort,
        heap: Global,
        engine: &mut E,
    ) -> Result<(), Fail> {
        let there = self.one_by_one(rt, heap)?;
        self.takes(rt, heap, Direction::Encrypt, engine, &there)?;
        let back = Lot {
            held: self.held,
            count: self.count,
            blocks: &there,
            keys: self.keys,
            masks: self.masks,
        };
        back.takes(rt, heap, Direction::Decrypt, engine, self.blocks)
    }

    // That the batch is refused so in one direction, with so many cells, and blocks, cells and account are as before. Each of the six is of a kind of its
    // own, and no two of them go together anywhere else.
    pub fn refused<E: Engine>(
        &self,
        rt: &impl Abort,
        heap: Global,
        way: Direction,
        engine: &mut E,
        room: usize,
        want: Fault,
    ) -> Result<(), Fail> {
        let mut wires = cells(heap, engine, room)?;
        let mut changed = self.blocks.to_vec(heap)?;
        let seen = carried(heap, engine, &wires)?;
        let before = engine.account();
        let answer = self.run(way, engine, &mut changed, &mut wires);
        assert_eq!(rt; answer, Err(want));
        assert!(rt; changed.as_slice() == self.blocks);
        assert_eq!(rt; carried(heap, engine, &wires)?, seen);
        assert_eq!(rt; engine.account(), before);
        Ok(())
    }

    // That the batch is refused for want of gates, with so many left.
    pub fn wants_gates<E: Engine>(
        &self,
        rt: &impl Abort,
        heap: Global,
        engine: &mut E,
        left: usize,
    ) -> Result<(), Fail> {
        let want = Fault::at(Refusal::OutOfGates, Layer::Engine, left);
        let room = used(self.params()?);
        self.refused(rt, heap, Direction::Encrypt, engine, room, want)
    }
}
