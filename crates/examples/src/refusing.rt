// Batches: every refusal with its place, the order of the checks, and that nothing has changed.
use crate::agreeing::Lot;
use crate::sample::{drawn, opened, sample};
use crate::site::Site;
use bits::refusal::{Fault, Layer, Refusal};
use cipher::direction::Direction;
use cipher::instance::Instance;
use cipher::params::Params;
use engines::engine::Engine;
use engines::word::WordEngine;
use std::process::Abort;
use std::test::Fail;

// How many masks and cells a batch is lent, and how many gates are granted.
#[derive(Clone, Copy)]
struct Room {
    masks: usize,
    cells: usize,
    gates: u32,
}

// Just what the sample set wants: 3 + 3 masks, 3 * 3 + 3 cells, 3 gates.
const ENOUGH: Room = Room {
    masks: 6,
    cells: 12,
    gates: 3,
};

impl<'x, 's, R: Abort> Site<'x, 's, R> {
    // That a batch is refused so in both directions, and nothing has changed.
    fn both(
        &self,
        count: usize,
        blocks: &[u64],
        keys: &[u64],
        room: Room,
        want: Fault,
    ) -> Result<(), Fail> {
        let (rt, heap, held) = (self.rt, self.heap, self.held);
        let masks = &vec![in heap; 5u64; room.masks]?;
        let lot = Lot {
            held,
            count,
            blocks,
            keys,
            masks,
        };
        for way in [Direction::Encrypt, Direction::Decrypt] {
            let mut engine = WordEngine::new(7);
            engine.grant(room.gates)?;
            lot.refused(rt, heap, way, &mut engine, room.cells, want)?;
        }
        Ok(())
    }
}

#[test]
fn nothing_is_held(rt: HostRuntime) -> Result<(), Fail> {
    let want = Fault::at(Refusal::NoInstance, Layer::Batch, 0);
    let held = Instance::empty();
    let site = Site::new(&rt, rt.alloc(), &held);
    site.both(2, &[1, 0], &[0, 7], ENOUGH, want)?;
    // though everything else is wrong too
    let less = Room {
        masks: 5,
        cells: 11,
        gates: 2,
    };
    site.both(0, &[8], &[8], less, want)
}

#[test]
fn no_block_or_too_many(rt: HostRuntime) -> Result<(), Fail> {
    let held = sample()?;
    let site = Site::new(&rt, rt.alloc(), &held);
    let none = Fault::at(Refusal::WrongCount, Layer::Batch, 0);
    site.both(0, &[], &[], ENOUGH, none)?;
    let many = Fault::at(Refusal::WrongCount, Layer::Batch, 65);
    site.both(65, &[1; 65], &[2; 65], ENOUGH, many)
}

#[test]
fn lengths(rt: HostRuntime) -> Result<(), Fail> {
    let held = sample()?;
    let site = Site::new(&rt, rt.alloc(), &held);
    let want = Fault::at(Refusal::WrongLength, Layer::Batch, 2);
    site.both(2, &[1, 0, 3], &[0, 7], ENOUGH, want)?;
    site.both(2, &[1], &[0, 7], ENOUGH, want)?;
    site.both(2, &[1, 0], &[0, 7, 0], ENOUGH, want)?;
    site.both(2, &[1, 0], &[], ENOUGH, want)
}

#[test]
fn stray_bits(rt: HostRuntime) -> Result<(), Fail> {
    let held = sample()?;
    let site = Site::new(&rt, rt.alloc(), &held);
    let first = Fault::at(Refusal::StrayBit, Layer::Batch, 0);
    let last = Fault::at(Refusal::StrayBit, Layer::Batch, 2);
    site.both(3, &[8, 0, 9], &[0, 7, 1], ENOUGH, first)?;
    site.both(3, &[7, 0, 1 << 63], &[0, 7, 1], ENOUGH, last)?;
    site.both(3, &[7, 0, 1], &[15, 7, 1], ENOUGH, first)?;
    site.both(3, &[7, 0, 1], &[0, 7, 16], ENOUGH, last)
}

#[test]
fn masks_and_cells(rt: HostRuntime) -> Result<(), Fail> {
    let held = sample()?;
    let site = Site::new(&rt, rt.alloc(), &held);
    let less = Room { masks: 5, ..ENOUGH };
    let masks = Fault::at(Refusal::TooFewWords, Layer::Set, 6);
    site.both(2, &[1, 0], &[0, 7], less, masks)?;
    let less = Room {
        cells: 11,
        ..ENOUGH
    };
    let cells = Fault::at(Refusal::TooFewWords, Layer::Set, 12);
    site.both(2, &[1, 0], &[0, 7], less, cells)
}

#[test]
fn too_few_gates(rt: HostRuntime) -> Result<(), Fail> {
    let held = sample()?;
    let site = Site::new(&rt, rt.alloc(), &held);
    let mut less = ENOUGH;
    less.gates = 2;
    let two = Fault::at(Refusal::OutOfGates, Layer::Engine, 2);
    site.both(2, &[1, 0], &[0, 7], less, two)?;
    less.gates = 0;
    let none = Fault::at(Refusal::OutOfGates, Layer::Engine, 0);
    site.both(2, &[1, 0], &[0, 7], less, none)
}

// Wrong in every way at first, and then each time in one way less.
#[test]
fn count_and_lengths_come_first(rt: HostRuntime) -> Result<(), Fail> {
    let held = sample()?;
    let site = Site::new(&rt, rt.alloc(), &held);
    let less = Room {
        masks: 5,
        cells: 11,
        gates: 2,
    };
    let count = Fault::at(Refusal::WrongCount, Layer::Batch, 0);
    site.both(0, &[1, 8, 0], &[8, 0, 0], less, count)?;
    let length = Fault::at(Refusal::WrongLength, Layer::Batch, 2);
    site.both(2, &[1, 8, 0], &[8, 0, 0], less, length)?;
    site.both(2, &[1, 8], &[8, 0, 0], less, length)?;
    let block = Fault::at(Refusal::StrayBit, Layer::Batch, 1);
    site.both(2, &[1, 8], &[8, 0], less, block)?;
    let key = Fault::at(Refusal::StrayBit, Layer::Batch, 0);
    site.both(2, &[1, 0], &[8, 0], less, key)
}

#[test]
fn room_comes_before_gates(rt: HostRuntime) -> Result<(), Fail> {
    let held = sample()?;
    let site = Site::new(&rt, rt.alloc(), &held);
    let mut less = Room {
        masks: 5,
        cells: 11,
        gates: 2,
    };
    let masks = Fault::at(Refusal::TooFewWords, Layer::Set, 6);
    site.both(2, &[1, 0], &[0, 7], less, masks)?;
    less.masks = 6;
    let cells = Fault::at(Refusal::TooFewWords, Layer::Set, 12);
    site.both(2, &[1, 0], &[0, 7], less, cells)?;
    less.cells = 12;
    let gates = Fault::at(Refusal::OutOfGates, Layer::Engine, 2);
    site.both(2, &[1, 0], &[0, 7], less, gates)
}

// Places where a block has 2 words and a key 3.
#[test]
fn wider_blocks_and_keys(rt: HostRuntime) -> Result<(), Fail> {
    let p = Params {
        n: 70,
        k: 131,
        m: 1,
        r: 1,
    };
    let set = drawn(rt.alloc(), p)?;
    let held = opened(p, &set)?;
    let site = Site::new(&rt, rt.alloc(), &held);
    let mut room = Room {
        masks: 201,
        cells: 341,
        gates: 3,
    };
    let blocks = Fault::at(Refusal::WrongLength, Layer::Batch, 4);
    site.both(2, &[1, 2, 3], &[0; 6], room, blocks)?;
    let keys = Fault::at(Refusal::WrongLength, Layer::Batch, 6);
    site.both(2, &[1, 2, 3, 4], &[0; 4], room, keys)?;
    let block = Fault::at(Refusal::StrayBit, Layer::Batch, 3);
    site.both(2, &[1, 63, 3, 64], &[0; 6], room, block)?;
    let key = Fault::at(Refusal::StrayBit, Layer::Batch, 5);
    site.both(2, &[1; 4], &[1, 2, 7, 4, 5, 8], room, key)?;
    room.masks = 200;
    let masks = Fault::at(Refusal::TooFewWords, Layer::Set, 201);
    site.both(2, &[1; 4], &[1; 6], room, masks)?;
    room.masks = 201;
    room.cells = 340;
    let cells = Fault::at(Refusal::TooFewWords, Layer::Set, 341);
    site.both(2, &[1; 4], &[1; 6], room, cells)
}
