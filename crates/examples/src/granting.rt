// Accounts: grants past the capacity, gates past the grants, and a run of batches until the gates are spent.
use crate::agreeing::Lot;
use crate::lent::{cells, filled};
use crate::sample::sample;
use batches::batch::encrypt;
use bits::refusal::{Fault, Layer, Refusal};
use cipher::instance::Instance;
use engines::engine::{Account, Engine};
use engines::word::WordEngine;
use noise::Noise;
use std::alloc::Global;
use std::process::Abort;
use std::test::Fail;

// The account of an engine of 7 gates.
fn seven(granted: u32, done: u32) -> Account {
    Account {
        capacity: 7,
        granted,
        done,
    }
}

// That a gate is refused, and the account stays.
fn no_gate<E: Engine>(rt: &impl Abort, engine: &mut E, account: Account) {
    let x = engine.enter(6, 5);
    let y = engine.enter(3, 9);
    let none = Fault::at(Refusal::OutOfGates, Layer::Engine, 0);
    assert_eq!(rt; engine.gate(x, y).err(), Some(none));
    assert_eq!(rt; engine.account(), account);
}

// That gates are granted by the books: 8 of 7 not, 5 of 7, then 3 of the 2 that are left not.
fn grants<E: Engine>(rt: &impl Abort, engine: &mut E) -> Result<(), Fail> {
    let seventh = Fault::at(Refusal::OverCapacity, Layer::Engine, 7);
    assert_eq!(rt; engine.grant(8), Err(seventh));
    assert_eq!(rt; engine.account(), seven(0, 0));
    no_gate(rt, engine, seven(0, 0));
    engine.grant(5)?;
    let second = Fault::at(Refusal::OverCapacity, Layer::Engine, 2);
    assert_eq!(rt; engine.grant(3), Err(second));
    assert_eq!(rt; engine.account(), seven(5, 0));
    Ok(())
}

// That 5 gates multiply, and no sixth.
fn spends<E: Engine>(rt: &impl Abort, engine: &mut E) -> Result<(), Fail> {
    let x = engine.enter(6, 5);
    let y = engine.enter(3, 9);
    for _ in 0..5u32 {
        let z = engine.gate(x, y)?;
        assert_eq!(rt; engine.read(z), 2);
    }
    no_gate(rt, engine, seven(5, 5));
    Ok(())
}

#[test]
fn whole_words(rt: HostRuntime) -> Result<(), Fail> {
    let mut engine = WordEngine::new(7);
    grants(&rt, &mut engine)?;
    spends(&rt, &mut engine)
}

#[test]
fn shares(rt: HostRuntime) -> Result<(), Fail> {
    let tape = Noise::new().triples(rt.alloc(), 7)?;
    let mut engine = filled(&tape)?;
    grants(&rt, &mut engine)?;
    spends(&rt, &mut engine)
}

// Encrypts the blocks 1 and 0 under the keys 0 and 7.
fn accepted<E: Engine>(
    rt: &impl Abort,
    heap: Global,
    engine: &mut E,
    held: &Instance,
) -> Result<(), Fail> {
    let mut blocks = [1, 0];
    let mut wires = cells(heap, engine, 12)?;
    encrypt(engine, held, 2, &mut blocks, &[0, 7], &[5; 6], &mut wires)?;
    assert_eq!(rt; blocks, [6, 7]);
    Ok(())
}

// Three batches of 3 gates from an engine of 7: the third is refused.
fn run<E: Engine>(rt: &impl Abort, heap: Global, engine: &mut E) -> Result<(), Fail> {
    let held = sample()?;
    engine.grant(7)?;
    accepted(rt, heap, engine, &held)?;
    assert_eq!(rt; engine.account(), seven(7, 3));
    accepted(rt, heap, engine, &held)?;
    assert_eq!(rt; engine.account(), seven(7, 6));
    let third = Lot {
        held: &held,
        count: 2,
        blocks: &[1, 0],
        keys: &[0, 7],
        masks: &[5; 6],
    };
    third.wants_gates(rt, heap, engine, 1)?;
    assert_eq!(rt; engine.account(), seven(7, 6));
    Ok(())
}

#[test]
fn three_batches_on_words(rt: HostRuntime) -> Result<(), Fail> {
    run(&rt, rt.alloc(), &mut WordEngine::new(7))
}

#[test]
fn three_batches_on_shares(rt: HostRuntime) -> Result<(), Fail> {
    let tape = Noise::new().triples(rt.alloc(), 7)?;
    let mut engine = filled(&tape)?;
    run(&rt, rt.alloc(), &mut engine)
}
