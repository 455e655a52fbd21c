// Two lists of calls, one on whole words and one on shares, and a set file: answers, blocks, cells and accounts.
use crate::lent::{FRESH, Lent, cells, check_cleared, filled};
use crate::sample::{PARAMS, SAMPLE, sample};
use bits::refusal::{Fault, Layer, Refusal};
use cipher::instance::Instance;
use cipher::params::Params;
use engines::engine::{Account, Engine};
use engines::share::{ShareEngine, Shares};
use engines::word::{Word, WordEngine};
use noise::Noise;
use sittings::entry::{Batch, Call, Entry};
use sittings::two::run_two;
use std::alloc::{AllocError, Global};
use std::process::Abort;
use std::test::Fail;

// Adds a call, not made yet.
fn ask<'x, W: Copy>(list: &mut Vec<Entry<'x, W>>, call: Call<'x, W>) -> Result<(), AllocError> {
    list.push(Entry { call, answer: None })?;
    Ok(())
}

// A batch for an engine of some kind, with room for it: each block is one word.
fn batch<'x, E: Engine>(
    heap: Global,
    engine: &E,
    held: Instance<'x>,
    blocks: &[u64],
    keys: &[u64],
) -> Result<Batch<'x, E::Wire>, Fail> {
    Ok(Batch {
        held,
        count: blocks.len(),
        blocks: blocks.to_vec(heap)?,
        keys: keys.to_vec(heap)?,
        masks: vec![in heap; 5u64; 6]?,
        cells: cells(heap, engine, 12)?,
    })
}

// Six calls for an engine of 7 gates: the first, the fourth and the last are refused.
fn first_list(heap: Global, e: &WordEngine) -> Result<Vec<Entry<'static, Word>>, Fail> {
    let mut list = Vec::new(heap);
    let there = batch(heap, e, sample()?, &[1, 0, 0], &[0, 0, 7])?;
    let none = batch(heap, e, Instance::empty(), &[1], &[0])?;
    let back = batch(heap, e, sample()?, &[7, 6], &[7, 0])?;
    let late = batch(heap, e, sample()?, &[1], &[0])?;
    ask(&mut list, Call::Grant(8))?;
    ask(&mut list, Call::Grant(7))?;
    ask(&mut list, Call::Encrypt(there))?;
    ask(&mut list, Call::Decrypt(none))?;
    ask(&mut list, Call::Decrypt(back))?;
    ask(&mut list, Call::Encrypt(late))?;
    Ok(list)
}

// Five calls for an engine of 6 triples: the first and the third are refused.
fn second_list(heap: Global, e: &ShareEngine) -> Result<Vec<Entry<'static, Shares>>, Fail> {
    let mut list = Vec::new(heap);
    let early = batch(heap, e, sample()?, &[1], &[0])?;
    let stray = batch(heap, e, sample()?, &[1, 9], &[0, 0])?;
    let there = batch(heap, e, sample()?, &[0, 1], &[7, 0])?;
    let back = batch(heap, e, sample()?, &[1, 7, 6], &[0, 7, 0])?;
    ask(&mut list, Call::Encrypt(early))?;
    ask(&mut list, Call::Grant(6))?;
    ask(&mut list, Call::Decrypt(stray))?;
    ask(&mut list, Call::Decrypt(back))?;
    ask(&mut list, Call::Encrypt(there))?;
    Ok(list)
}

// That a batch has these blocks, and its cells carry 0 where it was accepted, else what they carried before.
fn left<E: Engine>(
    rt: &impl Abort,
    engine: &E,
    batch: &Batch<'_, E::Wire>,
    accepted: bool,
    blocks: &[u64],
) {
    assert!(rt; batch.blocks.as_slice() == blocks);
    check_cleared(rt, engine, &batch.cells, if accepted { 12 } else { 0 });
}

// That an entry has this answer, and its batch these blocks; a grant has none.
fn has<E: Engine>(
    rt: &impl Abort,
    engine: &E,
    entry: &Entry<'_, E::Wire>,
    answer: Result<(), Fault>,
    blocks: &[u64],
) {
    assert_eq!(rt; entry.answer, Some(answer));
    match &entry.call {
        Call::Grant(_) => assert!(rt; blocks.is_empty()),
        Call::Encrypt(batch) | Call::Decrypt(batch) => {
            left(rt, engine, batch, answer.is_ok(), blocks)
        }
    }
}

fn check_first(rt: &impl Abort, e: &WordEngine, list: &[Entry<'_, Word>]) {
    assert!(rt; list.len() == 6);
    let full = Fault::at(Refusal::OverCapacity, Layer::Engine, 7);
    let none = Fault::at(Refusal::NoInstance, Layer::Batch, 0);
    let late = Fault::at(Refusal::OutOfGates, Layer::Engine, 1);
    has(rt, e, &list[0], Err(full), &[]);
    has(rt, e, &list[1], Ok(()), &[]);
    has(rt, e, &list[2], Ok(()), &[6, 1, 7]);
    has(rt, e, &list[3], Err(none), &[1]);
    has(rt, e, &list[4], Ok(()), &[0, 1]);
    has(rt, e, &list[5], Err(late), &[1]);
}

fn check_second(rt: &impl Abort, e: &ShareEngine, list: &[Entry<'_, Shares>]) {
    assert!(rt; list.len() == 5);
    let early = Fault::at(Refusal::OutOfGates, Layer::Engine, 0);
    let stray = Fault::at(Refusal::StrayBit, Layer::Batch, 1);
    has(rt, e, &list[0], Err(early), &[1]);
    has(rt, e, &list[1], Ok(()), &[]);
    has(rt, e, &list[2], Err(stray), &[1, 9]);
    has(rt, e, &list[3], Ok(()), &[0, 0, 1]);
    has(rt, e, &list[4], Ok(()), &[7, 6]);
}

fn books(capacity: u32, granted: u32, done: u32) -> Account {
    Account {
        capacity,
        granted,
        done,
    }
}

// Runs both lists and reads the file, which is answered so; the lists leave the same whatever the file is. The memory that reading leaves is given back.
fn sit(
    rt: &impl Abort,
    heap: Global,
    file: &[u8],
    want: Result<Params, Fault>,
) -> Result<Lent, Fail> {
    let tape = Noise::new().triples(heap, 6)?;
    let mut first = WordEngine::new(7);
    let mut second = filled(&tape)?;
    let mut list = first_list(heap, &first)?;
    let mut other = second_list(heap, &second)?;
    let mut lent = FRESH;
    let answer = run_two(
        &mut first,
        &mut list,
        &mut second,
        &mut other,
        file,
        &mut lent.words,
        &mut lent.witness,
    );
    assert_eq!(rt; answer, want);
    check_first(rt, &first, &list);
    check_second(rt, &second, &other);
    assert_eq!(rt; first.account(), books(7, 7, 6));
    assert_eq!(rt; second.account(), books(6, 6, 6));
    Ok(lent)
}

#[test]
fn two_lists_and_the_sample_file(rt: HostRuntime) -> Result<(), Fail> {
    let lent = sit(&rt, rt.alloc(), &SAMPLE, Ok(PARAMS))?;
    assert_eq!(rt; lent.words, [2, 4, 1, 1, 1, 2, 4, 1, 2, 4, 4, 1, 2, 7]);
    assert_eq!(rt; lent.witness, [9; 5]);
    Ok(())
}

#[test]
fn two_lists_and_a_file_that_collapses(rt: HostRuntime) -> Result<(), Fail> {
    let mut file = SAMPLE;
    file[11..14].copy_from_slice(&[1, 1, 4]);
    let want = Fault::at(Refusal::LayerCollapses, Layer::Set, 1);
    let lent = sit(&rt, rt.alloc(), &file, Err(want))?;
    assert_eq!(rt; lent.words, [7; 14]);
    assert_eq!(rt; lent.witness, [2, 0, 0, 0, 9]);
    Ok(())
}
