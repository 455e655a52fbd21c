// One block: there and back, every refusal, and that the work words read 0 after each call.
use crate::sample::sample;
use bits::refusal::{Fault, Layer, Refusal};
use cipher::instance::Instance;
use std::process::Abort;
use std::test::Fail;

// The sample set takes a block to another and back, and the work words, one more than are wanted, read 0.
fn goes(rt: &impl Abort, key: u64, from: u64, to: u64) -> Result<(), Fail> {
    let held = sample()?;
    let mut block = [from];
    let mut work = [7; 9];
    held.encrypt(&[key], &mut block, &mut work)?;
    assert_eq!(rt; block, [to]);
    assert_eq!(rt; work, [0; 9]);
    held.decrypt(&[key], &mut block, &mut work)?;
    assert_eq!(rt; block, [from]);
    assert_eq!(rt; work, [0; 9]);
    Ok(())
}

#[test]
fn there_and_back(rt: HostRuntime) -> Result<(), Fail> {
    goes(&rt, 0, 1, 6)?;
    goes(&rt, 0, 0, 1)?;
    goes(&rt, 7, 0, 7)
}

// A refused call leaves the block, and its 8 work words read 0.
fn refuses<const N: usize>(
    rt: &impl Abort,
    held: &Instance,
    key: &[u64],
    block: [u64; N],
    want: Fault,
) {
    let mut after = block;
    let mut work = [7; 8];
    assert_eq!(rt; held.encrypt(key, &mut after, &mut work), Err(want));
    assert!(rt; after.as_slice() == block.as_slice());
    assert_eq!(rt; work, [0; 8]);
}

#[test]
fn nothing_is_held(rt: HostRuntime) {
    let none = Fault::at(Refusal::NoInstance, Layer::Batch, 0);
    refuses(&rt, &Instance::empty(), &[0], [5], none);
}

#[test]
fn lengths_and_stray_bits(rt: HostRuntime) -> Result<(), Fail> {
    let held = sample()?;
    let length = Fault::at(Refusal::WrongLength, Layer::Batch, 1);
    let stray = Fault::at(Refusal::StrayBit, Layer::Batch, 0);
    refuses(&rt, &held, &[0, 0], [5], length);
    refuses(&rt, &held, &[8], [5], stray);
    refuses(&rt, &held, &[0], [5, 0], length);
    refuses(&rt, &held, &[0], [8], stray);
    Ok(())
}

#[test]
fn seven_work_words(rt: HostRuntime) -> Result<(), Fail> {
    let held = sample()?;
    let mut block = [5];
    let mut work = [7; 7];
    let want = Fault::at(Refusal::TooFewWords, Layer::Set, 8);
    assert_eq!(rt; held.decrypt(&[0], &mut block, &mut work), Err(want));
    assert_eq!(rt; block, [5]);
    assert_eq!(rt; work, [0; 7]);
    Ok(())
}
