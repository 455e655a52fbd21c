// Opening: every refusal, and that a refused instance holds what it held.
use crate::sample::{PARAMS, PREPARED, opened, sample};
use bits::refusal::{Fault, Layer, Refusal};
use cipher::instance::Instance;
use cipher::params::Params;
use std::process::Abort;
use std::test::Fail;

// An instance that holds the sample set refuses another, and then still holds the sample set.
fn refuses<'x>(
    rt: &impl Abort,
    set: &'x [u64],
    params: Params,
    words: &'x [u64],
    want: Fault,
) -> Result<(), Fail> {
    let mut held = opened(PARAMS, set)?;
    assert_eq!(rt; held.open(params, words), Err(want));
    assert_eq!(rt; held.params(), Some(PARAMS));
    takes_one_to(rt, &held, 6)
}

// That the set which is held takes the block 1 under the key 0 to this one.
fn takes_one_to(rt: &impl Abort, held: &Instance, to: u64) -> Result<(), Fail> {
    let mut block = [1];
    let mut work = [7; 8];
    held.encrypt(&[0], &mut block, &mut work)?;
    assert_eq!(rt; block, [to]);
    Ok(())
}

// An instance that holds one set takes in another. A word past the set is not looked at.
#[test]
fn opens_again(rt: HostRuntime) -> Result<(), Fail> {
    // the same set but for its constant, 0
    let longer = [2, 4, 1, 0, 1, 2, 4, 1, 2, 4, 4, 1, 2, 255];
    let mut held = sample()?;
    held.open(PARAMS, &longer)?;
    takes_one_to(&rt, &held, 7)
}

#[test]
fn limits_and_room(rt: HostRuntime) -> Result<(), Fail> {
    let low = Params {
        n: 2,
        k: 3,
        m: 1,
        r: 1,
    };
    let limits = Fault::at(Refusal::ParameterOutOfRange, Layer::Set, 0);
    refuses(&rt, &PREPARED, low, &PREPARED, limits)?;
    let room = Fault::at(Refusal::TooFewWords, Layer::Set, 13);
    refuses(&rt, &PREPARED, PARAMS, &PREPARED[..12], room)
}

#[test]
fn stray_bits_and_inverses(rt: HostRuntime) -> Result<(), Fail> {
    let mut stray = PREPARED;
    stray[12] = 10;
    let bit = Fault::at(Refusal::StrayBit, Layer::Set, 12);
    refuses(&rt, &PREPARED, PARAMS, &stray, bit)?;
    let mut other = PREPARED;
    other[10..].copy_from_slice(&[1, 2, 4]);
    let inverse = Fault::at(Refusal::NotInverse, Layer::Set, 1);
    refuses(&rt, &PREPARED, PARAMS, &other, inverse)
}
