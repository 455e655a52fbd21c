// Stepping: what the reader hands out, and that a refused step moves nothing.
use crate::sample::SAMPLE;
use bits::refusal::{Fault, Layer, Refusal};
use files::reader::{Mark, Reader};
use std::process::Abort;
use std::test::Fail;

// That the next record is this one, which each caller writes on one line: so its fields come one by one.
fn check_step(
    rt: &impl Abort,
    reader: &mut Reader,
    mark: Mark,
    number: u8,
    offset: usize,
    size: usize,
) -> Result<(), Fail> {
    let record = reader.step()?.ok_or("no record is left")?;
    assert_eq!(rt; record.mark, mark);
    assert_eq!(rt; record.number, number);
    assert_eq!(rt; record.offset, offset);
    assert_eq!(rt; record.body.len(), size);
    Ok(())
}

// That the next step is refused so, with the number by which users know the refusal.
fn check_stop(rt: &impl Abort, reader: &mut Reader, number: u8, refusal: Refusal, place: usize) {
    let want = Fault::at(refusal, Layer::File, place);
    let stop = reader.step().err();
    let seen = stop.map(|fault| fault.refusal.number());
    assert_eq!(rt; seen, Some(number));
    assert_eq!(rt; stop, Some(want));
}

#[test]
fn over_the_sample_file(rt: HostRuntime) -> Result<(), Fail> {
    let mut reader = Reader::new(&SAMPLE);
    check_step(&rt, &mut reader, Mark::Header, 0, 2, 6)?;
    check_step(&rt, &mut reader, Mark::Layer, 1, 11, 3)?;
    check_step(&rt, &mut reader, Mark::Constant, 1, 17, 1)?;
    check_step(&rt, &mut reader, Mark::Key, 0, 21, 3)?;
    check_step(&rt, &mut reader, Mark::Key, 1, 27, 3)?;
    check_step(&rt, &mut reader, Mark::End, 0, 32, 0)?;
    assert!(rt; reader.step()?.is_none());
    Ok(())
}

#[test]
fn a_refused_step_moves_nothing(rt: HostRuntime) -> Result<(), Fail> {
    let mut file = SAMPLE;
    file[10] = 2;
    let mut reader = Reader::new(&file);
    check_step(&rt, &mut reader, Mark::Header, 0, 2, 6)?;
    check_stop(&rt, &mut reader, 5, Refusal::WrongNumber, 10);
    check_stop(&rt, &mut reader, 5, Refusal::WrongNumber, 10);
    // a step asks first that the record is whole
    let mut reader = Reader::new(&file[..13]);
    check_step(&rt, &mut reader, Mark::Header, 0, 2, 6)?;
    check_stop(&rt, &mut reader, 3, Refusal::Truncated, 13);
    Ok(())
}

#[test]
fn a_byte_after_the_end_refuses_the_end(rt: HostRuntime) -> Result<(), Fail> {
    let mut long = [0u8; 33];
    long[..32].copy_from_slice(&SAMPLE);
    let mut reader = Reader::new(&long);
    check_step(&rt, &mut reader, Mark::Header, 0, 2, 6)?;
    check_step(&rt, &mut reader, Mark::Layer, 1, 11, 3)?;
    check_step(&rt, &mut reader, Mark::Constant, 1, 17, 1)?;
    check_step(&rt, &mut reader, Mark::Key, 0, 21, 3)?;
    check_step(&rt, &mut reader, Mark::Key, 1, 27, 3)?;
    check_stop(&rt, &mut reader, 4, Refusal::WrongMark, 32);
    Ok(())
}
