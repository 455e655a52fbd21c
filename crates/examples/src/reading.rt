// Reading: every refusal with its layer and place, and what it leaves.
use crate::lent::FRESH;
use crate::sample::{PARAMS, SAMPLE};
use bits::refusal::{Fault, Layer, Refusal};
use cipher::params::Params;
use files::reading::read;
use std::process::Abort;

// Refused at this byte of the file.
fn in_file(refusal: Refusal, place: usize) -> Fault {
    Fault::at(refusal, Layer::File, place)
}

// That a file is refused so, with the number by which users know the refusal.
fn check_fault(rt: &impl Abort, answer: Result<Params, Fault>, number: u8, want: Fault) {
    let seen = answer.err().map(|fault| fault.refusal.number());
    assert_eq!(rt; seen, Some(number));
    assert_eq!(rt; answer, Err(want));
}

// That a file is refused so, and all memory is as before.
fn check_refused(rt: &impl Abort, file: &[u8], number: u8, want: Fault) {
    let mut m = FRESH;
    let answer = read(file, &mut m.words, &mut m.witness);
    check_fault(rt, answer, number, want);
    assert_eq!(rt; m, FRESH);
}

#[test]
fn the_sample_file(rt: HostRuntime) {
    let mut m = FRESH;
    let answer = read(&SAMPLE, &mut m.words, &mut m.witness);
    assert_eq!(rt; answer, Ok(PARAMS));
    assert_eq!(rt; m.words, [2, 4, 1, 1, 1, 2, 4, 1, 2, 4, 4, 1, 2, 7]);
    assert_eq!(rt; m.witness, [9; 5]);
}

#[test]
fn refused_by_the_header(rt: HostRuntime) {
    check_refused(&rt, &SAMPLE[..7], 3, in_file(Refusal::Truncated, 7));
    let mut file = SAMPLE;
    file[0] = b'Q';
    check_refused(&rt, &file, 4, in_file(Refusal::WrongMark, 0));
    let mut file = SAMPLE;
    file[3] = 8;
    file[6] = 3;
    check_refused(
        &rt,
        &file,
        1,
        Fault::at(Refusal::ParameterOutOfRange, Layer::Set, 0),
    );
}

#[test]
fn refused_for_want_of_words(rt: HostRuntime) {
    let mut m = FRESH;
    let answer = read(&SAMPLE, &mut m.words[..12], &mut m.witness);
    check_fault(
        &rt,
        answer,
        2,
        Fault::at(Refusal::TooFewWords, Layer::Set, 13),
    );
    assert_eq!(rt; m, FRESH);
}

#[test]
fn refused_for_want_of_witness_words(rt: HostRuntime) {
    let mut m = FRESH;
    let answer = read(&SAMPLE, &mut m.words, &mut m.witness[..3]);
    check_fault(
        &rt,
        answer,
        2,
        Fault::at(Refusal::TooFewWords, Layer::Set, 4),
    );
    assert_eq!(rt; m, FRESH);
}

#[test]
fn refused_by_the_lowest_place(rt: HostRuntime) {
    check_refused(&rt, &SAMPLE[..31], 3, in_file(Refusal::Truncated, 31));
    let mut file = SAMPLE;
    file[8] = b'R';
    file[9] = b'C';
    check_refused(&rt, &file, 4, in_file(Refusal::WrongMark, 8));
    // the wrong mark of a record that is cut off, and half a mark
    check_refused(&rt, &file[..10], 4, in_file(Refusal::WrongMark, 8));
    check_refused(&rt, &file[..9], 3, in_file(Refusal::Truncated, 9));
    let mut file = SAMPLE;
    file[20] = 2;
    check_refused(&rt, &file, 5, in_file(Refusal::WrongNumber, 20));
    check_refused(&rt, &file[..21], 5, in_file(Refusal::WrongNumber, 20));
}

#[test]
fn refused_for_a_stray_bit_or_byte(rt: HostRuntime) {
    let mut file = SAMPLE;
    file[12] = 8;
    check_refused(&rt, &file, 6, in_file(Refusal::StrayBit, 12));
    check_refused(&rt, &file[..13], 6, in_file(Refusal::StrayBit, 12));
    let mut long = [0u8; 33];
    long[..32].copy_from_slice(&SAMPLE);
    check_refused(&rt, &long, 4, in_file(Refusal::WrongMark, 32));
}

#[test]
fn refused_for_a_layer_that_collapses(rt: HostRuntime) {
    let mut file = SAMPLE;
    file[11..14].copy_from_slice(&[1, 1, 4]);
    let mut m = FRESH;
    let answer = read(&file, &mut m.words, &mut m.witness);
    check_fault(
        &rt,
        answer,
        7,
        Fault::at(Refusal::LayerCollapses, Layer::Set, 1),
    );
    assert_eq!(rt; m.words, [7; 14]);
    assert_eq!(rt; m.witness, [2, 0, 0, 0, 9]);
}
