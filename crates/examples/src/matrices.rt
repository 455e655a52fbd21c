// Products, rows and inverses in words.
use bits::elimination::{Singular, invert};
use bits::matrix::{Matrix, independent, product};
use bits::words::{lowest_one, parity};

#[test]
fn inverts(rt: HostRuntime) {
    let mut inverse = [0; 3];
    let mut witness = [9];
    let layer = Matrix::new(&[2, 4, 1], 1, 3);
    assert_eq!(rt; invert(layer, &mut inverse, &mut witness), Ok(()));
    assert_eq!(rt; inverse, [4, 1, 2]);
    assert_eq!(rt; witness, [9]);
}

#[test]
fn names_a_witness(rt: HostRuntime) {
    let mut inverse = [9; 3];
    let mut witness = [9];
    let layer = Matrix::new(&[1, 1, 4], 1, 3);
    assert_eq!(rt; invert(layer, &mut inverse, &mut witness), Err(Singular));
    assert_eq!(rt; inverse, [9, 9, 9]);
    assert_eq!(rt; witness, [2]);
}

#[test]
fn multiplies(rt: HostRuntime) {
    let mut out = [7];
    product(Matrix::new(&[9, 3, 6, 5][1..], 1, 3), &[5], &mut out);
    assert_eq!(rt; out, [3]);
}

#[test]
fn tells_rows_apart(rt: HostRuntime) {
    assert!(rt; !independent(Matrix::new(&[3, 0, 6, 0, 5, 0], 2, 3)));
    assert!(rt; independent(Matrix::new(&[3, 0, 6, 1, 5, 0], 2, 3)));
}

#[test]
fn reads_words(rt: HostRuntime) {
    assert_eq!(rt; parity(&[7, 1], &[3]), 0);
    assert_eq!(rt; parity(&[4], &[4, 1]), 1);
    assert_eq!(rt; lowest_one(&[0, 8]), Some(67));
}
