// A prepared set in memory, and what each of its rounds uses.
ghost use Rattle.std.specs.Prelude.{◌≡◌, ◌+◌, ◌*◌, ◌<◌, ◌≤◌, length};
ghost use Rattle.cipher.specs.Parameters.{Lawful, prepared_words_of};

use crate::params::Params;
use bits::matrix::Matrix;

// Parameters within the limits, and at least as many words as they ask for. What the words hold need not have been checked.
#[derive(Clone, Copy)]
pub struct Prepared<'a> {
    pub params: Params,
    pub words: &'a [u64],
    ghost lawful: { Lawful params },
    ghost room: { prepared_words_of params ≤ length words.now },
}

// What one round uses: its layer, the matrix that stands at the place of the layer's inverse, its constant and its key matrix.
#[derive(Clone, Copy)]
pub struct Round<'a> {
    pub layer: Matrix<'a>,
    pub inverse: Matrix<'a>,
    pub constant: &'a [u64],
    pub key: Matrix<'a>,
}
