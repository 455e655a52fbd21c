// The parts of a prepared set, each by its own name.
ghost use Rattle.std.specs.Prelude.{◌≡◌, ◌+◌, ◌*◌, ◌<◌, ◌≤◌, length};
ghost use Rattle.bits.specs.Matrices.{rows_in};
ghost use Rattle.cipher.specs.Parameters.{Lawful, key_words_of, prepared_words_of};
ghost use Rattle.cipher.specs.Instances.{keys_place};
ghost use Rattle.cipher.specs.Places.{matrix_at};
ghost use Rattle.cipher.specs.Parts.{PartsOf};

use crate::params::Params;
use crate::places::{at_round, keys_from};
use crate::prepared::{Prepared, Round};
use bits::matrix::Matrix;

impl<'a> Prepared<'a> {
    // A set that is lent with its parameters.
    pub fn new(params: Params, words: &'a [u64]) -> Prepared<'a>
        requires limits { Lawful params }
        requires room { prepared_words_of params ≤ length words.now }
        ensures { (result.params ≡ params) × (result.words.now ≡ words.now) }
    {
        Prepared { params, words }
    }

    // The matrix with a row for each block bit, of `width` words, that stands at a place.
    fn matrix_at(self, at: usize, width: usize) -> Matrix<'a>
        requires { at + self.params.n * width ≤ length self.words.now }
        ensures rows { rows_in result ≡ matrix_at width self.entry.params.n at self.entry.words.now }
        ensures shape { (result.width ≡ width) × (result.height ≡ self.entry.params.n) }
    {
        Matrix::new(&self.words[at..], width, self.params.n as usize)
    }

    // The key matrix that is used before the rounds.
    pub fn first_key(self) -> Matrix<'a>
        ensures rows { rows_in result ≡ matrix_at (key_words_of self.entry.params) self.entry.params.n (keys_place self.entry.params) self.entry.words.now }
        ensures shape { (result.width ≡ key_words_of self.entry.params) × (result.height ≡ self.entry.params.n) }
    {
        self.matrix_at(keys_from(self.params), self.params.key_words())
    }

    // What round `i`, from 0, uses.
    pub fn round(self, i: usize) -> Round<'a>
        requires { i < self.params.r }
        ensures { PartsOf self.entry.params self.entry.words.now i result }
    {
        let at = at_round(self.params, i);
        let w = self.params.block_words();
        Round {
            layer: self.matrix_at(at.layer, w),
            inverse: self.matrix_at(at.inverse, w),
            constant: &self.words[at.constant..at.constant + w],
            key: self.matrix_at(at.key, self.params.key_words()),
        }
    }
}
