// The parameters of a LowMC set.
ghost use Rattle.std.specs.Prelude.{◌≡◌};
ghost use Rattle.cipher.specs.Parameters.{block_words_of, gates_of, key_words_of, limits, prepared_words_of};

use bits::refusal::{Fault, Layer, Refusal};
use bits::words::width;

// Block bits, key bits, triples in the substitution layer, and rounds. Any values may stand here: `check` has the limits.
#[derive(Clone, Copy, PartialEq, Eq, Debug)]
pub struct Params {
    pub n: u16,
    pub k: u16,
    pub m: u16,
    pub r: u16,
}

impl Params {
    // Refuses parameters outside the limits: n from 3 to 256, k from 1 to 256, m at least 1 with 3m at most n, r from 1 to 255.
    pub fn check(self) -> Result<(), Fault>
        ensures { result ≡ limits self }
    {
        let block = (3..=256).contains(&self.n);
        let key = (1..=256).contains(&self.k);
        let triples = 1 <= self.m && 3 * u32::from(self.m) <= u32::from(self.n);
        let rounds = (1..=255).contains(&self.r);
        if block && key && triples && rounds {
            Ok(())
        } else {
            Err(Fault::at(Refusal::ParameterOutOfRange, Layer::Set, 0))
        }
    }

    // Words of a block.
    pub fn block_words(self) -> usize
        ensures { result ≡ block_words_of self }
    {
        width(self.n as usize)
    }

    // Words of a key.
    pub fn key_words(self) -> usize
        ensures { result ≡ key_words_of self }
    {
        width(self.k as usize)
    }

    // Words of a prepared set: layers and their inverses, constants, key matrices.
    pub fn prepared_words(self) -> usize
        ensures { result ≡ prepared_words_of self }
    {
        let n = self.n as usize;
        let r = self.r as usize;
        let w = self.block_words();
        let v = self.key_words();
        2 * (r * (n * w)) + r * w + (r + 1) * (n * v)
    }

    // AND gates of one encryption or decryption.
    pub fn gates(self) -> u64
        ensures { result ≡ gates_of self }
    {
        3 * u64::from(self.m) * u64::from(self.r)
    }
}
