// Where the parts of a prepared set stand in its words: all layers, all constants, all key matrices, all inverses. Leaves for the crates above, which
// know the set to be within the limits; not calls for users. They take parameters and no set, so that who has no words yet can ask too.
ghost use Rattle.std.specs.Prelude.{◌≡◌, ◌+◌, ◌*◌, ◌<◌};
ghost use Rattle.cipher.specs.Parameters.{Lawful};
ghost use Rattle.cipher.specs.Instances.{inverses_place, keys_place};
ghost use Rattle.cipher.specs.Places.{places_of};

use crate::params::Params;

// The parts of one round: its layer, its constant, its key matrix and the inverse of its layer.
#[derive(Clone, Copy)]
pub struct Places {
    pub layer: usize,
    pub constant: usize,
    pub key: usize,
    pub inverse: usize,
}

// Where the key matrices begin; the first of them is added before the rounds.
pub fn keys_from(p: Params) -> usize
    requires { Lawful p }
    ensures { result ≡ keys_place p }
{
    let n = p.n as usize;
    let r = p.r as usize;
    let w = p.block_words();
    r * (n * w) + r * w
}

// Where the inverses begin.
pub fn inverses_from(p: Params) -> usize
    requires { Lawful p }
    ensures { result ≡ inverses_place p }
{
    let n = p.n as usize;
    let r = p.r as usize;
    keys_from(p) + (r + 1) * (n * p.key_words())
}

// The places of round `i`, from 0.
pub fn at_round(p: Params, i: usize) -> Places
    requires limits { Lawful p }
    requires round { i < p.r }
    ensures { result ≡ places_of p i }
{
    let n = p.n as usize;
    let r = p.r as usize;
    let w = p.block_words();
    let square = n * w;
    let keyed = n * p.key_words();
    Places {
        layer: i * square,
        constant: r * square + i * w,
        key: keys_from(p) + (i + 1) * keyed,
        inverse: inverses_from(p) + i * square,
    }
}
