// The state of a block in words, and the substitution layer on it. No function here branches or indexes on what a state holds.
ghost use Rattle.std.specs.Prelude.{◌≡◌, ◌*◌, ◌^◌, ◌<◌, ◌≤◌, length, bit_xor};
ghost use Rattle.bits.specs.Gf2.{value};
ghost use Rattle.cipher.specs.Boxes.{added, boxes};

use crate::direction::Direction;
use bits::words::{bit, fitting};

// Adds `on`, which is 0 or 1, to bit `j` of a vector.
pub(crate) fn flip(s: &mut [u64], j: usize, on: u64)
    requires place { j < 64 * length s.old }
    requires digit { on < 2 }
    ensures { value s.new ≡ bit_xor (value s.old) (on * 2 ^ j) }
{
    fitting(s);
    s[j / 64] ^= on << (j % 64);
}

// What the S-box, or its inverse, adds to each bit of a triple.
fn change(way: Direction, a: u64, b: u64, c: u64) -> (u64, u64, u64)
    ensures { result ≡ added way a b c }
{
    let (first, second) = match way {
        Direction::Encrypt => (b & c, a ^ (a & c)),
        Direction::Decrypt => (b ^ (b & c), a & c),
    };
    (first, second, a ^ b ^ (a & b))
}

// The substitution of the `m` lowest triples, or its inverse. A triple may straddle two words, so it is read and changed bit by bit.
pub(crate) fn substitute(way: Direction, s: &mut [u64], m: u16)
    requires { 3 * m ≤ 64 * length s.old }
    ensures { value s.new ≡ boxes way m (value s.old) }
{
    // By number: a triple is no part of the slice.
    for t in 0..m as usize {
        let p = 3 * t;
        let (first, second, third) = change(way, bit(s, p), bit(s, p + 1), bit(s, p + 2));
        flip(s, p, first);
        flip(s, p + 1, second);
        flip(s, p + 2, third);
    }
}
