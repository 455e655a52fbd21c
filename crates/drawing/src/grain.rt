// Bits from a register that makes its own: a self-shrinking generator over a linear feedback shift register.
ghost use Rattle.std.specs.Prelude.{◌≡◌, ℕ, ◌^◌, ◌<◌};
ghost use Rattle.drawing.specs.Grain.{GrainExample, begun, grain, new_bit_of, shift};
ghost use Rattle.drawing.specs.Digits.{grain_digits};

use crate::source::BitSource;

// The last 80 bits, the oldest lowest. They are never all 0, since from there on only 0 would come.
#[derive(Drop)]
pub struct GrainSource {
    register: u128,
    ghost some: { 0 < register },
    ghost within: { register < 2 ^ 80 },
}

// The bit that comes next: b(i + 80) = b(i + 62) + b(i + 51) + b(i + 38) + b(i + 23) + b(i + 13) + b(i), modulo 2.
fn new_bit(s: u128) -> u128
    ensures { result ≡ new_bit_of s }
{
    (s >> 62) % 2 ^ (s >> 51) % 2 ^ (s >> 38) % 2 ^ (s >> 23) % 2 ^ (s >> 13) % 2 ^ s % 2
}

impl GrainSource {
    // All bits 1 at first; the first 160 new bits are dropped.
    pub fn new() -> GrainSource
        ensures { result.register ≡ begun }
    {
        let mut source = GrainSource {
            register: (1 << 80) - 1,
        };
        for _i in 0..160usize {
            source.step();
        }
        source
    }

    // Moves the register one bit on: the new bit.
    fn step(&mut self) -> u128
        ensures bit { result ≡ new_bit_of self.old.register }
        ensures moved { self.new.register ≡ shift self.old.register }
    {
        let bit = new_bit(self.register);
        self.register = self.register / 2 + (bit << 79);
        bit
    }
}

impl BitSource for GrainSource {
    ghost meaning = { λ s. grain s.register };

    ghost digits = { λ s. grain_digits s.register };

    // New bits come in pairs: a pair that begins with 1 gives its second bit, another gives nothing.
    fn next(&mut self) -> Option<u8> {
        let mut ahead = GrainSource {
            register: self.register,
        };
        for _pair in 0..80usize {
            let first = ahead.step();
            let second = ahead.step();
            if first == 1 {
                *self = ahead;
                return Some(second as u8);
            }
        }
        None
    }
}

// The first eighteen new bits are 0, and the nineteenth is 1.
pub fn grain_stands()
    ensures { GrainExample }
{}
