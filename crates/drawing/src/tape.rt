// Bits from bytes that are lent.
ghost use Rattle.std.specs.Prelude.{◌≡◌, ℕ, ◌+◌, ◌<◌};
ghost use Rattle.drawing.specs.Streams.{tape};
ghost use Rattle.drawing.specs.Digits.{tape_digits};

use crate::source::BitSource;

// The bits of its bytes, lowest first: of the bytes that are left, the next is bit `bit` of the first.
#[derive(Drop)]
pub struct TapeSource<'a> {
    bytes: &'a [u8],
    bit: u8,
    ghost within: { bit < 8 },
}

impl<'a> TapeSource<'a> {
    // At the first bit of the bytes.
    pub fn new(bytes: &'a [u8]) -> TapeSource<'a>
        ensures { (result.bytes.now ≡ bytes.now) × (result.bit ≡ 0) }
    {
        TapeSource { bytes, bit: 0 }
    }
}

impl<'a> BitSource for TapeSource<'a> {
    ghost meaning = { λ s i. tape s.bytes.now (s.bit + i) };

    ghost digits = { λ s i. tape_digits s.bytes.now (s.bit + i) };

    fn next(&mut self) -> Option<u8> {
        let (first, rest) = self.bytes.split_first()?;
        let b = (*first >> self.bit) % 2;
        if self.bit < 7 {
            self.bit += 1;
        } else {
            self.bit = 0;
            self.bytes = rest;
        }
        Some(b)
    }
}
