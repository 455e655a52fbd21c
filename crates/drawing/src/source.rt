// Where bits come from.
ghost use Rattle.drawing.specs.Streams.{Asked, Bits, Stream};

// A source of bits, which may run dry. Its meaning is the bits still to come, each 0 or 1.
pub trait BitSource {
    ghost meaning: { Self → Stream };

    ghost digits: { (s : Self) → Bits (meaning s) };

    // The next bit, which is then gone by; or nothing where there is none, and then nothing moves.
    fn next(&mut self) -> Option<u8>
        ensures { Asked meaning self.old self.new result };
}
