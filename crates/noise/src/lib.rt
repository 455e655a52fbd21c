// Words that look random, and tapes of true triples made of them: for demonstrations, timing and tests. No key may come from here.
#![tactic(auto)]

ghost use Rattle.std.specs.Prelude.{◌≡◌, ◌*◌, IfOk, length, vec_len};
ghost use Rattle.engines.specs.Triples.{AllTrue};
ghost use Rattle.noise.specs.Xorshift.{first, next};

use std::alloc::{AllocError, Global};

// Xorshift on 64 bits.
#[derive(Drop)]
pub struct Noise {
    state: u64,
}

impl Noise {
    // Each starts at the same word.
    pub fn new() -> Noise
        ensures { result.state ≡ first }
    {
        Noise {
            state: 88_172_645_463_325_252,
        }
    }

    // The next word.
    pub fn word(&mut self) -> u64
        ensures { (result ≡ next self.old.state) × (self.new.state ≡ next self.old.state) }
    {
        let mut x = self.state;
        x ^= x << 13;
        x ^= x >> 7;
        x ^= x << 17;
        self.state = x;
        x
    }

    // So many words.
    pub fn words(&mut self, heap: Global, count: usize) -> Result<Vec<u64>, AllocError>
        ensures { IfOk result (λ v. vec_len v ≡ count) }
    {
        (0..count).map(|_| self.word()).collect(heap)
    }

    // A tape of true triples, as engines take it: all words but the last of each look random.
    pub fn triples(&mut self, heap: Global, count: usize) -> Result<Vec<u64>, AllocError>
        ensures size { IfOk result (λ v. vec_len v ≡ 6 * count) }
        ensures truth { IfOk result (λ v. AllTrue v.items count) }
    {
        let mut tape = Vec::new(heap);
        for _ in 0..count {
            let [a0, b0, c0, a1, b1] = [
                self.word(),
                self.word(),
                self.word(),
                self.word(),
                self.word(),
            ];
            let c1 = c0 ^ ((a0 ^ a1) & (b0 ^ b1));
            tape.extend_from_slice(&[a0, b0, c0, a1, b1, c1])?;
        }
        Ok(tape)
    }
}

#[cfg(test)]
mod tests {
    use super::*;
    use engines::share::ShareEngine;
    use std::test::Fail;

    // The words of a program in another language.
    #[test]
    fn the_first_words(rt: HostRuntime) -> Result<(), Fail> {
        let words = Noise::new().words(rt.alloc(), 2)?;
        let first = [8_748_534_153_485_358_512, 3_040_900_993_826_735_515];
        assert!(rt; words.as_slice() == first.as_slice());
        Ok(())
    }

    #[test]
    fn an_engine_takes_the_triples(rt: HostRuntime) -> Result<(), Fail> {
        let tape = Noise::new().triples(rt.alloc(), 3)?;
        let mut engine = ShareEngine::empty();
        engine.fill(&tape)?;
        Ok(())
    }
}
