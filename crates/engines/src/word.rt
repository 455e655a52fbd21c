// The plain engine: a wire is the word itself.
ghost use Rattle.std.specs.Prelude.{◌≡◌, ℕ, ◌^◌, ◌<◌, ◌≤◌};
ghost use Rattle.std.proofs.Common.{lit≤};
ghost use Rattle.engines.specs.Accounts.{new_account};

use crate::engine::{Account, Engine, Ledger};
use bits::refusal::Fault;

// A wire of 64 lanes.
#[derive(Clone, Copy)]
pub struct Word {
    bits: u64,
    ghost fits: { bits < 2 ^ 64 },
}

impl Word {
    // What is passed is known to fit, and so a literal of a sum would need a lemma where this needs none.
    fn of(bits: u64) -> Word
        ensures { result.bits ≡ bits }
    {
        Word { bits }
    }
}

// An engine that computes on the words themselves.
#[derive(Drop)]
pub struct WordEngine {
    ledger: Ledger,
}

impl WordEngine {
    // A new engine of the given capacity, with nothing granted.
    pub fn new(capacity: u32) -> WordEngine
        ensures { result.ledger.account ≡ new_account capacity }
    {
        WordEngine {
            ledger: Ledger::new(capacity),
        }
    }
}

impl Engine for WordEngine {
    type Wire = Word;

    const LANES: u32 = 64;

    ghost lanes = { 64 };

    ghost few = { (lit≤ tt, lit≤ tt) };

    ghost means = { λ w. w.bits };

    ghost within = { λ w. w.fits };

    ghost acct = { λ e. e.ledger.account };

    ghost sound = { λ e. e.ledger.kept };

    fn lanes_of() -> u32 {
        Self::LANES
    }

    fn enter(&self, word: u64, _mask: u64) -> Word {
        Word::of(word)
    }

    fn read(&self, wire: Word) -> u64 {
        wire.bits
    }

    fn add(&self, x: Word, y: Word) -> Word {
        Word::of(x.bits ^ y.bits)
    }

    fn gate(&mut self, x: Word, y: Word) -> Result<Word, Fault> {
        self.ledger = self.ledger.spend()?;
        Ok(Word::of(x.bits & y.bits))
    }

    fn grant(&mut self, g: u32) -> Result<(), Fault> {
        self.ledger = self.ledger.grant(g)?;
        Ok(())
    }

    fn account(&self) -> Account {
        self.ledger.account
    }
}

#[cfg(test)]
mod tests {
    use super::*;
    use bits::refusal::{Layer, Refusal};
    use std::test::Fail;

    #[test]
    fn refuses_past_its_counts(rt: HostRuntime) -> Result<(), Fail> {
        let mut engine = WordEngine::new(7);
        let x = engine.enter(6, 0);
        let y = engine.enter(3, 0);
        assert_eq!(rt;
            engine.gate(x, y).err(),
            Some(Fault::at(Refusal::OutOfGates, Layer::Engine, 0))
        );
        assert_eq!(rt;
            engine.grant(8),
            Err(Fault::at(Refusal::OverCapacity, Layer::Engine, 7))
        );
        engine.grant(7)?;
        let z = engine.gate(x, y)?;
        assert_eq!(rt; engine.read(z), 2);
        assert_eq!(rt; engine.account().done, 1);
        Ok(())
    }
}
