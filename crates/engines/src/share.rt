// The engine on shares: a wire is two words whose sum is the word that it carries, and each gate spends a triple of a tape.
ghost use Rattle.std.specs.Prelude.{◌≡◌, ℕ, ◌+◌, ◌-◌, ◌*◌, ◌/◌, ◌%◌, ◌^◌, ◌<◌, ◌≤◌, length, IfOk, MatchResult, bit_and, bit_xor};
ghost use Rattle.std.proofs.lemmas.Nat.{xor_lt};
ghost use Rattle.std.proofs.Common.{lit≤};
ghost use Rattle.engines.specs.Accounts.{new_account, Spent, Dry, Granted, Full};
ghost use Rattle.engines.specs.Triples.{AllTrue, IsTrueTriple, WorkedExample, check_from, filling, shares_of, triple_of, truth};

use crate::engine::{Account, Engine, Ledger};
use bits::refusal::{Fault, Layer, Refusal};

// The longest tape, in words.
const MOST_WORDS: usize = 393_216;

// The tape of an engine that was not filled.
static NO_WORDS: [u64; 0] = [];

// A wire of 64 lanes: two words whose sum it carries.
#[derive(Clone, Copy)]
pub struct Shares {
    s0: u64,
    s1: u64,
    ghost fits: { (s0 < 2 ^ 64) × (s1 < 2 ^ 64) },
}

impl Shares {
    // What is passed is known to fit, and so a literal of sums would need a lemma where this needs none.
    fn of(s0: u64, s1: u64) -> Shares
        ensures { (result.s0 ≡ s0) × (result.s1 ≡ s1) }
    {
        Shares { s0, s1 }
    }
}

// Random a and b and their product c, each in two shares.
#[derive(Clone, Copy)]
pub struct Triple {
    pub a0: u64,
    pub b0: u64,
    pub c0: u64,
    pub a1: u64,
    pub b1: u64,
    pub c1: u64,
}

// An engine with a tape of triples, none of them false. Its capacity is their number.
#[derive(Drop)]
pub struct ShareEngine<'a> {
    tape: &'a [u64],
    ledger: Ledger,
    ghost counted: { 6 * ledger.account.capacity ≡ length tape.now },
    ghost truthful: { AllTrue tape.now ledger.account.capacity },
}

// The triple number j of a tape.
fn triple_at(tape: &[u64], j: usize) -> Triple
    requires { 6 * j + 6 ≤ length tape.now }
    ensures { result ≡ triple_of tape.now j }
{
    let [a0, b0, c0, a1, b1, c1] = *tape[6 * j..].first_chunk::<6>().unwrap();
    Triple {
        a0,
        b0,
        c0,
        a1,
        b1,
        c1,
    }
}

impl Triple {
    // Whether c is the product of a and b.
    pub fn is_true(self) -> bool
        ensures { result ≡ truth self }
    {
        self.c0 ^ self.c1 == (self.a0 ^ self.a1) & (self.b0 ^ self.b1)
    }
}

// Refuses the first false triple of a tape.
fn check_triples(tape: &[u64]) -> Result<(), Fault>
    ensures answer { result ≡ check_from tape.now 0 (length tape.now / 6) }
    ensures meaning { MatchResult result (λ _. AllTrue tape.now (length tape.now / 6)) (λ f. AllTrue tape.now f.place × (f.place < length tape.now / 6) × (IsTrueTriple (triple_of tape.now f.place) → ⊥)) }
{
    match (0..tape.len() / 6).find(|&j| !triple_at(tape, j).is_true()) {
        Some(j) => Err(Fault::at(Refusal::BadTriples, Layer::Engine, j)),
        None => Ok(()),
    }
}

// The two shares of a product. Each side publishes its shares of d = x + a and of e = y + b, and computes the rest apart.
pub fn product(x: Shares, y: Shares, triple: Triple) -> Shares
    ensures shares { (result.s0, result.s1) ≡ shares_of (x.s0, x.s1) (y.s0, y.s1) triple }
    ensures meaning { IsTrueTriple triple → bit_xor result.s0 result.s1 ≡ bit_and (bit_xor x.s0 x.s1) (bit_xor y.s0 y.s1) }
{
    let d = (x.s0 ^ triple.a0) ^ (x.s1 ^ triple.a1);
    let e = (y.s0 ^ triple.b0) ^ (y.s1 ^ triple.b1);
    let s0 = triple.c0 ^ (d & triple.b0) ^ (e & triple.a0) ^ (d & e);
    let s1 = triple.c1 ^ (d & triple.b1) ^ (e & triple.a1);
    Shares::of(s0, s1)
}

// A worked example of a product, as a fact that this crate is refused without.
pub fn worked_example_stands()
    ensures { WorkedExample }
{}

impl<'a> ShareEngine<'a> {
    // An engine with no triples.
    pub fn empty() -> ShareEngine<'a>
        ensures { result.ledger.account ≡ new_account 0 }
    {
        ShareEngine {
            tape: &NO_WORDS,
            ledger: Ledger::new(0),
        }
    }

    // Takes a tape of triples, a0 b0 c0 a1 b1 c1 each, and is then a new engine. Refused, it is as it was: a tape that has no
    // whole number of triples, or is too long; then one with a false triple.
    pub fn fill(&mut self, tape: &'a [u64]) -> Result<(), Fault>
        ensures answer { result ≡ filling tape.now }
        ensures after { MatchResult result (λ _. (self.new.ledger.account ≡ new_account (length tape.now / 6)) × (self.new.tape.now ≡ tape.now)) (λ _. self.new ≡ self.old) }
    {
        let triples = tape.len() / 6;
        if !tape.len().is_multiple_of(6) || tape.len() > MOST_WORDS {
            return Err(Fault::at(Refusal::BadTriples, Layer::Engine, triples));
        }
        check_triples(tape)?;
        self.tape = tape;
        self.ledger = Ledger::new(triples as u32);
        Ok(())
    }
}

impl<'a> Engine for ShareEngine<'a> {
    type Wire = Shares;

    const LANES: u32 = 64;

    ghost lanes = { 64 };

    ghost few = { (lit≤ tt, lit≤ tt) };

    ghost means = { λ w. bit_xor w.s0 w.s1 };

    ghost within = { λ w. xor_lt 64 w.s0 w.s1 w.fits.0 w.fits.1 };

    ghost acct = { λ e. e.ledger.account };

    ghost sound = { λ e. e.ledger.kept };

    fn lanes_of() -> u32
        ensures { result ≡ 64 }
    {
        Self::LANES
    }

    // The shares are the mask and the word hidden by it.
    fn enter(&self, word: u64, mask: u64) -> Shares
        ensures meaning { bit_xor result.s0 result.s1 ≡ word % 2 ^ 64 }
        ensures shares { (result.s0 ≡ mask) × (result.s1 ≡ bit_xor word mask) }
    {
        Shares::of(mask, word ^ mask)
    }

    fn read(&self, wire: Shares) -> u64 {
        wire.s0 ^ wire.s1
    }

    // Each side adds its own shares.
    fn add(&self, x: Shares, y: Shares) -> Shares
        ensures meaning { bit_xor result.s0 result.s1 ≡ bit_xor (bit_xor x.s0 x.s1) (bit_xor y.s0 y.s1) }
        ensures shares { (result.s0 ≡ bit_xor x.s0 y.s0) × (result.s1 ≡ bit_xor x.s1 y.s1) }
    {
        Shares::of(x.s0 ^ y.s0, x.s1 ^ y.s1)
    }

    // Gate number j, from 0, spends the triple number j of the tape, which stays.
    fn gate(&mut self, x: Shares, y: Shares) -> Result<Shares, Fault>
        ensures meaning { MatchResult result (λ w. (bit_xor w.s0 w.s1 ≡ bit_and (bit_xor x.s0 x.s1) (bit_xor y.s0 y.s1)) × Spent self.old.ledger.account 1 self.new.ledger.account) (λ f. (self.new ≡ self.old) × Dry self.old.ledger.account f) }
        ensures shares { IfOk result (λ w. ((w.s0, w.s1) ≡ shares_of (x.s0, x.s1) (y.s0, y.s1) (triple_of self.old.tape.now self.old.ledger.account.done)) × (self.new.tape ≡ self.old.tape)) }
    {
        let number = self.ledger.account.done as usize;
        self.ledger = self.ledger.spend()?;
        Ok(product(x, y, triple_at(self.tape, number)))
    }

    fn grant(&mut self, g: u32) -> Result<(), Fault>
        ensures granted { MatchResult result (λ _. Granted self.old.ledger.account g self.new.ledger.account) (λ f. (self.new ≡ self.old) × Full self.old.ledger.account g f) }
        ensures tape_unchanged { self.new.tape ≡ self.old.tape }
    {
        self.ledger = self.ledger.grant(g)?;
        Ok(())
    }

    fn account(&self) -> Account {
        self.ledger.account
    }
}

#[cfg(test)]
mod tests {
    use super::*;
    use std::test::Fail;

    #[test]
    fn multiplies_shares(rt: HostRuntime) -> Result<(), Fail> {
        let tape = [1, 0, 0, 0, 1, 1];
        let mut engine = ShareEngine::empty();
        engine.fill(&tape)?;
        engine.grant(1)?;
        let x = engine.enter(1, 1);
        let y = engine.enter(1, 0);
        let z = engine.gate(x, y)?;
        assert_eq!(rt; z.s0, 0);
        assert_eq!(rt; z.s1, 1);
        assert_eq!(rt; engine.account().done, 1);
        Ok(())
    }

    #[test]
    fn refuses_bad_tapes(rt: HostRuntime) {
        let mut engine = ShareEngine::empty();
        let short = [0; 5];
        let bad = [1, 1, 0, 0, 0, 0];
        let later = [1, 1, 1, 0, 0, 0, 1, 1, 0, 0, 0, 0];
        assert_eq!(rt;
            engine.fill(&short),
            Err(Fault::at(Refusal::BadTriples, Layer::Engine, 0))
        );
        assert_eq!(rt;
            engine.fill(&bad),
            Err(Fault::at(Refusal::BadTriples, Layer::Engine, 0))
        );
        assert_eq!(rt;
            engine.fill(&later),
            Err(Fault::at(Refusal::BadTriples, Layer::Engine, 1))
        );
    }

    #[test]
    fn reads_what_was_masked(rt: HostRuntime) {
        let engine = ShareEngine::empty();
        let x = engine.enter(0x0123_4567_89ab_cdef, 0x9e37_79b9_7f4a_7c15);
        let y = engine.enter(0xffff_0000_ffff_0000, 0xbf58_476d_1ce4_e5b9);
        assert_eq!(rt; engine.read(x), 0x0123_4567_89ab_cdef);
        assert_eq!(rt; engine.read(engine.add(x, y)), 0xfedc_4567_7654_cdef);
    }
}
