// One case of the cipher: a key, a block and a set file, and what the block becomes under that set in both directions.
#![tactic(auto)]

ghost use Rattle.std.specs.Prelude.{◌≡◌, length, take, drop, IfOk, IsOk, Some};
ghost use Rattle.byteorder.specs.Endian.{IsRead, little_number};
ghost use Rattle.trial.specs.Answers.{Answerable, Answered, refused_line};

use arrayvec::ArrayVec;
use bits::refusal::Fault;
use byteorder::{ByteOrder, LittleEndian};
use cipher::instance::Instance;
use files::reading::{WITNESS_WORDS, read};
use files::report::MOST_BYTES;
use std::fmt;

// The bytes of a key and a block, and how much of a file the programs look at.
pub const FRONT_BYTES: usize = 64;

pub const MOST_FILE_BYTES: usize = MOST_BYTES;

// The words that there are for the set.
pub const SET_WORDS: usize = 8192;

// A key and a block as wide as the widest, of which as many words count as the set's have, and the file of the set.
#[derive(Drop)]
pub struct Trial<'a> {
    pub key: [u64; 4],
    pub block: [u64; 4],
    pub file: &'a [u8],
}

// The block encrypted, and the block decrypted.
#[derive(Drop)]
pub struct Answer {
    pub there: ArrayVec<u64, 4>,
    pub back: ArrayVec<u64, 4>,
}

// As many of the words as count, the lowest ones.
fn first(words: [u64; 4], count: usize) -> ArrayVec<u64, 4>
    ensures { result.items ≡ take count words }
{
    let mut first = ArrayVec::from(words);
    first.truncate(count);
    first
}

impl<'a> Trial<'a> {
    // From the 64 bytes of a key and a block, the lowest of each first, and the file.
    pub fn of(front: &[u8], file: &'a [u8]) -> Trial<'a>
        requires { length front.now ≡ 64 }
        ensures key { IsRead little_number 8 (take 32 front.now) result.key }
        ensures block { IsRead little_number 8 (drop 32 front.now) result.block }
        ensures file { result.file.now ≡ file.now }
    {
        let (first, second) = front.split_at(32);
        let mut key = [0; 4];
        let mut block = [0; 4];
        LittleEndian::read_u64_into(first, &mut key);
        LittleEndian::read_u64_into(second, &mut block);
        Trial { key, block, file }
    }

    // Reads the set, opens it, and encrypts the block and decrypts it.
    pub fn answer(&self) -> Result<Answer, Fault>
        ensures answer { IfOk result (λ a. Answered self.now.file.now self.now.key self.now.block a.there.items a.back.items) }
        ensures succeeds { Answerable self.now.file.now self.now.key self.now.block → IsOk result }
    {
        let mut words = [0; SET_WORDS];
        let mut witness = [0; WITNESS_WORDS];
        let params = read(self.file, &mut words, &mut witness)?;
        let mut held = Instance::empty();
        held.open(params, &words)?;
        let key = first(self.key, params.key_words());
        let mut there = first(self.block, params.block_words());
        let mut back = first(self.block, params.block_words());
        let mut work = [0; 8];
        held.encrypt(&key, &mut there, &mut work)?;
        held.decrypt(&key, &mut back, &mut work)?;
        Ok(Answer { there, back })
    }
}

// Each word and a space.
impl fmt::Display for Answer {
    fn fmt<W: fmt::Write>(&self, f: &mut fmt::Formatter<W>) -> fmt::Result {
        for x in self.there.iter().chain(self.back.iter()) {
            write!(f, "{x} ")?;
        }
        Ok(())
    }
}

// A refusal as the comparison wants it: `NO`, its number and its place.
#[derive(Clone, Copy)]
pub struct Refused(pub Fault);

impl fmt::Display for Refused {
    ghost output = { λ r. Some (refused_line r.0) };

    fn fmt<W: fmt::Write>(&self, f: &mut fmt::Formatter<W>) -> fmt::Result {
        write!(f, "NO {} {}", self.0.refusal, self.0.place)
    }
}

// What is said of a case: the answer, or the first refusal.
#[derive(Drop)]
pub struct Verdict(pub Result<Answer, Fault>);

impl fmt::Display for Verdict {
    fn fmt<W: fmt::Write>(&self, f: &mut fmt::Formatter<W>) -> fmt::Result {
        match &self.0 {
            Ok(answer) => write!(f, "{answer}"),
            Err(fault) => write!(f, "{}", Refused(*fault)),
        }
    }
}

#[cfg(test)]
mod tests {
    use super::*;
    use std::test::Fail;

    // The sample file: n = k = 3, one triple, one round; layer rows 2, 4, 1; constant 1; both key matrices the identity.
    const SAMPLE: [u8; 32] =
        *b"PR\x00\x03\x00\x03\x01\x01LM\x01\x02\x04\x01RC\x01\x01KM\x00\x01\x02\x04KM\x01\x01\x02\x04EN";

    #[test]
    fn the_sample_set_takes_1_to_6_and_back_to_0(rt: HostRuntime) -> Result<(), Fail> {
        let mut front = [0; 64];
        front[32] = 1;
        let answer = Trial::of(&front, &SAMPLE).answer()?;
        assert!(rt; answer.there.as_slice() == [6].as_slice());
        assert!(rt; answer.back.as_slice() == [0].as_slice());
        Ok(())
    }
}
