// The line that reports on a set file.
ghost use Rattle.std.specs.Prelude.{◌≡◌, take, IfOk, Some, string_bytes};
ghost use Rattle.files.specs.Line.{Judged, Reported, line_of};

use crate::reading::{WITNESS_WORDS, read};
use bits::refusal::Fault;
use cipher::params::Params;
use std::alloc::{AllocError, Global};
use std::fmt;

// How much of a file the report looks at, and the words that it has for the set.
pub const MOST_BYTES: usize = 65536;

const SET_WORDS: usize = 8192;

// What reading says of a file, to be shown as a line.
#[derive(Clone, Copy)]
pub struct Verdict(pub Result<Params, Fault>);

impl fmt::Display for Verdict {
    ghost output = { λ v. Some (line_of v.0) };

    fn fmt<W: fmt::Write>(&self, f: &mut fmt::Formatter<W>) -> fmt::Result {
        match self.0 {
            Ok(p) => {
                let gates = p.gates();
                writeln!(f, "OK {} {} {} {} {}", p.n, p.k, p.m, p.r, gates)
            }
            Err(e) => writeln!(f, "NO {} {}", e.refusal, e.place),
        }
    }
}

// The part of a file that the report looks at.
fn front(file: &[u8]) -> &[u8]
    ensures { result.now ≡ take 65536 file.now }
{
    &file[..MOST_BYTES.min(file.len())]
}

// What reading says of the first bytes of a file.
fn judge(file: &[u8]) -> Verdict
    ensures { Judged (take 65536 file.now) result.0 }
{
    let mut words = [0u64; SET_WORDS];
    let mut witness = [0u64; WITNESS_WORDS];
    Verdict(read(front(file), &mut words, &mut witness))
}

// The line that reports on the first bytes of a file, with room for a set of so many words.
pub fn report(heap: Global, file: &[u8]) -> Result<String, AllocError>
    ensures { IfOk result (λ s. Reported (take 65536 file.now) (string_bytes s)) }
{
    judge(file).to_string(heap)
}
