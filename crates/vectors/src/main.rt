// Published vectors: draws the sets of two of them from the Grain source, brings them to this library's numbering, encrypts the plaintext and prints
// what was published beside what was computed.
#![tactic(auto)]

mod bytes;
mod exchange;

use arrayvec::ArrayVec;
use bits::refusal::Fault;
use bytes::{get_bytes, put_bytes};
use cipher::instance::Instance;
use cipher::params::Params;
use drawing::drawer::draw;
use drawing::grain::GrainSource;
use exchange::{exchange_bits, exchange_set};
use std::{fmt, io};

// The same in each vector; what is not written is 0.
const KEY: [u8; 1] = [0x80];

const PLAINTEXT: [u8; 2] = [0xab, 0xff];

// Bytes in hexadecimal, two digits each.
#[derive(Clone, Copy)]
struct Hex<'a>(&'a [u8]);

impl fmt::Display for Hex<'_> {
    fn fmt<W: fmt::Write>(&self, f: &mut fmt::Formatter<W>) -> fmt::Result {
        for b in self.0 {
            write!(f, "{b:02x}")?;
        }
        Ok(())
    }
}

fn print_line(rt: &HostRuntime, p: Params, expected: &[u8], computed: &[u8]) -> io::Result<()> {
    let verdict = if expected == computed {
        "equal"
    } else {
        "different"
    };
    print!(rt; "n {} k {} m {} r {} ", p.n, p.k, p.m, p.r)?;
    println!(rt;
        "expected {} computed {} {verdict}",
        Hex(expected),
        Hex(computed)
    )
}

// Encrypts a block, which comes and goes in the numbering of the published vectors.
fn encrypt_block(held: &Instance, m: u16, key: &[u64], block: &mut [u64]) -> Result<(), Fault> {
    let mut work = [0u64; 8];
    exchange_bits(block, m);
    held.encrypt(key, block, &mut work)?;
    exchange_bits(block, m);
    Ok(())
}

// Draws the set into `words`, brings it to this library's numbering, and encrypts the plaintext under it.
fn compute(p: Params, words: &mut [u64]) -> Result<[u8; 32], Fault> {
    draw(p, &mut GrainSource::new(), words)?;
    exchange_set(p, words);
    let mut held = Instance::empty();
    held.open(p, words)?;
    let mut key = ArrayVec::from([0u64; 4]);
    let mut block = ArrayVec::from([0u64; 4]);
    key.truncate(p.key_words());
    block.truncate(p.block_words());
    put_bytes(&mut key, &KEY);
    put_bytes(&mut block, &PLAINTEXT);
    encrypt_block(&held, p.m, &key, &mut block)?;
    let mut computed = [0u8; 32];
    get_bytes(&block, &mut computed);
    Ok(computed)
}

fn run_vector(rt: &HostRuntime, p: Params, expected: &[u8]) -> anyhow::Result<()> {
    let mut words = vec![in rt.alloc(); 0u64; p.prepared_words()]?;
    match compute(p, &mut words) {
        Ok(computed) => print_line(rt, p, expected, &computed[..expected.len().min(32)])?,
        Err(fault) => println!(rt; "{fault}")?,
    }
    Ok(())
}

fn main(rt: HostRuntime) -> anyhow::Result<()> {
    run_vector(
        &rt,
        Params {
            n: 128,
            k: 128,
            m: 10,
            r: 20,
        },
        &[
            0x0e, 0x30, 0x72, 0x0b, 0x9f, 0x64, 0xd5, 0xc2, 0xa7, 0x77, 0x1c, 0x8c, 0x23, 0x8d,
            0x8f, 0x70,
        ],
    )?;
    run_vector(
        &rt,
        Params {
            n: 129,
            k: 129,
            m: 43,
            r: 4,
        },
        &[
            0x2f, 0xd7, 0xd5, 0x42, 0x5e, 0xe3, 0x5e, 0x66, 0x7c, 0x97, 0x2f, 0x12, 0xfb, 0x15,
            0x3e, 0x9d, 0x80,
        ],
    )
}
