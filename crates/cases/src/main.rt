// One case for the comparison with the second implementation, on standard input; the answer is one line. The first byte says which kind it is.
//
// `C`, the cipher: a key and a block, 32 bytes each, lowest first, and then a set file. The answer is the block encrypted, then the block decrypted, as
// words, or the number and place of the first refusal.
//
// `D`, drawing: n, k, m and r, two bytes each, high byte first; how many words are lent, two bytes, high byte first, of which there are 8192 at most and
// each is 7; then `T` and the bytes of a tape, or `G` for the Grain source. The answer is `OK` and the bits taken, or `NO` with the number and place of the
// refusal; what the source gives when it is asked once more, or `-` where it is dry; and all words that were lent.
//
// What is no case gets the answer `NO 0 0`.
#![tactic(auto)]

mod drawn;

use byteorder::{BigEndian, ByteOrder};
use cipher::params::Params;
use drawing::grain::GrainSource;
use drawing::tape::TapeSource;
use drawn::answer_drawn;
use input::read_front;
use std::io;
use trial::{FRONT_BYTES, MOST_FILE_BYTES, Trial, Verdict};

// How much of the input is looked at: the kind, and for the cipher a key, a block and a file.
const MOST_BYTES: usize = 1 + FRONT_BYTES + MOST_FILE_BYTES;

fn print_none(rt: &HostRuntime) -> io::Result<()> {
    println!(rt; "NO 0 0")
}

fn cipher_case(rt: &HostRuntime, rest: &[u8]) -> io::Result<()> {
    let Some((front, file)) = rest.split_at_checked(FRONT_BYTES) else {
        return print_none(rt);
    };
    println!(rt; "{}", Verdict(Trial::of(front, file).answer()))
}

fn drawing_case(rt: &HostRuntime, rest: &[u8]) -> io::Result<()> {
    let Some((front, source)) = rest.split_at_checked(10) else {
        return print_none(rt);
    };
    let mut fields = [0; 5];
    BigEndian::read_u16_into(front, &mut fields);
    let [n, k, m, r, room] = fields;
    let params = Params { n, k, m, r };
    match source {
        [b'T', tape @ ..] => answer_drawn(rt, params, room as usize, &mut TapeSource::new(tape)),
        [b'G', ..] => answer_drawn(rt, params, room as usize, &mut GrainSource::new()),
        _ => print_none(rt),
    }
}

fn case(rt: &HostRuntime, input: &[u8]) -> io::Result<()> {
    match input {
        [b'C', rest @ ..] => cipher_case(rt, rest),
        [b'D', rest @ ..] => drawing_case(rt, rest),
        _ => print_none(rt),
    }
}

fn main(rt: HostRuntime) -> anyhow::Result<()> {
    let mut buffer = [0u8; MOST_BYTES];
    let input = read_front(&mut rt.stdin(), &mut buffer)?;
    case(&rt, input)?;
    Ok(())
}
