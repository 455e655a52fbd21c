// One case for the comparison with the second implementation. Standard input has a key and a block, 32 bytes each, lowest first, and then a set
// file; the answer is one line: the block encrypted, then the block decrypted, as words, or the number and place of the first refusal.
#![tactic(auto)]

use input::read_front;
use trial::{FRONT_BYTES, MOST_FILE_BYTES, Trial, Verdict};

// How much of the input is looked at: a key, a block and a file.
const MOST_BYTES: usize = FRONT_BYTES + MOST_FILE_BYTES;

fn main(rt: HostRuntime) -> anyhow::Result<()> {
    let mut buffer = [0u8; MOST_BYTES];
    let input = read_front(&mut rt.stdin(), &mut buffer)?;
    // An input that ends before its file is one with no file, which is refused whatever the key and the block are.
    let (front, file) = input
        .split_at_checked(FRONT_BYTES)
        .unwrap_or((&[0; FRONT_BYTES], &[]));
    println!(rt; "{}", Verdict(Trial::of(front, file).answer()))?;
    Ok(())
}
