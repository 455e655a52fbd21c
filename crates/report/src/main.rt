// Reports on the set file that comes by standard input: one line.
#![tactic(auto)]

use files::report::{MOST_BYTES, report};
use input::read_front;

fn main(rt: HostRuntime) -> anyhow::Result<()> {
    let mut buffer = [0u8; MOST_BYTES];
    let file = read_front(&mut rt.stdin(), &mut buffer)?;
    let line = report(rt.alloc(), file)?;
    print!(rt; "{line}")?;
    Ok(())
}
