// A case of drawing: parameters, how many words are lent, and a source.
use cipher::params::Params;
use drawing::drawer::draw;
use drawing::source::BitSource;
use std::{fmt, io};
use trial::{Refused, SET_WORDS};

// What a source gives when it is asked, or `-` where it is dry.
fn print_next(rt: &HostRuntime, next: Option<u8>) -> io::Result<()> {
    match next {
        Some(b) => print!(rt; " {b}"),
        None => print!(rt; " -"),
    }
}

// Words, a blank before each.
#[derive(Clone, Copy)]
struct Words<'a>(&'a [u64]);

impl fmt::Display for Words<'_> {
    fn fmt<W: fmt::Write>(&self, f: &mut fmt::Formatter<W>) -> fmt::Result {
        for x in self.0 {
            write!(f, " {x}")?;
        }
        Ok(())
    }
}

// The answer to a case: the bits taken, or the number and place of the refusal; what the source gives next; all words that were lent, each of which
// is 7 before.
pub(crate) fn answer_drawn<S: BitSource>(
    rt: &HostRuntime,
    params: Params,
    room: usize,
    source: &mut S,
) -> io::Result<()> {
    let mut words = [7u64; SET_WORDS];
    let lent = &mut words[..room.min(SET_WORDS)];
    match draw(params, source, lent) {
        Ok(taken) => print!(rt; "OK {taken}")?,
        Err(fault) => print!(rt; "{}", Refused(fault))?,
    }
    print_next(rt, source.next())?;
    println!(rt; "{}", Words(lent))
}
