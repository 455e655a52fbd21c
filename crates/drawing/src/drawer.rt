// Drawing a set: all layers, then all constants, then all key matrices, each row from bit 0.
ghost use Rattle.std.specs.Prelude.{length};
ghost use Rattle.drawing.specs.Places.{Places};
ghost use Rattle.drawing.specs.Drawing.{Draws, Keeping, Opens, ready};

use crate::parts::draw_parts;
use crate::source::BitSource;
use bits::refusal::{Fault, Layer, Refusal};
use cipher::params::Params;

// Draws a set and writes it as reading a set file would: all layers, all constants, all key matrices, all inverses. Later words are left.
// Where the bits end or a matrix is not kept in 255 draws, the words of the set are zero; at the other refusals nothing has changed.
pub fn draw<S: BitSource>(params: Params, source: &mut S, words: &mut [u64]) -> Result<u64, Fault>
    ensures drew { Draws params (S.meaning source.old) words.old (ready params (length words.old)) result words.new (S.meaning source.new) }
    ensures opens { Opens params (S.meaning source.old) result words.new }
{
    params.check()?;
    if params.k < params.n {
        return Err(Fault::at(Refusal::KeyTooNarrow, Layer::Draw, 0));
    }
    let used = params.prepared_words();
    if words.len() < used {
        return Err(Fault::at(Refusal::TooFewWords, Layer::Set, used));
    }
    match draw_parts(params, source, &mut words[..used]) {
        Ok(taken) => Ok(taken as u64),
        Err(fault) => {
            words[..used].fill(0);
            Err(fault)
        }
    }
}

// A layer is kept just where it does not collapse, and a key matrix just where its rows are independent.
pub fn keeping_stands()
    ensures { Keeping }
{}

// Bit i of a row stands i bits on, row i of a matrix i rows on, and the matrix that is kept is the first that is, of candidates one after another.
pub fn places_stand()
    ensures { Places }
{}

#[cfg(test)]
mod tests {
    use super::*;
    use crate::grain::GrainSource;
    use crate::tape::TapeSource;
    use bits::matrix::{Matrix, product};
    use std::process::Abort;
    use std::test::Fail;

    const SMALL: Params = Params {
        n: 3,
        k: 3,
        m: 1,
        r: 1,
    };

    // Each word is `by`, but the last, which is 7.
    fn all_but_the_last(words: &[u64], by: u64) -> bool {
        words.split_last().is_some_and(|(last, rest)| *last == 7
            && rest.iter().all(|word| *word == by))
    }

    // Draws what is refused with this number and place, which leaves each word but the last as `by`.
    fn refused(
        rt: &impl Abort,
        params: Params,
        source: &mut TapeSource<'_>,
        words: &mut [u64],
        (number, place): (u8, u64),
        by: u64,
    ) -> Result<(), Fail> {
        let fault = draw(params, source, words).err().ok_or("drawn")?;
        assert_eq!(rt; fault.refusal.number(), number);
        assert_eq!(rt; fault.place, place);
        assert!(rt; all_but_the_last(words, by));
        Ok(())
    }

    #[test]
    fn runs_dry(rt: HostRuntime) -> Result<(), Fail> {
        let mut words = [7u64; 14];
        let mut source = TapeSource::new(&[0]);
        refused(&rt, SMALL, &mut source, &mut words, (16, 8), 0)
    }

    #[test]
    fn keeps_nothing(rt: HostRuntime) -> Result<(), Fail> {
        let mut words = [7u64; 14];
        let bytes = [0u8; 287];
        let mut source = TapeSource::new(&bytes);
        refused(&rt, SMALL, &mut source, &mut words, (17, 2295), 0)?;
        assert!(rt; source.next().is_some());
        assert!(rt; source.next().is_none());
        Ok(())
    }

    #[test]
    fn needs_a_wide_key(rt: HostRuntime) -> Result<(), Fail> {
        let mut words = [7u64; 40];
        let mut source = TapeSource::new(&[0]);
        let narrow = Params {
            n: 4,
            k: 3,
            m: 1,
            r: 1,
        };
        refused(&rt, narrow, &mut source, &mut words, (15, 0), 7)
    }

    #[test]
    fn needs_room(rt: HostRuntime) -> Result<(), Fail> {
        let mut words = [7u64; 12];
        let mut source = TapeSource::new(&[1]);
        refused(&rt, SMALL, &mut source, &mut words, (2, 13), 7)?;
        assert!(rt; source.next() == Some(1));
        Ok(())
    }

    // A layer of zeros, which is drawn again, then rows 2, 4 and 1, the constant 5, and the identity twice.
    #[test]
    fn draws_from_a_tape(rt: HostRuntime) -> Result<(), Fail> {
        let mut words = [7u64; 14];
        let mut source = TapeSource::new(&[0, 196, 52, 98, 68]);
        let taken = draw(SMALL, &mut source, &mut words).ok().ok_or("refused")?;
        assert_eq!(rt; taken, 39);
        assert_eq!(rt; words, [2, 4, 1, 5, 1, 2, 4, 1, 2, 4, 4, 1, 2, 7]);
        Ok(())
    }

    #[test]
    fn draws_what_opens(rt: HostRuntime) -> Result<(), Fail> {
        let mut words = [7u64; 14];
        let mut source = GrainSource::new();
        let taken = draw(SMALL, &mut source, &mut words).ok().ok_or("refused")?;
        assert_eq!(rt; taken, 48);
        assert_eq!(rt; words, [4, 1, 6, 1, 2, 4, 5, 7, 2, 6, 2, 5, 1, 7]);
        for x in 0..8u64 {
            let mut image = [0u64; 1];
            let mut back = [0u64; 1];
            product(Matrix::new(&words, 1, 3), &[x], &mut image);
            product(Matrix::new(&words[10..], 1, 3), &image, &mut back);
            assert_eq!(rt; back, [x]);
        }
        Ok(())
    }
}
