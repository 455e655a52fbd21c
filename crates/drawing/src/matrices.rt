// What is drawn from a source, piece by piece: bits, rows, matrices, and matrices that pass a test.
ghost use Rattle.std.specs.Prelude.{◌≡◌, ℕ, ◌+◌, ◌*◌, ◌^◌, ◌<◌, ◌≤◌, length, IfOk};
ghost use Rattle.bits.specs.Gf2.{flat, width_of, words_of};
ghost use Rattle.cipher.specs.Sets.{Matrix as IsMatrix};
ghost use Rattle.drawing.specs.Drawing.{Drew, TookBit, first_kept, matrix, row, tries};

use crate::keep::Keep;
use crate::source::BitSource;
use bits::matrix::Matrix;
use bits::refusal::{Fault, Layer, Refusal};
use bits::words::width;

// A source that is drawn from, and how many bits were taken of it. Each function that is lent one says `same`: that its source is at the end the
// reference that it was at the start is a fact of two times, which no field can say. `many` and `wide`: a size is a number, and brings no limit with it.
#[derive(Drop)]
pub(crate) struct Drawer<'s, S> {
    pub(crate) source: &'s mut S,
    pub(crate) taken: usize,
}

impl<'s, S: BitSource> Drawer<'s, S> {
    // Takes the next bit.
    fn draw_bit(&mut self) -> Result<u8, Fault>
        requires small { self.old.taken + 1 < 2 ^ 64 }
        ensures same { self.new.source.ghost_name ≡ self.old.source.ghost_name }
        ensures took { TookBit (S.meaning self.old.source.now) self.old.taken result (S.meaning self.new.source.now) self.new.taken }
    {
        let Some(bit) = self.source.next() else {
            return Err(Fault::at(Refusal::SourceDry, Layer::Draw, self.taken));
        };
        self.taken += 1;
        Ok(bit)
    }

    // Takes `count` bits and makes `out` the vector of them, the first as bit 0.
    fn draw_row(&mut self, count: usize, out: &mut [u64]) -> Result<(), Fault>
        requires room { count ≤ 64 * length out.old }
        requires small { self.old.taken + count < 2 ^ 64 }
        ensures same { self.new.source.ghost_name ≡ self.old.source.ghost_name }
        ensures drew { Drew (λ f. row f count) (λ x. (x < 2 ^ count) × (out.new ≡ words_of (length out.old) x)) (S.meaning self.old.source.now) self.old.taken result (S.meaning self.new.source.now) self.new.taken }
        ensures moved { IfOk result (λ _. self.new.taken ≡ self.old.taken + count) }
    {
        out.fill(0);
        // by the number of the bit: over the words it would be a loop in a loop, and the last word may want fewer bits
        for i in 0..count {
            out[i / 64] |= u64::from(self.draw_bit()?) << (i % 64);
        }
        Ok(())
    }

    // Takes `count` rows of `k` bits, one after another.
    pub(crate) fn draw_matrix(
        &mut self,
        count: usize,
        k: usize,
        out: &mut [u64],
    ) -> Result<(), Fault>
        requires size { length out.old ≡ count * width_of k }
        requires small { self.old.taken + count * k < 2 ^ 64 }
        ensures same { self.new.source.ghost_name ≡ self.old.source.ghost_name }
        ensures drew { Drew (λ f. matrix f count k) (λ M. IsMatrix count k M × (out.new ≡ flat (width_of k) M)) (S.meaning self.old.source.now) self.old.taken result (S.meaning self.new.source.now) self.new.taken }
        ensures moved { IfOk result (λ _. self.new.taken ≡ self.old.taken + count * k) }
    {
        let w = width(k);
        // by index: what is written through `chunks_exact_mut` is lost to the proof
        for i in 0..count {
            let start = i * w;
            self.draw_row(k, &mut out[start..start + w])?;
        }
        Ok(())
    }

    // Draws a matrix of `n` rows of `k` bits, again and again as a whole until it passes the test.
    pub(crate) fn draw_kept<K: Keep>(
        &mut self,
        test: &mut K,
        n: usize,
        k: usize,
        out: &mut [u64],
    ) -> Result<(), Fault>
        requires takes { K.takes n (width_of k) }
        requires many { n ≤ 256 }
        requires wide { k ≤ 256 }
        requires size { length out.old ≡ n * width_of k }
        requires small { self.old.taken + 2 ^ 24 < 2 ^ 64 }
        ensures same { self.new.source.ghost_name ≡ self.old.source.ghost_name }
        ensures drew { Drew (λ f. first_kept K.passes (matrix f n k) tries) (λ M. IsMatrix n k M × (out.new ≡ flat (width_of k) M) × K.holds test.new M) (S.meaning self.old.source.now) self.old.taken result (S.meaning self.new.source.now) self.new.taken }
        ensures moved { IfOk result (λ _. self.new.taken ≤ self.old.taken + 2 ^ 24) }
    {
        let w = width(k);
        for _draw in 0..255usize {
            self.draw_matrix(n, k, out)?;
            if test.keeps(Matrix::new(out, w, n)) {
                return Ok(());
            }
        }
        Err(Fault::at(Refusal::NothingKept, Layer::Draw, self.taken))
    }
}
