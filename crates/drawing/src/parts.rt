// The parts of a set: layers with their inverses, constants, key matrices.
ghost use Rattle.std.specs.Prelude.{◌≡◌, ℕ, ◌+◌, ◌*◌, ◌^◌, ◌≤◌, map, length, IfOk};
ghost use Rattle.bits.specs.Gf2.{flat, inverse_of, width_of};
ghost use Rattle.cipher.specs.Parameters.{Lawful, prepared_words_of};
ghost use Rattle.cipher.specs.Sets.{joined, prepared};
ghost use Rattle.drawing.specs.Streams.{Sees, Stream};
ghost use Rattle.drawing.specs.Drawing.{Drew, Keys, Layers, SoundSet, Took, drawn_set, kept_key, kept_layer, several};

use crate::keep::{Independence, Inverting};
use crate::matrices::Drawer;
use crate::source::BitSource;
use bits::refusal::Fault;
use bits::words::width;
use cipher::params::Params;

impl<'s, S: BitSource> Drawer<'s, S> {
    // Draws `count` layers of `n` rows, and writes their inverses too.
    fn draw_layers(
        &mut self,
        n: usize,
        count: usize,
        layers: &mut [u64],
        inverses: &mut [u64],
    ) -> Result<(), Fault>
        requires many { n ≤ 256 }
        requires few { count ≤ 256 }
        requires size { length layers.old ≡ count * (n * width_of n) }
        requires room { length inverses.old ≡ count * (n * width_of n) }
        requires small { self.old.taken ≤ 2 ^ 33 }
        ensures same { self.new.source.ghost_name ≡ self.old.source.ghost_name }
        ensures drew { Drew (λ f. several (kept_layer f n) count) (λ Ls. Layers n count Ls × (layers.new ≡ flat (width_of n) (joined Ls)) × (inverses.new ≡ flat (width_of n) (joined (map inverse_of Ls)))) (S.meaning self.old.source.now) self.old.taken result (S.meaning self.new.source.now) self.new.taken }
        ensures moved { IfOk result (λ _. self.new.taken ≤ self.old.taken + count * 2 ^ 24) }
    {
        let size = n * width(n);
        let mut test = Inverting { inverse: [0; 1024] };
        // by index, here and for keys: what is written through `chunks_exact_mut` is lost to the proof. One function for both would have to hand keys a place
        // for inverses that they have not
        for i in 0..count {
            let start = i * size;
            self.draw_kept(&mut test, n, n, &mut layers[start..start + size])?;
            inverses[start..start + size].copy_from_slice(&test.inverse[..size]);
        }
        Ok(())
    }

    // Draws `count` key matrices of `n` rows of `k` bits.
    fn draw_keys(&mut self, n: usize, k: usize, count: usize, out: &mut [u64]) -> Result<(), Fault>
        requires many { n ≤ 256 }
        requires wide { k ≤ 256 }
        requires few { count ≤ 256 }
        requires size { length out.old ≡ count * (n * width_of k) }
        requires small { self.old.taken ≤ 2 ^ 33 }
        ensures same { self.new.source.ghost_name ≡ self.old.source.ghost_name }
        ensures drew { Drew (λ f. several (kept_key f n k) count) (λ Ks. Keys n k count Ks × (out.new ≡ flat (width_of k) (joined Ks))) (S.meaning self.old.source.now) self.old.taken result (S.meaning self.new.source.now) self.new.taken }
    {
        let size = n * width(k);
        for i in 0..count {
            let start = i * size;
            self.draw_kept(&mut Independence, n, k, &mut out[start..start + size])?;
        }
        Ok(())
    }
}

// Draws a set into `words`, which it fills; the bits taken.
pub(crate) fn draw_parts<S: BitSource>(
    params: Params,
    source: &mut S,
    words: &mut [u64],
) -> Result<usize, Fault>
    requires lawful { Lawful params }
    requires size { length words.old ≡ prepared_words_of params }
    ensures { (f : Stream) → Sees f (S.meaning source.old) 0 → Took f (drawn_set f params) (λ s. SoundSet s × (words.new ≡ prepared s)) result (S.meaning source.new) }
{
    let n = params.n as usize;
    let k = params.k as usize;
    let r = params.r as usize;
    let layer = n * params.block_words();
    // by sizes, where cipher has places for a set that is read: `split_at_mut` lends all four parts at once, to be written
    let (layers, rest) = words.split_at_mut(r * layer);
    let (constants, rest) = rest.split_at_mut(r * params.block_words());
    let (keys, inverses) = rest.split_at_mut((r + 1) * (n * params.key_words()));
    let mut drawer = Drawer { source, taken: 0 };
    drawer.draw_layers(n, r, layers, inverses)?;
    drawer.draw_matrix(r, n, constants)?;
    drawer.draw_keys(n, k, r + 1, keys)?;
    Ok(drawer.taken)
}
