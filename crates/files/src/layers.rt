// Layers of a file: whether each can be inverted, and their inverses as words.
ghost use Rattle.std.specs.Prelude.{◌≡◌, ℕ, ◌*◌, ◌≤◌, map, length, replicate};
ghost use Rattle.bits.specs.Gf2.{flat, inverse_of, width_of};
ghost use Rattle.cipher.specs.Sets.{Each, joined};
ghost use Rattle.files.specs.Format.{byte_rows, byte_width_of, matrices_of, record_size as size_in_file};
ghost use Rattle.files.specs.Preparing.{Checked, Inverting, Tried};
ghost use Rattle.cipher.specs.Laws.{Invertible};

use crate::rows::Rows;
use bits::elimination::{Singular, invert};
use bits::matrix::Matrix;
use bits::refusal::{Fault, Layer, Refusal};

// The records of so many layers of `n` bits, one after another from the start of `bytes`.
#[derive(Clone, Copy)]
pub(crate) struct Layers<'a> {
    pub(crate) bytes: &'a [u8],
    pub(crate) n: u16,
    pub(crate) count: u16,
    ghost some: { 1 ≤ n },
    ghost most: { n ≤ 256 },
    ghost whole: { count * size_in_file (byte_width_of n) n ≤ length bytes.now },
}

impl<'a> Layers<'a> {
    // The rows of each.
    fn rows(&self) -> Rows
        ensures { (result.count ≡ self.now.n) × (result.bits ≡ self.now.n) }
    {
        Rows {
            count: self.n,
            bits: self.n,
        }
    }

    // What `invert` does, with room for the layer. Here and below a record's body is asked to be as long as a layer of this many bits: a struct that said so
    // would be made for one call.
    fn invert_in(
        &self,
        body: &[u8],
        layer: &mut [u64],
        inverse: &mut [u64],
        vector: &mut [u64],
    ) -> Result<(), Singular>
        requires body { length body.now ≡ self.now.n * byte_width_of self.now.n }
        requires width { length vector.old ≡ width_of self.now.n }
        requires layer { length layer.old ≡ self.now.n * width_of self.now.n }
        requires room { length inverse.old ≡ self.now.n * width_of self.now.n }
        ensures { Inverting (width_of self.now.n) (byte_rows (byte_width_of self.now.n) self.now.n body.now) inverse.old inverse.new vector.old vector.new result }
    {
        let rows = self.rows();
        rows.load(body, layer);
        invert(
            Matrix::new(layer, rows.width(), self.n.into()),
            inverse,
            vector,
        )
    }

    // Inverts the layer in a record's body.
    fn invert(&self, body: &[u8], inverse: &mut [u64], vector: &mut [u64]) -> Result<(), Singular>
        requires body { length body.now ≡ self.now.n * byte_width_of self.now.n }
        requires width { length vector.old ≡ width_of self.now.n }
        requires room { length inverse.old ≡ self.now.n * width_of self.now.n }
        ensures { Inverting (width_of self.now.n) (byte_rows (byte_width_of self.now.n) self.now.n body.now) inverse.old inverse.new vector.old vector.new result }
    {
        let mut layer = [0u64; 1024];
        let used = inverse.len();
        self.invert_in(body, &mut layer[..used], inverse, vector)
    }

    // Whether the layer in a record's body can be inverted; where it cannot, `vector` becomes a witness.
    fn check_layer(&self, body: &[u8], vector: &mut [u64]) -> Result<(), Singular>
        requires body { length body.now ≡ self.now.n * byte_width_of self.now.n }
        requires zeros { vector.old ≡ replicate 4 0 }
        ensures { Tried (byte_rows (byte_width_of self.now.n) self.now.n body.now) vector.new result }
    {
        let mut inverse = [0u64; 1024];
        let rows = self.rows();
        self.invert(
            body,
            &mut inverse[..rows.words()],
            &mut vector[..rows.width()],
        )
    }

    // Whether each can be inverted; a witness is written where one cannot.
    pub(crate) fn check(&self, witness: &mut [u64]) -> Result<(), Fault>
        requires { 4 ≤ length witness.old }
        ensures { Checked (matrices_of (byte_width_of self.now.n) self.now.n self.now.count self.now.bytes.now) self.now.count witness.old witness.new result }
    {
        let size = self.rows().record_size();
        let records = self.bytes[..usize::from(self.count) * size].chunks_exact(size);
        for (j, record) in records.enumerate() {
            let mut vector = [0u64; 4];
            if let Err(Singular) = self.check_layer(&record[3..], &mut vector) {
                witness[..4].copy_from_slice(&vector);
                return Err(Fault::at(Refusal::LayerCollapses, Layer::Set, j + 1));
            }
        }
        Ok(())
    }

    // Writes their inverses; none of them collapses.
    pub(crate) fn load_inverses(&self, out: &mut [u64])
        requires room { length out.old ≡ self.now.count * (self.now.n * width_of self.now.n) }
        requires invertible { Each Invertible (matrices_of (byte_width_of self.now.n) self.now.n self.now.count self.now.bytes.now) }
        ensures { out.new ≡ flat (width_of self.now.n) (joined (map inverse_of (matrices_of (byte_width_of self.now.n) self.now.n self.now.count self.now.bytes.now))) }
    {
        let rows = self.rows();
        let (w, piece) = (rows.width(), rows.words());
        let size = rows.record_size();
        let records = self.bytes[..usize::from(self.count) * size].chunks_exact(size);
        for (j, record) in records.enumerate() {
            let mut vector = [0u64; 4];
            // by index: what is written through `chunks_exact_mut` is lost to the proof
            let to = j * piece;
            let _ = self.invert(&record[3..], &mut out[to..to + piece], &mut vector[..w]);
        }
    }
}
