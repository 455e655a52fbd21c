// The rows of a record's body: as words, and whether a bit is astray.
ghost use Rattle.std.specs.Prelude.{◌≡◌, ℕ, ◌+◌, ◌*◌, ◌^◌, ◌<◌, ◌≤◌, length, slice_index};
ghost use Rattle.bits.specs.Gf2.{Below, flat, width_of, words_of};
ghost use Rattle.files.specs.Format.{byte_rows, byte_value, byte_width_of, matrices_of, record_size as size_in_file};
ghost use Rattle.files.specs.Faults.{body_slots, seen};
ghost use Rattle.files.specs.Words.{eight_bytes};
ghost use Rattle.cipher.specs.Sets.{joined};

use bits::refusal::{Fault, Layer as Part, Refusal};
use bits::words::width;
use std::array;

// How many bytes hold so many bits.
pub(crate) fn byte_width(bits: u16) -> usize
    ensures { result ≡ byte_width_of bits }
{
    usize::from(bits).div_ceil(8)
}

// The word of the eight bytes from a place on, lowest first; a byte past the end counts as 0.
fn word(bytes: &[u8], from: usize) -> u64
    requires { from ≤ length bytes.now }
    ensures { result ≡ eight_bytes bytes.now from }
{
    u64::from_le_bytes(array::from_fn(|i| bytes.get(from + i).copied().unwrap_or(0)))
}

// Writes the vector of a row's bytes as words.
fn load_row(row: &[u8], out: &mut [u64])
    requires { 8 * length out.old ≤ length row.now + 7 }
    ensures { out.new ≡ words_of (length out.old) (byte_value row.now) }
{
    // tried: `zip` with the row's chunks, whose loop gives the proof no name for the words written so far
    for (k, x) in out.iter_mut().enumerate() {
        *x = word(row, 8 * k);
    }
}

// How many rows the body of a record has, and how many bits each of them.
#[derive(Clone, Copy)]
pub(crate) struct Rows {
    pub(crate) count: u16,
    pub(crate) bits: u16,
    ghost some: { 1 ≤ bits },
}

impl Rows {
    // Words of a row.
    pub(crate) fn width(self) -> usize
        ensures { result ≡ width_of self.bits }
    {
        width(usize::from(self.bits))
    }

    // Bytes of a record: mark, number and rows.
    pub(crate) fn record_size(self) -> usize
        ensures { result ≡ size_in_file (byte_width_of self.bits) self.count }
    {
        3 + usize::from(self.count) * byte_width(self.bits)
    }

    // Words of its rows.
    pub(crate) fn words(self) -> usize
        ensures { result ≡ self.count * width_of self.bits }
    {
        usize::from(self.count) * self.width()
    }

    // Writes the rows of a body.
    pub(crate) fn load(self, body: &[u8], out: &mut [u64])
        requires body { length body.now ≡ self.count * byte_width_of self.bits }
        requires room { length out.old ≡ self.count * width_of self.bits }
        ensures written { out.new ≡ flat (width_of self.bits) (byte_rows (byte_width_of self.bits) self.count body.now) }
        ensures fit { Below (64 * width_of self.bits) (byte_rows (byte_width_of self.bits) self.count body.now) }
    {
        let w = self.width();
        for (i, row) in body.chunks_exact(byte_width(self.bits)).enumerate() {
            // by index: what is written through `chunks_exact_mut` is lost to the proof
            load_row(row, &mut out[i * w..i * w + w]);
        }
    }

    // Writes the rows of `records` records, which stand one after another from the start of `bytes`.
    pub(crate) fn load_records(self, bytes: &[u8], records: usize, out: &mut [u64])
        requires bytes { records * size_in_file (byte_width_of self.bits) self.count ≤ length bytes.now }
        requires room { length out.old ≡ records * (self.count * width_of self.bits) }
        ensures { out.new ≡ flat (width_of self.bits) (joined (matrices_of (byte_width_of self.bits) self.count records bytes.now)) }
    {
        let size = self.record_size();
        let piece = self.words();
        for (j, record) in bytes[..records * size].chunks_exact(size).enumerate() {
            // by index, as above
            self.load(&record[3..], &mut out[j * piece..j * piece + piece]);
        }
    }

    // The first stray bit in the rows of a body, of which `bytes` has the start and `at` is the place: only a row's last byte can have one.
    pub(crate) fn look(self, bytes: &[u8], at: usize) -> Result<(), Fault>
        requires { at + length bytes.now < 2 ^ 64 }
        ensures { result ≡ seen at (body_slots (byte_width_of self.bits) self.bits self.count) bytes.now }
    {
        let size = byte_width(self.bits);
        let limit = 1u16 << (usize::from(self.bits) - 8 * (size - 1));
        for (i, row) in bytes.chunks_exact(size).take(self.count.into()).enumerate() {
            if u16::from(row[size - 1]) >= limit {
                let last = i * size + size - 1;
                return Err(Fault::at(Refusal::StrayBit, Part::File, at + last));
            }
        }
        Ok(())
    }
}
