// Packing blocks into lanes and unpacking them. Only entering and reading wires is asked of an engine here.
ghost use Rattle.std.specs.Prelude.{◌≡◌, ℕ, ◌*◌, ◌^◌, ◌<◌, ◌≤◌, map, length};
ghost use Rattle.bits.specs.Gf2.{flat, value};
ghost use Rattle.bits.specs.Matrices.{rows_in};
ghost use Rattle.batches.specs.Lanes.{columns, lane};

use bits::matrix::Matrix;
use bits::words::{bit, fitting};
use engines::engine::Engine;

// The word whose bit j is bit `i` of block j; the blocks are the rows of a matrix.
fn gather(blocks: Matrix<'_>, i: usize) -> u64
    requires { blocks.height ≤ 64 }
    ensures { result ≡ lane i (rows_in blocks.entry) }
{
    let mut word: u64 = 0;
    for (j, block) in blocks.rows().enumerate() {
        word |= bit(block, i) << j;
    }
    word
}

// Enters the blocks: wire i has bit i of each, and 0 in the lanes past them.
pub(crate) fn load<E: Engine>(e: &E, blocks: Matrix<'_>, masks: &[u64], cells: &mut [E::Wire])
    requires lanes { blocks.height ≤ E.lanes }
    requires masks { length cells.old ≤ length masks.now }
    ensures { map E.means cells.new ≡ columns (length cells.old) (rows_in blocks.entry) }
{
    // No `zip` with the masks, through which what is written is lost to the proof.
    for (i, cell) in cells.iter_mut().enumerate() {
        *cell = e.enter(gather(blocks, i), masks[i]);
    }
}

// Writes what the wires carry in lane `j` as a block.
fn read_lane<E: Engine>(e: &E, cells: &[E::Wire], j: usize, block: &mut [u64])
    requires place { j < 64 }
    requires room { length cells.now ≤ 64 * length block.old }
    ensures { value block.new ≡ lane j (map E.means cells.now) }
{
    block.fill(0);
    for (i, cell) in cells.iter().enumerate() {
        let on = (e.read(*cell) >> j) % 2;
        block[i / 64] |= on << (i % 64);
    }
}

// Reads the wires back into `count` blocks of `w` words. Both go beside the words, as in a `Matrix`, which only reads: to divide by `w` would ask that it
// is not 0.
pub(crate) fn unload<E: Engine>(
    e: &E,
    cells: &[E::Wire],
    blocks: &mut [u64],
    w: usize,
    count: usize,
)
    requires size { length blocks.old ≡ count * w }
    requires lanes { count ≤ 64 }
    requires room { length cells.now ≤ 64 * w }
    ensures { blocks.new ≡ flat w (columns count (map E.means cells.now)) }
{
    // By index, since what is written through `chunks_exact_mut` is lost to the proof.
    for j in 0..count {
        let start = j * w;
        read_lane(e, cells, j, &mut blocks[start..start + w]);
    }
    fitting(blocks);
}
