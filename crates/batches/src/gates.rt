// The substitution layer on wires: the only place where gates are spent. Callers have seen to it that enough are granted. Why words have functions of their
// own in `cipher` stands at the head of `rounds`.
ghost use Rattle.std.specs.Prelude.{◌≡◌, ℕ, ◌+◌, ◌*◌, ◌<◌, ◌≤◌, map, length, bit_and};
ghost use Rattle.engines.specs.Accounts.{Spent};
ghost use Rattle.cipher.specs.Boxes.{boxes};
ghost use Rattle.batches.specs.Lanes.{box_along, lane};
ghost use Rattle.batches.specs.Batches.{GatesLeft};

use cipher::direction::Direction;
use engines::engine::Engine;

// A gate that is known to be left.
fn and<E: Engine>(e: &mut E, x: E::Wire, y: E::Wire) -> E::Wire
    requires { (E.acct e.old).done < (E.acct e.old).granted }
    ensures { (E.means result ≡ bit_and (E.means x) (E.means y)) × Spent (E.acct e.old) 1 (E.acct e.new) }
{
    e.gate(x, y).unwrap()
}

// The S-box on the three wires at `at`, which gives a + bc, a + b + ac and a + b + c + ab, or its inverse: a + b + bc, b + ac, a + b + c + ab.
fn substitute_triple<E: Engine>(way: Direction, e: &mut E, cells: &mut [E::Wire], at: usize)
    requires place { at + 2 < length cells.old }
    requires gates { GatesLeft (E.acct e.old) 3 }
    ensures lanes { (j : ℕ) → lane j (map E.means cells.new) ≡ box_along way at (lane j (map E.means cells.old)) }
    ensures spent { Spent (E.acct e.old) 3 (E.acct e.new) }
{
    let a = cells[at];
    let b = cells[at + 1];
    let c = cells[at + 2];
    let bc = and(e, b, c);
    let ac = and(e, a, c);
    let ab = and(e, a, b);
    let sum = e.add(a, b);
    let all = e.add(sum, c);
    let (first, second) = match way {
        Direction::Encrypt => (a, sum),
        Direction::Decrypt => (sum, b),
    };
    cells[at] = e.add(first, bc);
    cells[at + 1] = e.add(second, ac);
    cells[at + 2] = e.add(all, ab);
}

// The substitution of the `m` lowest triples, or its inverse, in every lane.
pub(crate) fn substitute<E: Engine>(way: Direction, e: &mut E, cells: &mut [E::Wire], m: usize)
    requires places { 3 * m ≤ length cells.old }
    requires gates { GatesLeft (E.acct e.old) (3 * m) }
    ensures lanes { (j : ℕ) → lane j (map E.means cells.new) ≡ boxes way m (lane j (map E.means cells.old)) }
    ensures spent { Spent (E.acct e.old) (3 * m) (E.acct e.new) }
{
    // By index, since what is written through `chunks_exact_mut` is lost to the proof.
    for t in 0..m {
        substitute_triple(way, e, cells, 3 * t);
    }
}
