// The published parameter sets.
ghost use Rattle.std.specs.Prelude.{◌≡◌};
ghost use Rattle.cipher.specs.Published.{Ruled, row_of};

use crate::params::Params;
pub use crate::row::Published;

// Block bits, triples, key bits, rounds, AND gates.
const TABLE: [(u16, u16, u16, u16, u64); 9] = [
    (256, 49, 80, 12, 1764),
    (128, 31, 80, 12, 1116),
    (64, 1, 80, 164, 492),
    (256, 63, 128, 14, 2646),
    (196, 63, 128, 14, 2646),
    (128, 3, 128, 88, 792),
    (128, 2, 128, 128, 768),
    (128, 1, 128, 252, 756),
    (256, 10, 256, 52, 1560),
];

// The table alone: the rule over it is proved once, for `published`.
fn look_up(row: usize) -> Option<Published>
    ensures { result ≡ row_of row }
{
    let (n, m, k, r, gates) = TABLE.get(row).copied()?;
    let params = Params { n, k, m, r };
    Some(Published { params, gates })
}

// The set of that number, from 0 to 8. Its gates are 3mr, and its parameters are within the limits.
pub fn published(row: usize) -> Option<Published>
    ensures pinned { result ≡ row_of row }
    ensures ruled { Ruled result }
{
    look_up(row)
}
