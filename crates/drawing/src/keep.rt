// Which matrices are kept, of those that are drawn.
ghost use Rattle.std.specs.Prelude.{◌≡◌, ℕ, ◌*◌, ◌≤◌, Bool, true, List, length, take};
ghost use Rattle.bits.specs.Gf2.{Independent, flat, inverse_of, width_of};
ghost use Rattle.bits.specs.Matrices.{rows_in};
ghost use Rattle.cipher.specs.Laws.{Invertible};
ghost use Rattle.drawing.specs.Drawing.{keeps_key, keeps_layer};

use bits::elimination::invert;
use bits::matrix::{Matrix, independent};

// A test of matrices: which pass, how many rows of how many words they have to have, and what the test holds of the last one that passed.
pub(crate) trait Keep {
    ghost passes: { List ℕ → Bool };

    ghost takes: { ℕ → ℕ → Type 0 };

    ghost holds: { Self → List ℕ → Type 0 };

    // Whether a matrix passes.
    fn keeps(&mut self, m: Matrix<'_>) -> bool
        requires takes { takes m.height m.width }
        requires many { m.height ≤ 256 }
        requires wide { m.width ≤ 4 }
        requires size { length m.words.now ≡ m.height * m.width }
        ensures passes { result ≡ passes (rows_in m.entry) }
        ensures holds { result ≡ true → holds self.new (rows_in m.entry) };
}

// A layer is kept that has an inverse, which is held: no heap here, so as many words as the widest layer has, 256 rows of 4.
#[derive(Drop)]
pub(crate) struct Inverting {
    pub(crate) inverse: [u64; 1024],
}

impl Keep for Inverting {
    ghost passes = { keeps_layer };

    ghost takes = { λ n w. w ≡ width_of n };

    ghost holds = { λ s L. Invertible L × (take (length L * width_of (length L)) s.inverse ≡ flat (width_of (length L)) (inverse_of L)) };

    fn keeps(&mut self, m: Matrix<'_>) -> bool {
        let mut witness = [0u64; 4];
        let inverse = &mut self.inverse[..m.height * m.width];
        invert(m, inverse, &mut witness[..m.width]).is_ok()
    }
}

// A key matrix is kept whose rows are independent.
#[derive(Drop)]
pub(crate) struct Independence;

impl Keep for Independence {
    ghost passes = { keeps_key };

    ghost takes = { λ n w. Unit {0} };

    ghost holds = { λ s K. Independent K };

    fn keeps(&mut self, m: Matrix<'_>) -> bool {
        independent(m)
    }
}
