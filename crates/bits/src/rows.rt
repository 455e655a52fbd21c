// Matrices in memory: a row after a row, each of as many words as the others.
ghost use Rattle.std.specs.Prelude.{◌≡◌, ◌*◌, ◌<◌, ◌≤◌, length, take, drop};
ghost use Rattle.std.specs.Iterator.{YieldsFirstRef, item_count};
ghost use Rattle.bits.specs.Gf2.{Words, row_words};

// A matrix that is lent: its rows are the words that they begin with.
#[derive(Clone, Copy)]
pub struct Matrix<'a> {
    pub words: &'a [u64],
    pub width: usize,
    pub height: usize,
    ghost fits: { height * width ≤ length words.now },
    ghost typed: { Words words.now },
}

// The rows of a matrix that are still to come.
#[derive(Drop)]
pub struct Rows<'a> {
    words: &'a [u64],
    width: usize,
    left: usize,
    ghost fits: { left * width ≤ length words.now },
}

impl<'a> Matrix<'a> {
    // The matrix of `height` rows of `width` words.
    pub fn new(words: &'a [u64], width: usize, height: usize) -> Matrix<'a>
        requires { height * width ≤ length words.now }
        ensures words { result.words.now ≡ words.now }
        ensures shape { (result.width ≡ width) × (result.height ≡ height) }
    {
        Matrix {
            words,
            width,
            height,
        }
    }

    // Row `i`.
    pub fn row(self, i: usize) -> &'a [u64]
        requires { i < self.height }
        ensures { result.now ≡ take self.entry.width (drop (i * self.entry.width) self.entry.words.now) }
    {
        let start = i * self.width;
        &self.words[start..start + self.width]
    }

    // The rows, from the first.
    pub fn rows(self) -> Rows<'a>
        ensures { row_words result.width result.left result.words.now ≡ row_words self.entry.width self.entry.height self.entry.words.now }
    {
        Rows {
            words: self.words,
            width: self.width,
            left: self.height,
        }
    }
}

// Not `chunks_exact`: that refuses rows of no words, which no contract here excludes.
impl<'a> Iterator for Rows<'a> {
    type Item = &'a [u64];

    ghost next_gives = { YieldsFirstRef (λ s. row_words s.width s.left s.words.now) };

    ghost remaining = { item_count (λ s. row_words s.width s.left s.words.now) };

    fn next(&mut self) -> Option<&'a [u64]> {
        if self.left == 0 {
            return None;
        }
        let (row, rest) = self.words.split_at(self.width);
        self.words = rest;
        self.left -= 1;
        Some(row)
    }
}
