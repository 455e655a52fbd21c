// A set file with matrices that look random, about half of their bits ones. To keep layers from collapsing, each is made of rows that have ones on the
// diagonal and zeros below, every row added to all that follow.
use cipher::params::Params;
use files::reader::Mark;
use noise::Noise;
use std::alloc::Global;

// The letters that a record begins with.
fn letters(mark: Mark) -> &'static [u8] {
    match mark {
        Mark::Header => b"PR",
        Mark::Layer => b"LM",
        Mark::Constant => b"RC",
        Mark::Key => b"KM",
        Mark::End => b"EN",
    }
}

// A file that is being written, and what its bits come from.
#[derive(Drop)]
struct Maker {
    heap: Global,
    file: Vec<u8>,
    noise: Noise,
}

impl Maker {
    // Byte `c` of a row of `bits` bits whose bits below `from` are 0 and whose bit `from` is 1.
    fn row_byte(&mut self, c: usize, from: usize, bits: usize) -> u8 {
        let x = self.noise.word();
        let start = c.saturating_mul(8);
        (0..8usize)
            .filter(|t| {
                let j = start.saturating_add(*t);
                j < bits && (j == from || (j > from && (x >> *t) % 2 == 1))
            })
            .fold(0, |byte, t| byte | 1u8 << t)
    }

    // Adds such a row to what stands in `row`.
    fn add_row(&mut self, row: &mut [u8], from: usize, bits: usize) {
        for (c, byte) in row.iter_mut().enumerate() {
            *byte ^= self.row_byte(c, from, bits);
        }
    }

    // A record. Row `i` of a layer is the one before it and a row that begins at bit `i`.
    fn push_record(
        &mut self,
        mark: Mark,
        number: u8,
        rows: usize,
        bits: usize,
    ) -> anyhow::Result<()> {
        self.file.extend_from_slice(letters(mark))?;
        self.file.push(number)?;
        let mut row = vec![in self.heap; 0u8; bits.div_ceil(8)]?;
        for i in 0..rows {
            if mark == Mark::Layer {
                self.add_row(&mut row, i, bits);
            } else {
                row.fill(0);
                self.add_row(&mut row, 0, bits);
            }
            self.file.extend_from_slice(&row)?;
        }
        Ok(())
    }

    fn push_header(&mut self, p: Params) -> anyhow::Result<()> {
        self.file.extend_from_slice(letters(Mark::Header))?;
        self.file.extend_from_slice(&p.n.to_be_bytes())?;
        self.file.extend_from_slice(&p.k.to_be_bytes())?;
        self.file.push((p.m % 256) as u8)?;
        self.file.push((p.r % 256) as u8)?;
        Ok(())
    }
}

// The file of a set with these parameters.
pub fn make_file(heap: Global, p: Params) -> anyhow::Result<Vec<u8>> {
    let mut maker = Maker {
        heap,
        file: Vec::new(heap),
        noise: Noise::new(),
    };
    let (n, k, r) = (p.n as usize, p.k as usize, (p.r % 256) as u8);
    maker.push_header(p)?;
    for number in 1..=r {
        maker.push_record(Mark::Layer, number, n, n)?;
    }
    for number in 1..=r {
        maker.push_record(Mark::Constant, number, 1, n)?;
    }
    for number in 0..=r {
        maker.push_record(Mark::Key, number, n, k)?;
    }
    maker.file.extend_from_slice(letters(Mark::End))?;
    Ok(maker.file)
}
