// Reading a set from a file.
ghost use Rattle.std.specs.Prelude.{◌≡◌, ℕ, ◌+◌, ◌*◌, ◌≤◌, ◌++◌, length, drop};
ghost use Rattle.cipher.specs.Parameters.{Lawful, prepared_words_of};
ghost use Rattle.cipher.specs.Sets.{Each, prepared};
ghost use Rattle.files.specs.Format.{end_at, set_of};
ghost use Rattle.files.specs.Reading.{Clashing, Exact, Opens, Read, room};
ghost use Rattle.cipher.specs.Laws.{Invertible};

use crate::layers::Layers;
use crate::reader::Reader;
use crate::rows::Rows;
use bits::refusal::{Fault, Layer, Refusal};
use cipher::params::Params;

// Where a set's witness goes: the words of the widest block.
pub const WITNESS_WORDS: usize = 4;

// Refuses too little room for the prepared words, then for a witness.
fn check_room(params: Params, words: usize, witness: usize) -> Result<(), Fault>
    ensures { result ≡ room params words witness }
{
    let needed = params.prepared_words();
    if words < needed {
        return Err(Fault::at(Refusal::TooFewWords, Layer::Set, needed));
    }
    if witness < WITNESS_WORDS {
        return Err(Fault::at(Refusal::TooFewWords, Layer::Set, WITNESS_WORDS));
    }
    Ok(())
}

// A file that passed the checks of its bytes, with the parameters of its header.
#[derive(Clone, Copy)]
struct SetFile<'a> {
    file: &'a [u8],
    params: Params,
    ghost limits: { Lawful params },
    ghost whole: { end_at params ≤ length file.now },
}

impl<'a> SetFile<'a> {
    // Its layers.
    fn layers(&self) -> Layers<'a>
        ensures bytes { result.bytes.now ≡ drop 8 self.now.file.now }
        ensures form { (result.n ≡ self.now.params.n) × (result.count ≡ self.now.params.r) }
    {
        Layers {
            bytes: &self.file[8..],
            n: self.params.n,
            count: self.params.r,
        }
    }

    // Writes its prepared words: layers, constants, key matrices, inverses.
    fn prepare(&self, words: &mut [u64])
        requires room { prepared_words_of self.now.params ≤ length words.old }
        requires invertible { Each Invertible (set_of self.now.params self.now.file.now).layers }
        ensures { words.new ≡ prepared (set_of self.now.params self.now.file.now) ++ drop (prepared_words_of self.now.params) words.old }
    {
        let Params { n, k, r, .. } = self.params;
        let r = usize::from(r);
        let layers = Rows { count: n, bits: n };
        let constants = Rows { count: 1, bits: n };
        let keys = Rows { count: n, bits: k };
        let from_layers = &self.file[8..];
        let from_constants = &from_layers[r * layers.record_size()..];
        let from_keys = &from_constants[r * constants.record_size()..];
        let (layer_words, rest) = words.split_at_mut(r * layers.words());
        let (constant_words, rest) = rest.split_at_mut(r * constants.words());
        let (key_words, rest) = rest.split_at_mut((r + 1) * keys.words());
        layers.load_records(from_layers, r, layer_words);
        constants.load_records(from_constants, r, constant_words);
        keys.load_records(from_keys, r + 1, key_words);
        self.layers().load_inverses(&mut rest[..r * layers.words()]);
    }
}

// Reads a set: its parameters, with the prepared words written. Refused, the words are as before; the witness is written
// only where a layer collapses.
pub fn read(file: &[u8], words: &mut [u64], witness: &mut [u64]) -> Result<Params, Fault>
    ensures read { Read file.now words.old witness.old words.new witness.new result }
    ensures clashing { Clashing file.now words.old witness.old result }
    ensures opens { Opens file.now words.new result }
    ensures exact { Exact file.now words.old witness.old words.new witness.new result }
{
    let mut reader = Reader::new(file);
    let params = reader.header()?;
    check_room(params, words.len(), witness.len())?;
    reader.survey()?;
    let set = SetFile { file, params };
    set.layers().check(witness)?;
    set.prepare(words);
    Ok(params)
}
