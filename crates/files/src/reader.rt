// The stepping reader: it walks over a set file record by record, and hands out each as a part of the file.
ghost use Rattle.std.specs.Prelude.{◌≡◌, ℕ, ◌+◌, ◌*◌, ◌^◌, ◌<◌, ◌≤◌, [], ◌∷◌, length, drop, IfOk};
ghost use Rattle.files.specs.Faults.{record_slots, seen};
ghost use Rattle.files.specs.Walks.{WholeFile};
ghost use Rattle.files.specs.Steps.{NumberedTo, Stepped, after_header, at_start, body_size_of, head_size_of, mark_or_wrong, next_of, params_at, state_of};
ghost use Rattle.files.specs.Reading.{header as header_in};
ghost use Rattle.files.specs.Surveys.{Advanced, Sound, judged_from, look_of};

use crate::rows::{Rows, byte_width};
use bits::refusal::{Fault, Layer as Part, Refusal};
use cipher::params::Params;

// The five kinds of record, each by its mark of two letters.
#[derive(Clone, Copy, PartialEq, Eq, Debug)]
pub enum Mark {
    Header, // PR
    Layer, // LM
    Constant, // RC
    Key, // KM
    End, // EN
}

// A record of the file. Its body borrows from the file, so that it outlives the reader.
#[derive(Clone, Copy)]
pub struct Record<'a> {
    pub mark: Mark,
    pub number: u8, // 0 where the mark has none, as `step` promises: a value that may be missing would be another promise
    pub offset: usize,
    pub body: &'a [u8],
}

// A reader and where it stands. The parameters are zeros until the header is read, as `new` and `params` promise: an `Option` would be another promise.
#[derive(Drop)]
pub struct Reader<'a> {
    file: &'a [u8],
    at: usize,
    due: Option<Mark>,
    round: u16, // as wide as the parameter that it goes up to
    params: Params,
}

impl TryFrom<[u8; 2]> for Mark {
    type Error = Refusal;

    ghost try_from_gives = { λ letters r. r ≡ mark_or_wrong letters };

    // The mark that two letters are.
    fn try_from(letters: [u8; 2]) -> Result<Mark, Refusal>
        ensures { result ≡ mark_or_wrong letters }
    {
        match &letters {
            b"PR" => Ok(Mark::Header),
            b"LM" => Ok(Mark::Layer),
            b"RC" => Ok(Mark::Constant),
            b"KM" => Ok(Mark::Key),
            b"EN" => Ok(Mark::End),
            _ => Err(Refusal::WrongMark),
        }
    }
}

impl Mark {
    // Bytes before a record's body: its mark, and its number if it has one.
    fn head_size(self) -> usize
        ensures { result ≡ head_size_of self }
    {
        match self {
            Mark::Header | Mark::End => 2,
            Mark::Layer | Mark::Constant | Mark::Key => 3,
        }
    }

    // Bytes of a record's body. Not by `Rows`: those ask for at least one bit, and the parameters before the header are zeros.
    fn body_size(self, params: Params) -> usize
        ensures { result ≡ body_size_of params self }
    {
        let Params { n, k, .. } = params;
        match self {
            Mark::Header => 6,
            Mark::Layer => usize::from(n) * byte_width(n),
            Mark::Constant => byte_width(n),
            Mark::Key => usize::from(n) * byte_width(k),
            Mark::End => 0,
        }
    }

    // What is due after the last record of a mark, and the number that it has, or 0: the laws of the reader have a number for each state.
    fn next(self) -> (Option<Mark>, u16)
        ensures { result ≡ next_of self }
    {
        match self {
            Mark::Header => (Some(Mark::Layer), 1),
            Mark::Layer => (Some(Mark::Constant), 1),
            Mark::Constant => (Some(Mark::Key), 0),
            Mark::Key => (Some(Mark::End), 0),
            Mark::End => (None, 0),
        }
    }
}

// The parameters in a header whose body begins at `at`.
fn params_at(file: &[u8], at: usize) -> Params
    requires { at + 6 ≤ length file.now }
    ensures { result ≡ params_at file.now at }
{
    // by index: a chunk of six bytes would want a way out where there are fewer
    Params {
        n: u16::from_be_bytes([file[at], file[at + 1]]),
        k: u16::from_be_bytes([file[at + 2], file[at + 3]]),
        m: u16::from(file[at + 4]),
        r: u16::from(file[at + 5]),
    }
}

// Before the header is read.
const NO_PARAMS: Params = Params {
    n: 0,
    k: 0,
    m: 0,
    r: 0,
};

impl<'a> Reader<'a> {
    // A reader before the header of `file`.
    pub fn new(file: &'a [u8]) -> Reader<'a>
        ensures file { result.file ≡ file.entry }
        ensures state { state_of result ≡ at_start }
    {
        Reader {
            file,
            at: 0,
            due: Some(Mark::Header),
            round: 0,
            params: NO_PARAMS,
        }
    }

    // The parameters of the header; zeros until it is read.
    pub fn params(&self) -> Params
        ensures { result ≡ (state_of self.now).params }
    {
        self.params // as the header gave them
    }

    // Past a record of a series: its number, if it is the one due. After the last round what follows the series is due.
    fn numbered(&mut self, mark: Mark, number: u8) -> Result<u8, Fault>
        requires place { self.old.at + 2 < 2 ^ 64 }
        requires due { self.old.due ≡ Some mark }
        ensures file { self.new.file ≡ self.old.file }
        ensures number { NumberedTo (state_of self.old) number mark (state_of self.new) result }
    {
        if u16::from(number) != self.round {
            return Err(Fault::at(Refusal::WrongNumber, Part::File, self.at + 2));
        }
        if self.round < self.params.r {
            self.round += 1;
        } else {
            (self.due, self.round) = mark.next();
        }
        Ok(number)
    }

    // The parameters, by the step over the header; for a reader that has not stepped yet.
    pub(crate) fn header(&mut self) -> Result<Params, Fault>
        requires { state_of self.old ≡ at_start }
        ensures file { self.new.file ≡ self.old.file }
        ensures value { result ≡ header_in self.old.file.now }
        ensures state { IfOk result (λ p. state_of self.new ≡ after_header p) }
    {
        self.step()?;
        Ok(self.params)
    }

    // The first wrong place in the record due, one of a series with these rows, as far as it is there.
    fn look_record(&self, mark: Mark, rows: Rows) -> Result<(), Fault>
        requires { self.now.at ≤ length self.now.file.now }
        ensures { result ≡ seen self.now.at (record_slots mark rows.bits rows.count self.now.round) (drop self.now.at self.now.file.now) }
    {
        let at = self.at;
        let Some((letters, rest)) = self.file[at..].split_first_chunk() else {
            return Ok(());
        };
        if Mark::try_from(*letters) != Ok(mark) {
            return Err(Fault::at(Refusal::WrongMark, Part::File, at));
        }
        let Some((&found, body)) = rest.split_first() else {
            return Ok(());
        };
        if u16::from(found) != self.round {
            return Err(Fault::at(Refusal::WrongNumber, Part::File, at + 2));
        }
        rows.look(body, at + 3)
    }

    // What is wrong with the record due, if it is one of a series, as far as it is there. Two marks have no rows: rows by mark, for here and for the reading of
    // a set, would come as an `Option`, which where the mark is known could never be none.
    fn look(&self) -> Result<(), Fault>
        requires { Sound self.now.file.now (state_of self.now) }
        ensures { result ≡ look_of self.now.file.now (state_of self.now) }
    {
        let Params { n, k, .. } = self.params;
        match self.due {
            Some(Mark::Layer) => self.look_record(Mark::Layer, Rows { count: n, bits: n }),
            Some(Mark::Constant) => self.look_record(Mark::Constant, Rows { count: 1, bits: n }),
            Some(Mark::Key) => self.look_record(Mark::Key, Rows { count: n, bits: k }),
            _ => Ok(()),
        }
    }

    // The next record, or none after the end mark. Refused where the record due is not whole, has another mark, has
    // parameters outside the limits or another number, or where a byte follows the end mark; then the reader stays.
    pub fn step(&mut self) -> Result<Option<Record<'a>>, Fault>
        ensures file { self.new.file ≡ self.old.file }
        ensures step { Stepped self.old.file.now (state_of self.old) (state_of self.new) result }
    {
        let (file, at) = (self.file, self.at);
        let Some(due) = self.due else {
            return Ok(None);
        };
        let head = due.head_size();
        let size = due.body_size(self.params);
        if file.len().saturating_sub(at) < head + size {
            return Err(Fault::at(Refusal::Truncated, Part::File, file.len()));
        }
        let number = match (due, Mark::try_from([file[at], file[at + 1]])) {
            (Mark::Header, Ok(Mark::Header)) => {
                let params = params_at(file, at + 2);
                params.check()?;
                self.params = params;
                (self.due, self.round) = due.next();
                0
            }
            (Mark::Layer, Ok(Mark::Layer))
            | (Mark::Constant, Ok(Mark::Constant))
            | (Mark::Key, Ok(Mark::Key)) => self.numbered(due, file[at + 2])?,
            (Mark::End, Ok(Mark::End)) => {
                if at + 2 < file.len() {
                    return Err(Fault::at(Refusal::WrongMark, Part::File, at + 2));
                }
                (self.due, self.round) = due.next();
                0
            }
            _ => {
                return Err(Fault::at(Refusal::WrongMark, Part::File, at));
            }
        };
        let offset = at + head;
        self.at = offset + size;
        Ok(Some(Record {
            mark: due,
            number,
            offset,
            body: &file[offset..offset + size],
        }))
    }

    // One record further, which is handed on: refused where something is wrong with it, by the lowest place; none where none was left.
    fn advance(&mut self) -> Result<Option<Record<'a>>, Fault>
        requires { Sound self.old.file.now (state_of self.old) }
        ensures file { self.new.file ≡ self.old.file }
        ensures moved { Advanced self.old.file.now (state_of self.old) (state_of self.new) result }
    {
        self.look()?;
        self.step()
    }

    // Walks over the rest of the file after its header, and refuses it by the lowest place at which something is wrong.
    pub(crate) fn survey(&mut self) -> Result<(), Fault>
        requires { Sound self.old.file.now (state_of self.old) }
        ensures { result ≡ judged_from self.old.file.now (state_of self.old) }
    {
        while self.advance()?.is_some() {}
        Ok(())
    }
}

// The records of a file that is stepped through to its end, each as its mark, number and body, are that file: no byte is passed over, none is left.
pub fn steps_stand()
    ensures { WholeFile }
{}
