// Two lists of calls, each on an engine of its own kind, and a set file.
ghost use Rattle.sittings.specs.Runs.{Run};
ghost use Rattle.sittings.specs.Laws.{Sitting};

use crate::entry::Entry;
use crate::run::run;
use bits::refusal::Fault;
use cipher::params::Params;
use engines::engine::Engine;
use files::reading::read;

// Runs one list on one engine and the other list on the other, and reads the file; the answer is the file's. Seven parameters: two engines, two lists, and a
// file with the memory for it, each lent apart.
pub fn run_two<E: Engine, F: Engine>(
    first: &mut E,
    list: &mut [Entry<'_, E::Wire>],
    second: &mut F,
    other: &mut [Entry<'_, F::Wire>],
    file: &[u8],
    words: &mut [u64],
    witness: &mut [u64],
) -> Result<Params, Fault>
    ensures { Sitting E.means E.lanes (E.acct first.old) (E.acct first.new) list.old list.new F.means F.lanes (F.acct second.old) (F.acct second.new) other.old other.new file.now words.old witness.old words.new witness.new result }
{
    run(first, list);
    run(second, other);
    read(file, words, witness)
}
