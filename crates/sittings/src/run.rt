// Running a list of calls on one engine, in order.
ghost use Rattle.std.specs.Prelude.{◌≡◌};
ghost use Rattle.sittings.specs.Runs.{Answered, Coded, Run, Step};

use crate::entry::{Batch, Call, Entry};
use batches::batch::run_batch;
use bits::refusal::Fault;
use cipher::direction::Direction;
use engines::engine::Engine;

// Runs a batch in place.
fn run_one<E: Engine>(
    way: Direction,
    engine: &mut E,
    batch: &mut Batch<'_, E::Wire>,
) -> Result<(), Fault>
    ensures { Coded E.means E.lanes way (E.acct engine.old) batch.old batch.new result (E.acct engine.new) }
{
    run_batch(
        way,
        engine,
        &batch.held,
        batch.count,
        &mut batch.blocks,
        &batch.keys,
        &batch.masks,
        &mut batch.cells,
    )
}

// Makes a call.
fn make<E: Engine>(engine: &mut E, call: &mut Call<'_, E::Wire>) -> Result<(), Fault>
    ensures { Step E.means E.lanes (E.acct engine.old) call.old call.new result (E.acct engine.new) }
{
    match call {
        Call::Grant(amount) => engine.grant(*amount),
        Call::Encrypt(batch) => run_one(Direction::Encrypt, engine, batch),
        Call::Decrypt(batch) => run_one(Direction::Decrypt, engine, batch),
    }
}

// Makes the call of an entry, which keeps the answer.
fn answer<E: Engine>(engine: &mut E, entry: &mut Entry<'_, E::Wire>)
    ensures { Answered E.means E.lanes (E.acct engine.old) entry.old entry.new (E.acct engine.new) }
{
    entry.answer = Some(make(engine, &mut entry.call));
}

// Makes the calls of a list in order; each entry keeps its own answer.
pub fn run<E: Engine>(engine: &mut E, list: &mut [Entry<'_, E::Wire>])
    ensures { Run E.means E.lanes (E.acct engine.old) list.old list.new (E.acct engine.new) }
{
    for x in list.iter_mut() {
        answer(engine, x);
    }
}
