// The whole list on a well-formed state, and what is judged after the last operation.
ghost use Rattle.std.specs.Prelude.{◌≡◌, true};
ghost use Rattle.entry.specs.Guards.{settle, first};
ghost use Rattle.model.specs.Backend.{last_guards};
ghost use Rattle.model.specs.Calls.{write};
ghost use Rattle.state_cache.specs.State.{raw, numbers_in};
ghost use Rattle.state_cache.specs.Inner.{Small};
ghost use Rattle.state_cache.specs.Run.{run, settled, changed};
ghost use Rattle.backend.specs.Ops.{ops_in, lent_of};
ghost use Rattle.backend.specs.Inner.{midst_of, Kept, Listed, Wrote};

use super::super::{Lent, OpList};
use super::step::{Stepped, step};
use entry::{LogIndex, Refusal};
use state_cache::IndexRecord;

// What is judged after the last operation: refusals 9 and 12. Every operation keeps the words in form, so the numbers
// alone are asked.
fn judge_last(
    before: IndexRecord,
    after: Stepped,
    log: &[u64],
    snapshot: &[u64],
) -> Result<(), Refusal>
    requires kept { Kept (raw after.index log.now snapshot.now) }
    requires small { Small (numbers_in before) }
    ensures { settled result
        ≡ settle
        (first
        (last_guards (numbers_in before)
        (midst_of after.start (raw after.index log.now snapshot.now))))
        tt }
{
    let index = after.index;
    let last = state_cache::inner::accepted(before);
    let more = u64::from(index.stop_held) + index.batched as u64;
    if state_cache::inner::past_last(index.compacted.0, index.retained, more) {
        return Err(Refusal::PastLastIndex(LogIndex(last)));
    }
    if after.start != index.compacted.0 {
        return Err(Refusal::IllFormed);
    }
    if !state_cache::inner::numbers_formed(index) {
        return Err(Refusal::IllFormed);
    }
    Ok(())
}

// All operations in turn, on words that are of no use where one is refused.
fn run_ops(
    before: IndexRecord,
    log: &mut [u64],
    snapshot: &mut [u64],
    entries: &[u64],
    incoming: &[u64],
    lent: Lent,
    list: OpList,
) -> Result<IndexRecord, Refusal>
    requires { Listed (raw before log.old snapshot.old) lent entries.now incoming.now list }
    ensures { Wrote
        (raw before log.old snapshot.old)
        (lent_of lent entries.now incoming.now)
        (ops_in list)
        result log.new snapshot.new }
{
    let mut so_far = Stepped {
        start: before.compacted.0,
        index: before,
    };
    let ops = &list.ops[..list.count];
    for o in ops {
        so_far = step(before, so_far, log, snapshot, entries, incoming, lent, *o)?;
    }
    judge_last(before, so_far, log, snapshot)?;
    Ok(so_far.index)
}

// All operations or none: they run on copies of the words, which are written back where the whole list stands.
pub fn write_at(
    before: IndexRecord,
    log: &mut [u64],
    snapshot: &mut [u64],
    entries: &[u64],
    incoming: &[u64],
    lent: Lent,
    list: OpList,
) -> Result<IndexRecord, Refusal>
    requires { Listed (raw before log.old snapshot.old) lent entries.now incoming.now list }
    ensures { changed before result log.new snapshot.new
        ≡ run
        (write (lent_of lent entries.now incoming.now) (ops_in list))
        true
        (raw before log.old snapshot.old) }
{
    let mut words = [0u64; entry::LOG_WORDS];
    let mut keys = [0u64; entry::SNAPSHOT_WORDS];
    words::copy_words(log, &mut words);
    words::copy_words(snapshot, &mut keys);
    let after = run_ops(before, &mut words, &mut keys, entries, incoming, lent, list)?;
    words::copy_words(&words, log);
    words::copy_words(&keys, snapshot);
    Ok(after)
}
