// The parts of the calls that look at numbers alone, and what each call does once no refusal applies. In the modules
// below, each call of a state that is known to be well formed, on the record where it stands, since a record by value
// is copied once for each function that it goes through: the calls of a user judge it first.
ghost use Rattle.std.specs.Prelude.{◌≡◌, ◌+◌, ◌≤◌, true};
ghost use Rattle.entry.specs.Guards.{first, said_by};
ghost use Rattle.entry.specs.Limits.{entry_room};
ghost use Rattle.entry.specs.Change.{entries_of};
ghost use Rattle.model.specs.Append.{append_guards};
ghost use Rattle.model.specs.Calls.{append, append_now};
ghost use Rattle.model.specs.Inner.{Sound};
ghost use Rattle.state_cache.specs.State.{raw, numbers_in};
ghost use Rattle.state_cache.specs.Run.{outcome, run, index_said};
ghost use Rattle.internal_storage.specs.Replies.{flushed_is};
ghost use Rattle.internal_storage.specs.Inner.{verdict_of, batched_with, Appends};

use super::Flushed;
use entry::{LogIndex, Refusal};
use state_cache::IndexRecord;

pub mod append;
pub mod decide;
pub mod flush;
pub mod stop;

// Refusals 4, 9 and 1, of n entries more.
pub fn check_append(index: IndexRecord, n: usize) -> Result<(), Refusal>
    requires { Sound (numbers_in index) }
    ensures { verdict_of result ≡ first (append_guards n (numbers_in index)) }
{
    let last = state_cache::inner::accepted(index);
    if index.stop_held {
        return Err(Refusal::Stopped(LogIndex(last)));
    }
    if entry::LAST_INDEX - (last + index.batched as u64) < n as u64 {
        return Err(Refusal::PastLastIndex(LogIndex(last)));
    }
    if entry::ENTRIES - (index.retained + index.batched) < n {
        return Err(Refusal::NoRoom);
    }
    Ok(())
}

// The record once n entries have joined the batch: a batch at or above the batch size is flushed, all of it. No word
// moves for that.
pub fn batch_with(index: &mut IndexRecord, n: usize) -> Option<Flushed>
    requires { Sound (numbers_in index.old) × (index.old.retained + index.old.batched + n ≤ entry_room) }
    ensures { (index.new, result) ≡ batched_with n index.old }
{
    let waiting = index.batched + n;
    if index.batch_size <= waiting as u64 {
        index.retained += waiting;
        index.batched = 0;
        return Some(Flushed {
            accepted: LogIndex(state_cache::inner::accepted(*index)),
            entries: waiting,
        });
    }
    index.batched = waiting;
    None
}

// Appends n entries in form to a well-formed log, with batching, where no refusal applies.
pub fn append_at(
    index: &mut IndexRecord,
    log: &mut [u64],
    snapshot: &[u64],
    entries: &[u64],
    n: usize,
) -> Result<Option<Flushed>, Refusal>
    requires { Appends (raw index.old log.old snapshot.now) n entries.now }
    ensures { outcome (said_by flushed_is result) (raw index.new log.new snapshot.now)
        ≡ run (append (entries_of n entries.now)) true
        (raw index.old log.old snapshot.now) }
{
    check_append(*index, n)?;
    let used = (index.retained + index.batched) * entry::WIDTH;
    words::splice(log, used, used, 0, entries);
    Ok(batch_with(index, n))
}

// The same without batching: the entries go before the batch.
pub fn append_now_at(
    index: &mut IndexRecord,
    log: &mut [u64],
    snapshot: &[u64],
    entries: &[u64],
    n: usize,
) -> Result<LogIndex, Refusal>
    requires { Appends (raw index.old log.old snapshot.now) n entries.now }
    ensures { outcome (index_said result) (raw index.new log.new snapshot.now)
        ≡ run (append_now (entries_of n entries.now)) true
        (raw index.old log.old snapshot.now) }
{
    check_append(*index, n)?;
    let used = (index.retained + index.batched) * entry::WIDTH;
    words::splice(log, used, index.retained * entry::WIDTH, 0, entries);
    index.retained += n;
    Ok(LogIndex(state_cache::inner::accepted(*index)))
}
