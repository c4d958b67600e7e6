// Flushes of a log that is known to be well formed: not for a user, whose calls are in flush.rt.
ghost use Rattle.std.specs.Prelude.{◌≡◌, true};
ghost use Rattle.entry.specs.Guards.{said_by};
ghost use Rattle.model.specs.Calls.{flush as flushCall, flush_entries};
ghost use Rattle.model.specs.Inner.{Sound};
ghost use Rattle.state_cache.specs.State.{raw, numbers_in};
ghost use Rattle.state_cache.specs.Inner.{Ready};
ghost use Rattle.state_cache.specs.Run.{outcome, run, index_said};
ghost use Rattle.internal_storage.specs.Replies.{flushed_is};
ghost use Rattle.internal_storage.specs.Inner.{flush_says, all_flushed};

use super::super::Flushed;
use entry::{LogIndex, Refusal};
use state_cache::IndexRecord;

// The record once the batch is flushed, all of it. No word moves.
pub fn flush(index: &mut IndexRecord)
    requires { Sound (numbers_in index.old) }
    ensures { index.new ≡ all_flushed index.old }
{
    index.retained += index.batched;
    index.batched = 0;
}

// What such a flush says.
pub fn flush_answer(index: IndexRecord) -> Option<Flushed>
    requires { Sound (numbers_in index) }
    ensures { flushed_is result ≡ flush_says index }
{
    let waiting = index.batched;
    if waiting == 0 {
        return None;
    }
    let mut next = index;
    flush(&mut next);
    Some(Flushed {
        accepted: LogIndex(state_cache::inner::accepted(next)),
        entries: waiting,
    })
}

pub fn flush_batch(
    index: &mut IndexRecord,
    log: &[u64],
    snapshot: &[u64],
) -> Result<LogIndex, Refusal>
    requires { Ready (raw index.old log.now snapshot.now) }
    ensures { outcome (index_said result) (raw index.new log.now snapshot.now)
        ≡ run flushCall true (raw index.old log.now snapshot.now) }
{
    flush(index);
    Ok(LogIndex(state_cache::inner::accepted(*index)))
}

pub fn flush_batch_and_get_entries(
    index: &mut IndexRecord,
    log: &[u64],
    snapshot: &[u64],
) -> Result<Option<Flushed>, Refusal>
    requires { Ready (raw index.old log.now snapshot.now) }
    ensures { outcome (said_by flushed_is result) (raw index.new log.now snapshot.now)
        ≡ run flush_entries true (raw index.old log.now snapshot.now) }
{
    let flushed = flush_answer(*index);
    flush(index);
    Ok(flushed)
}
