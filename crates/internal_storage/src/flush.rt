// Flushes. The entries flushed are the last of those retained, so a reply need only count them.
ghost use Rattle.std.specs.Prelude.{◌≡◌, true};
ghost use Rattle.model.specs.Calls.{flush, flush_entries};
ghost use Rattle.state_cache.specs.State.{raw};
ghost use Rattle.state_cache.specs.Run.{run, index_at, changed_at};
ghost use Rattle.internal_storage.specs.Replies.{flushed_is};

use super::Flushed;
use entry::{LogIndex, Refusal};
use state_cache::IndexRecord;

// Flushes the batch; the reply is the accepted index after it.
pub fn flush_batch(
    index: IndexRecord,
    log: &[u64],
    snapshot: &[u64],
) -> Result<(IndexRecord, LogIndex), Refusal>
    ensures { changed_at index_at index result log.now snapshot.now
        ≡ run flush true (raw index log.now snapshot.now) }
{
    if !state_cache::well_formed(index, log, snapshot) {
        return Err(Refusal::IllFormed);
    }
    let mut next = index;
    let accepted = super::inner::flush::flush_batch(&mut next, log, snapshot)?;
    Ok((next, accepted))
}

// Flushes the batch; the reply says how many entries that were, or that there was none.
pub fn flush_batch_and_get_entries(
    index: IndexRecord,
    log: &[u64],
    snapshot: &[u64],
) -> Result<(IndexRecord, Option<Flushed>), Refusal>
    ensures { changed_at flushed_is index result log.now snapshot.now
        ≡ run flush_entries true (raw index log.now snapshot.now) }
{
    if !state_cache::well_formed(index, log, snapshot) {
        return Err(Refusal::IllFormed);
    }
    let mut next = index;
    let flushed = super::inner::flush::flush_batch_and_get_entries(&mut next, log, snapshot)?;
    Ok((next, flushed))
}
