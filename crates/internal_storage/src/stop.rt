// The stop-sign: appended after a flush, or set, or taken away.
ghost use Rattle.std.specs.Prelude.{◌≡◌, true};
ghost use Rattle.model.specs.Calls.{append_stop, set_stop};
ghost use Rattle.state_cache.specs.State.{raw};
ghost use Rattle.state_cache.specs.Run.{run, index_at, changed_at};
ghost use Rattle.internal_storage.specs.Replies.{flushed_is, sign_is};

use super::Flushed;
use entry::{LogIndex, Refusal, StopSign};
use state_cache::IndexRecord;

// Flushes the batch and holds the stop-sign after it; the reply says what was flushed, as that of an append.
pub fn append_stopsign(
    index: IndexRecord,
    log: &[u64],
    snapshot: &[u64],
    ss: StopSign,
) -> Result<(IndexRecord, Option<Flushed>), Refusal>
    ensures { changed_at flushed_is index result log.now snapshot.now
        ≡ run (append_stop ss) true (raw index log.now snapshot.now) }
{
    if !state_cache::well_formed(index, log, snapshot) {
        return Err(Refusal::IllFormed);
    }
    let mut next = index;
    let flushed = super::inner::stop::append_stopsign(&mut next, log, snapshot, ss)?;
    Ok((next, flushed))
}

// Without a stop-sign the one held is taken away.
pub fn set_stopsign(
    index: IndexRecord,
    log: &[u64],
    snapshot: &[u64],
    ss: Option<StopSign>,
) -> Result<(IndexRecord, LogIndex), Refusal>
    ensures { changed_at index_at index result log.now snapshot.now
        ≡ run (set_stop (sign_is ss)) true (raw index log.now snapshot.now) }
{
    if !state_cache::well_formed(index, log, snapshot) {
        return Err(Refusal::IllFormed);
    }
    let mut next = index;
    let accepted = super::inner::stop::set_stopsign(&mut next, log, snapshot, ss)?;
    Ok((next, accepted))
}
