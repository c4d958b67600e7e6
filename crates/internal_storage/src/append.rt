// Appends of entries, with and without batching.
ghost use Rattle.std.specs.Prelude.{◌≡◌, true, [], ◌∷◌};
ghost use Rattle.entry.specs.Change.{said_is, entries_in, whole_in};
ghost use Rattle.model.specs.Calls.{append, append_now};
ghost use Rattle.state_cache.specs.State.{raw};
ghost use Rattle.state_cache.specs.Run.{run, index_at, changed_at};
ghost use Rattle.internal_storage.specs.Replies.{flushed_is, maybe_at, with_index_only};

use super::Flushed;
use entry::{LogIndex, Refusal, Said};
use state_cache::IndexRecord;

// One entry into the batch. A batch that is full with it is flushed, and the reply then says what was.
pub fn append_entry_with_batching(
    index: IndexRecord,
    log: &mut [u64],
    snapshot: &[u64],
    key: u64,
    said: Said,
) -> Result<(IndexRecord, Option<Flushed>), Refusal>
    ensures { changed_at flushed_is index result log.new snapshot.now
        ≡ run
        (append (record { key = key; said = said_is said } ∷ []))
        true
        (raw index log.old snapshot.now) }
{
    if !state_cache::well_formed(index, log, snapshot) {
        return Err(Refusal::IllFormed);
    }
    let mut next = index;
    let flushed = super::inner::append::append_entry_with_batching(
        &mut next, log, snapshot, key, said,
    )?;
    Ok((next, flushed))
}

// The entries that the words lend, into the batch, as one.
pub fn append_entries_with_batching(
    index: IndexRecord,
    log: &mut [u64],
    snapshot: &[u64],
    entries: &[u64],
) -> Result<(IndexRecord, Option<Flushed>), Refusal>
    ensures { changed_at flushed_is index result log.new snapshot.now
        ≡ run (append (entries_in entries.now)) (whole_in entries.now)
        (raw index log.old snapshot.now) }
{
    if !state_cache::well_formed(index, log, snapshot) {
        return Err(Refusal::IllFormed);
    }
    let mut next = index;
    let flushed = super::inner::append::append_entries_with_batching(
        &mut next, log, snapshot, entries,
    )?;
    Ok((next, flushed))
}

// The batch is flushed, then the entries that the words lend stand after it. The reply is the accepted index.
pub fn append_entries_without_batching(
    index: IndexRecord,
    log: &mut [u64],
    snapshot: &[u64],
    entries: &[u64],
) -> Result<(IndexRecord, LogIndex), Refusal>
    ensures { changed_at index_at index result log.new snapshot.now
        ≡ run (append_now (entries_in entries.now)) (whole_in entries.now)
        (raw index log.old snapshot.now) }
{
    if !state_cache::well_formed(index, log, snapshot) {
        return Err(Refusal::IllFormed);
    }
    let mut next = index;
    let accepted = super::inner::append::append_entries_without_batching(
        &mut next, log, snapshot, entries,
    )?;
    Ok((next, accepted))
}

// As `append_entries_with_batching`, with the accepted index alone for a reply, and nothing where none was flushed.
pub fn append_entries_and_get_accepted_idx(
    index: IndexRecord,
    log: &mut [u64],
    snapshot: &[u64],
    entries: &[u64],
) -> Result<(IndexRecord, Option<LogIndex>), Refusal>
    ensures { changed_at maybe_at index result log.new snapshot.now
        ≡ with_index_only
        (run (append (entries_in entries.now)) (whole_in entries.now)
        (raw index log.old snapshot.now)) }
{
    if !state_cache::well_formed(index, log, snapshot) {
        return Err(Refusal::IllFormed);
    }
    let mut next = index;
    let accepted = super::inner::append::append_entries_and_get_accepted_idx(
        &mut next, log, snapshot, entries,
    )?;
    Ok((next, accepted))
}
