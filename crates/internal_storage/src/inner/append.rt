// Appends of entries to a log that is known to be well formed: not for a user, whose calls are in append.rt.
ghost use Rattle.std.specs.Prelude.{◌≡◌, true, [], ◌∷◌};
ghost use Rattle.entry.specs.Change.{said_is, entries_in, whole_in};
ghost use Rattle.entry.specs.Guards.{said_by};
ghost use Rattle.model.specs.Calls.{append, append_now};
ghost use Rattle.state_cache.specs.State.{raw};
ghost use Rattle.state_cache.specs.Inner.{Ready};
ghost use Rattle.state_cache.specs.Run.{outcome, run, index_said};
ghost use Rattle.internal_storage.specs.Replies.{flushed_is, maybe_at, with_index_only};

use super::super::Flushed;
use entry::{LogIndex, Refusal, Said};
use state_cache::IndexRecord;

pub fn append_entry_with_batching(
    index: &mut IndexRecord,
    log: &mut [u64],
    snapshot: &[u64],
    key: u64,
    said: Said,
) -> Result<Option<Flushed>, Refusal>
    requires { Ready (raw index.old log.old snapshot.now) }
    ensures { outcome (said_by flushed_is result) (raw index.new log.new snapshot.now)
        ≡ run
        (append (record { key = key; said = said_is said } ∷ []))
        true
        (raw index.old log.old snapshot.now) }
{
    let words = entry::inner::lent(key, said);
    append_entries_with_batching(index, log, snapshot, &words)
}

pub fn append_entries_with_batching(
    index: &mut IndexRecord,
    log: &mut [u64],
    snapshot: &[u64],
    entries: &[u64],
) -> Result<Option<Flushed>, Refusal>
    requires { Ready (raw index.old log.old snapshot.now) }
    ensures { outcome (said_by flushed_is result) (raw index.new log.new snapshot.now)
        ≡ run (append (entries_in entries.now)) (whole_in entries.now)
        (raw index.old log.old snapshot.now) }
{
    if !entry::entries_formed(entries) {
        return Err(Refusal::Malformed);
    }
    super::append_at(index, log, snapshot, entries, entries.len() / entry::WIDTH)
}

pub fn append_entries_without_batching(
    index: &mut IndexRecord,
    log: &mut [u64],
    snapshot: &[u64],
    entries: &[u64],
) -> Result<LogIndex, Refusal>
    requires { Ready (raw index.old log.old snapshot.now) }
    ensures { outcome (index_said result) (raw index.new log.new snapshot.now)
        ≡ run (append_now (entries_in entries.now)) (whole_in entries.now)
        (raw index.old log.old snapshot.now) }
{
    if !entry::entries_formed(entries) {
        return Err(Refusal::Malformed);
    }
    super::append_now_at(index, log, snapshot, entries, entries.len() / entry::WIDTH)
}

pub fn append_entries_and_get_accepted_idx(
    index: &mut IndexRecord,
    log: &mut [u64],
    snapshot: &[u64],
    entries: &[u64],
) -> Result<Option<LogIndex>, Refusal>
    requires { Ready (raw index.old log.old snapshot.now) }
    ensures { outcome (said_by maybe_at result) (raw index.new log.new snapshot.now)
        ≡ with_index_only
        (run (append (entries_in entries.now)) (whole_in entries.now)
        (raw index.old log.old snapshot.now)) }
{
    let flushed = append_entries_with_batching(index, log, snapshot, entries)?;
    Ok(flushed.map(|f| f.accepted))
}
