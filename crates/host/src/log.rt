// The calls that change a log: appends, flushes, the stop-sign, marks, compaction and sync. Names are the library's.
ghost use Rattle.std.specs.Prelude.{◌≡◌, true, [], ◌∷◌};
ghost use Rattle.std.specs.Bool.{then_some};
ghost use Rattle.entry.specs.Change.{entries_in, whole_in};
ghost use Rattle.model.specs.Calls.{append, append_now, flush, flush_entries, append_stop, set_stop, set_promise, decide};
ghost use Rattle.model.specs.Calls.{compact, sync as syncCall};
ghost use Rattle.state_cache.specs.State.{raw};
ghost use Rattle.state_cache.specs.Run.{run};
ghost use Rattle.internal_storage.specs.Replies.{with_index_only};
ghost use Rattle.sync.specs.Requests.{part_of, lent_whole};
ghost use Rattle.host.specs.Plain.{nothing, a_number, maybe_number, maybe_flushed, left, plainly};
ghost use Rattle.host.specs.Requests.{of_flag, lent_said, what_of, sync_at};

use super::{PlainSync, Reply, answers, asked};
use entry::{Ballot, BlockPlace, LogIndex, StopSign};
use state_cache::IndexRecord;

// Adds an entry to the batch, as the call for several does. Where `removed` is set the place is not looked at.
#[unsafe(no_mangle)]
pub extern "C" fn kotuseraw_append_entry_with_batching(
    index: IndexRecord,
    log: &mut [u64],
    snapshot: &[u64],
    key: u64,
    removed: bool,
    place: BlockPlace,
) -> Reply
    ensures { left result.said (raw result.index log.new snapshot.now)
        ≡ plainly maybe_flushed
        (run (append (record { key = key; said = lent_said removed place.0 } ∷ [])) true
        (raw index log.old snapshot.now)) }
{
    let entry = asked::entry_said(removed, place);
    answers::reply(
        index,
        internal_storage::append_entry_with_batching(index, log, snapshot, key, entry),
    )
}

// Adds entries to the batch; once it has as many as the batch size, or more, all of it flushes.
#[unsafe(no_mangle)]
pub extern "C" fn kotuseraw_append_entries_with_batching(
    index: IndexRecord,
    log: &mut [u64],
    snapshot: &[u64],
    entries: &[u64],
) -> Reply
    ensures { left result.said (raw result.index log.new snapshot.now)
        ≡ plainly maybe_flushed (run (append (entries_in entries.now)) (whole_in entries.now)
        (raw index log.old snapshot.now)) }
{
    answers::reply(
        index,
        internal_storage::append_entries_with_batching(index, log, snapshot, entries),
    )
}

// The same, and of a flush it tells the accepted index alone.
#[unsafe(no_mangle)]
pub extern "C" fn kotuseraw_append_entries_and_get_accepted_idx(
    index: IndexRecord,
    log: &mut [u64],
    snapshot: &[u64],
    entries: &[u64],
) -> Reply
    ensures { left result.said (raw result.index log.new snapshot.now)
        ≡ plainly maybe_number
        (with_index_only (run (append (entries_in entries.now)) (whole_in entries.now)
        (raw index log.old snapshot.now))) }
{
    answers::reply(
        index,
        internal_storage::append_entries_and_get_accepted_idx(index, log, snapshot, entries),
    )
}

// Adds entries at the end of the log, before the batch, and tells the accepted index.
#[unsafe(no_mangle)]
pub extern "C" fn kotuseraw_append_entries_without_batching(
    index: IndexRecord,
    log: &mut [u64],
    snapshot: &[u64],
    entries: &[u64],
) -> Reply
    ensures { left result.said (raw result.index log.new snapshot.now)
        ≡ plainly a_number
        (run (append_now (entries_in entries.now)) (whole_in entries.now)
        (raw index log.old snapshot.now)) }
{
    answers::reply(
        index,
        internal_storage::append_entries_without_batching(index, log, snapshot, entries),
    )
}

// Flushes the batch, and tells the accepted index.
#[unsafe(no_mangle)]
pub extern "C" fn kotuseraw_flush_batch(index: IndexRecord, log: &[u64], snapshot: &[u64]) -> Reply
    ensures { left result.said (raw result.index log.now snapshot.now)
        ≡ plainly a_number (run flush true (raw index log.now snapshot.now)) }
{
    answers::reply(index, internal_storage::flush_batch(index, log, snapshot))
}

// Flushes the batch, and tells the accepted index and how many entries it had, or nothing where it was empty.
#[unsafe(no_mangle)]
pub extern "C" fn kotuseraw_flush_batch_and_get_entries(
    index: IndexRecord,
    log: &[u64],
    snapshot: &[u64],
) -> Reply
    ensures { left result.said (raw result.index log.now snapshot.now)
        ≡ plainly maybe_flushed (run flush_entries true (raw index log.now snapshot.now)) }
{
    answers::reply(
        index,
        internal_storage::flush_batch_and_get_entries(index, log, snapshot),
    )
}

// Flushes the batch and appends a stop-sign. Tells what was flushed, the stop-sign not counted.
#[unsafe(no_mangle)]
pub extern "C" fn kotuseraw_append_stopsign(
    index: IndexRecord,
    log: &[u64],
    snapshot: &[u64],
    ss: StopSign,
) -> Reply
    ensures { left result.said (raw result.index log.now snapshot.now)
        ≡ plainly maybe_flushed (run (append_stop ss) true (raw index log.now snapshot.now)) }
{
    answers::reply(
        index,
        internal_storage::append_stopsign(index, log, snapshot, ss),
    )
}

// Sets the stop-sign. Where `held` is not set it is taken away, and `ss` is not looked at.
#[unsafe(no_mangle)]
pub extern "C" fn kotuseraw_set_stopsign(
    index: IndexRecord,
    log: &[u64],
    snapshot: &[u64],
    held: bool,
    ss: StopSign,
) -> Reply
    ensures { left result.said (raw result.index log.now snapshot.now)
        ≡ plainly a_number
        (run (set_stop (of_flag held ss)) true (raw index log.now snapshot.now)) }
{
    answers::reply(
        index,
        internal_storage::set_stopsign(index, log, snapshot, held.then_some(ss)),
    )
}

// Sets the promised ballot.
#[unsafe(no_mangle)]
pub extern "C" fn kotuseraw_set_promise(
    index: IndexRecord,
    log: &[u64],
    snapshot: &[u64],
    n_prom: Ballot,
) -> Reply
    ensures { left result.said (raw result.index log.now snapshot.now)
        ≡ plainly nothing (run (set_promise n_prom) true (raw index log.now snapshot.now)) }
{
    answers::settled(
        index,
        internal_storage::set_promise(index, log, snapshot, n_prom),
    )
}

// Moves the decided index.
#[unsafe(no_mangle)]
pub extern "C" fn kotuseraw_set_decided_idx(
    index: IndexRecord,
    log: &[u64],
    snapshot: &[u64],
    idx: LogIndex,
) -> Reply
    ensures { left result.said (raw result.index log.now snapshot.now)
        ≡ plainly nothing (run (decide idx.0) true (raw index log.now snapshot.now)) }
{
    answers::settled(
        index,
        internal_storage::set_decided_idx(index, log, snapshot, idx),
    )
}

// Compacts the entries below an index: a snapshot where `folds` is set, which folds them onto the held one; else a
// trim, which drops them and the snapshot. Where `given` is not set it goes over all that is log-decided, and `idx` is
// not looked at.
#[unsafe(no_mangle)]
pub extern "C" fn kotuseraw_compact(
    index: IndexRecord,
    log: &mut [u64],
    snapshot: &mut [u64],
    folds: bool,
    given: bool,
    idx: LogIndex,
) -> Reply
    ensures { left result.said (raw result.index log.new snapshot.new)
        ≡ plainly nothing
        (run (compact (what_of folds) (of_flag given idx.0)) true
        (raw index log.old snapshot.old)) }
{
    let what = asked::what(folds);
    answers::settled(
        index,
        compaction::compact(index, log, snapshot, what, given.then_some(idx)),
    )
}

// Takes over a leader's round and decided index, and its log part. Where `held` is not set there is no log part, and of
// what is lent only the slices' lengths are looked at.
#[unsafe(no_mangle)]
pub extern "C" fn kotuseraw_sync_log(
    index: IndexRecord,
    log: &mut [u64],
    snapshot: &mut [u64],
    accepted_round: Ballot,
    decided_idx: LogIndex,
    held: bool,
    log_sync: PlainSync,
    incoming: &[u64],
    suffix: &[u64],
) -> Reply
    ensures { left result.said (raw result.index log.new snapshot.new)
        ≡ plainly a_number
        (run
        (syncCall accepted_round decided_idx.0
        (part_of (then_some held (sync_at log_sync)) incoming.now suffix.now))
        (lent_whole (then_some held (sync_at log_sync)) incoming.now suffix.now)
        (raw index log.old snapshot.old)) }
{
    let part = asked::sync_of(log_sync);
    answers::reply(
        index,
        sync::sync_log(
            index,
            log,
            snapshot,
            accepted_round,
            decided_idx,
            held.then_some(part),
            incoming,
            suffix,
        ),
    )
}
