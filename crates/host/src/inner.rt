// The calls without the judging of the state's form: every call keeps a well-formed state well formed
// (`runs_formed`), so a host that owns its state and lets nobody else write its words need not have it judged again
// at each call; the total calls are for every other caller. Each requires a well-formed state, and says then what the
// call of the same name says.
ghost use Rattle.std.specs.Prelude.{◌≡◌, true, [], ◌∷◌};
ghost use Rattle.entry.specs.Limits.{last_word};
ghost use Rattle.entry.specs.Change.{entries_in, whole_in};
ghost use Rattle.model.specs.Numbers.{accepted_of, stop_decided, log_decided};
ghost use Rattle.model.specs.Read.{included, excluded};
ghost use Rattle.model.specs.Calls.{query, read, read_decided, get_entries, get_suffix, lookup as lookupCall, lookup_many};
ghost use Rattle.model.specs.Calls.{append, append_now, flush, flush_entries, append_stop, set_stop, set_promise, decide};
ghost use Rattle.model.specs.Calls.{compact};
ghost use Rattle.state_cache.specs.State.{raw};
ghost use Rattle.state_cache.specs.Inner.{Ready};
ghost use Rattle.state_cache.specs.Run.{run, of_numbers};
ghost use Rattle.reading.specs.Many.{room_for, filled_out};
ghost use Rattle.internal_storage.specs.Replies.{with_index_only};
ghost use Rattle.host.specs.Plain.{plain, left, plainly, nothing, a_number, a_flag, maybe_number, maybe_flushed};
ghost use Rattle.host.specs.Plain.{a_word, a_span, wrote, filled_as};
ghost use Rattle.host.specs.Requests.{end_at, of_flag, lent_said, what_of};
ghost use Rattle.host.specs.Reads.{shown_as};

use super::answers::Tells;
use super::{PlainBound, Reply, Said, ShownSaid, answers, asked};
use entry::{Ballot, BlockPlace, LogIndex, StopSign};
use state_cache::IndexRecord;

// A key's newest word among the retained entries below log-decided, else the snapshot's. Told 0: unknown; 1: its place,
// first; 2: removed.
#[unsafe(no_mangle)]
pub extern "C" fn kotuseraw_inner_lookup(
    index: IndexRecord,
    log: &[u64],
    snapshot: &[u64],
    key: u64,
) -> Said
    requires { Ready (raw index log.now snapshot.now) }
    ensures { result
        ≡ plain a_word
        (run (query (lookupCall key)) true (raw index log.now snapshot.now)).answer }
{
    reading::inner::look(index, log, snapshot, key).tell()
}

// What is known of each of some keys, as the call for one says it, to the front of `replies`.
#[unsafe(no_mangle)]
pub extern "C" fn kotuseraw_inner_lookup_many(
    index: IndexRecord,
    log: &[u64],
    snapshot: &[u64],
    keys: &[u64],
    replies: &mut [u64],
) -> Said
    requires { Ready (raw index log.now snapshot.now) }
    ensures { wrote result replies.new
        ≡ filled_as
        (filled_out
        (run (query (lookup_many keys.now)) (room_for keys.now replies.old)
        (raw index log.now snapshot.now)).answer replies.old) }
{
    answers::said(reading::inner::look_many(index, log, snapshot, keys, replies))
}

// Reads a range of the log.
#[unsafe(no_mangle)]
pub extern "C" fn kotuseraw_inner_read(
    index: IndexRecord,
    log: &[u64],
    snapshot: &[u64],
    from: PlainBound,
    to: PlainBound,
) -> ShownSaid
    requires { Ready (raw index log.now snapshot.now) }
    ensures { result
        ≡ shown_as (run (query (read (end_at (excluded last_word) from) (end_at (included last_word) to))) true
        (raw index log.now snapshot.now)).answer }
{
    let start = asked::start_of(from);
    let stop = asked::stop_of(to);
    answers::read_said(reading::inner::read_reply(index, log, snapshot, start, stop))
}

// Reads from an index up to the decided index.
#[unsafe(no_mangle)]
pub extern "C" fn kotuseraw_inner_read_decided_suffix(
    index: IndexRecord,
    log: &[u64],
    snapshot: &[u64],
    from: LogIndex,
) -> ShownSaid
    requires { Ready (raw index log.now snapshot.now) }
    ensures { result
        ≡ shown_as (run (query (read_decided from.0)) true
        (raw index log.now snapshot.now)).answer }
{
    answers::read_said(Ok(reading::inner::read_decided_suffix_reply(index, log, snapshot, from)))
}

// The entries from one index up to another, an empty part where they are not all held.
#[unsafe(no_mangle)]
pub extern "C" fn kotuseraw_inner_get_entries(
    index: IndexRecord,
    log: &[u64],
    snapshot: &[u64],
    from: LogIndex,
    to: LogIndex,
) -> Said
    requires { Ready (raw index log.now snapshot.now) }
    ensures { result
        ≡ plain a_span (run (query (get_entries from.0 to.0)) true
        (raw index log.now snapshot.now)).answer }
{
    reading::inner::get_entries_reply(index, log, snapshot, from, to).tell()
}

// The same from an index to the end.
#[unsafe(no_mangle)]
pub extern "C" fn kotuseraw_inner_get_suffix(
    index: IndexRecord,
    log: &[u64],
    snapshot: &[u64],
    from: LogIndex,
) -> Said
    requires { Ready (raw index log.now snapshot.now) }
    ensures { result
        ≡ plain a_span (run (query (get_suffix from.0)) true
        (raw index log.now snapshot.now)).answer }
{
    reading::inner::get_suffix_reply(index, log, snapshot, from).tell()
}

// The accepted index: the end, plus 1 if a stop-sign is held.
#[unsafe(no_mangle)]
pub extern "C" fn kotuseraw_inner_get_accepted_idx(
    index: IndexRecord,
    log: &[u64],
    snapshot: &[u64],
) -> Said
    requires { Ready (raw index log.now snapshot.now) }
    ensures { result ≡ plain a_number (of_numbers accepted_of (raw index log.now snapshot.now)) }
{
    LogIndex(state_cache::inner::accepted(index)).tell()
}

// Log-decided: the decided index, a decided stop-sign not counted.
#[unsafe(no_mangle)]
pub extern "C" fn kotuseraw_inner_get_decided_idx_without_stopsign(
    index: IndexRecord,
    log: &[u64],
    snapshot: &[u64],
) -> Said
    requires { Ready (raw index log.now snapshot.now) }
    ensures { result ≡ plain a_number (of_numbers log_decided (raw index log.now snapshot.now)) }
{
    LogIndex(state_cache::inner::log_decided(index)).tell()
}

// Whether a stop-sign is held and decided.
#[unsafe(no_mangle)]
pub extern "C" fn kotuseraw_inner_stopsign_is_decided(
    index: IndexRecord,
    log: &[u64],
    snapshot: &[u64],
) -> Said
    requires { Ready (raw index log.now snapshot.now) }
    ensures { result ≡ plain a_flag (of_numbers stop_decided (raw index log.now snapshot.now)) }
{
    state_cache::inner::stop_decided(index).tell()
}

// Adds an entry to the batch, as the call for several does. Where `removed` is set the place is not looked at.
#[unsafe(no_mangle)]
pub extern "C" fn kotuseraw_inner_append_entry_with_batching(
    index: IndexRecord,
    log: &mut [u64],
    snapshot: &[u64],
    key: u64,
    removed: bool,
    place: BlockPlace,
) -> Reply
    requires { Ready (raw index log.old snapshot.now) }
    ensures { left result.said (raw result.index log.new snapshot.now)
        ≡ plainly maybe_flushed
        (run (append (record { key = key; said = lent_said removed place.0 } ∷ [])) true
        (raw index log.old snapshot.now)) }
{
    let entry = asked::entry_said(removed, place);
    let mut next = index;
    let said = answers::said(internal_storage::inner::append::append_entry_with_batching(
        &mut next, log, snapshot, key, entry,
    ));
    Reply { said, index: next }
}

// Adds entries to the batch; once it has as many as the batch size, or more, all of it flushes.
#[unsafe(no_mangle)]
pub extern "C" fn kotuseraw_inner_append_entries_with_batching(
    index: IndexRecord,
    log: &mut [u64],
    snapshot: &[u64],
    entries: &[u64],
) -> Reply
    requires { Ready (raw index log.old snapshot.now) }
    ensures { left result.said (raw result.index log.new snapshot.now)
        ≡ plainly maybe_flushed (run (append (entries_in entries.now)) (whole_in entries.now)
        (raw index log.old snapshot.now)) }
{
    let mut next = index;
    let said = answers::said(
        internal_storage::inner::append::append_entries_with_batching(
            &mut next, log, snapshot, entries,
        ),
    );
    Reply { said, index: next }
}

// The same, and of a flush it tells the accepted index alone.
#[unsafe(no_mangle)]
pub extern "C" fn kotuseraw_inner_append_entries_and_get_accepted_idx(
    index: IndexRecord,
    log: &mut [u64],
    snapshot: &[u64],
    entries: &[u64],
) -> Reply
    requires { Ready (raw index log.old snapshot.now) }
    ensures { left result.said (raw result.index log.new snapshot.now)
        ≡ plainly maybe_number
        (with_index_only (run (append (entries_in entries.now)) (whole_in entries.now)
        (raw index log.old snapshot.now))) }
{
    let mut next = index;
    let said = answers::said(
        internal_storage::inner::append::append_entries_and_get_accepted_idx(
            &mut next, log, snapshot, entries,
        ),
    );
    Reply { said, index: next }
}

// Adds entries at the end of the log, before the batch, and tells the accepted index.
#[unsafe(no_mangle)]
pub extern "C" fn kotuseraw_inner_append_entries_without_batching(
    index: IndexRecord,
    log: &mut [u64],
    snapshot: &[u64],
    entries: &[u64],
) -> Reply
    requires { Ready (raw index log.old snapshot.now) }
    ensures { left result.said (raw result.index log.new snapshot.now)
        ≡ plainly a_number
        (run (append_now (entries_in entries.now)) (whole_in entries.now)
        (raw index log.old snapshot.now)) }
{
    let mut next = index;
    let said = answers::said(
        internal_storage::inner::append::append_entries_without_batching(
            &mut next, log, snapshot, entries,
        ),
    );
    Reply { said, index: next }
}

// Flushes the batch, and tells the accepted index.
#[unsafe(no_mangle)]
pub extern "C" fn kotuseraw_inner_flush_batch(
    index: IndexRecord,
    log: &[u64],
    snapshot: &[u64],
) -> Reply
    requires { Ready (raw index log.now snapshot.now) }
    ensures { left result.said (raw result.index log.now snapshot.now)
        ≡ plainly a_number (run flush true (raw index log.now snapshot.now)) }
{
    let mut next = index;
    let said = answers::said(internal_storage::inner::flush::flush_batch(&mut next, log, snapshot));
    Reply { said, index: next }
}

// Flushes the batch, and tells the accepted index and how many entries it had, or nothing where it was empty.
#[unsafe(no_mangle)]
pub extern "C" fn kotuseraw_inner_flush_batch_and_get_entries(
    index: IndexRecord,
    log: &[u64],
    snapshot: &[u64],
) -> Reply
    requires { Ready (raw index log.now snapshot.now) }
    ensures { left result.said (raw result.index log.now snapshot.now)
        ≡ plainly maybe_flushed (run flush_entries true (raw index log.now snapshot.now)) }
{
    let mut next = index;
    let said = answers::said(internal_storage::inner::flush::flush_batch_and_get_entries(
        &mut next, log, snapshot,
    ));
    Reply { said, index: next }
}

// Flushes the batch and appends a stop-sign. Tells what was flushed, the stop-sign not counted.
#[unsafe(no_mangle)]
pub extern "C" fn kotuseraw_inner_append_stopsign(
    index: IndexRecord,
    log: &[u64],
    snapshot: &[u64],
    ss: StopSign,
) -> Reply
    requires { Ready (raw index log.now snapshot.now) }
    ensures { left result.said (raw result.index log.now snapshot.now)
        ≡ plainly maybe_flushed (run (append_stop ss) true (raw index log.now snapshot.now)) }
{
    let mut next = index;
    let said = answers::said(internal_storage::inner::stop::append_stopsign(
        &mut next, log, snapshot, ss,
    ));
    Reply { said, index: next }
}

// Sets the stop-sign. Where `held` is not set it is taken away, and `ss` is not looked at.
#[unsafe(no_mangle)]
pub extern "C" fn kotuseraw_inner_set_stopsign(
    index: IndexRecord,
    log: &[u64],
    snapshot: &[u64],
    held: bool,
    ss: StopSign,
) -> Reply
    requires { Ready (raw index log.now snapshot.now) }
    ensures { left result.said (raw result.index log.now snapshot.now)
        ≡ plainly a_number
        (run (set_stop (of_flag held ss)) true (raw index log.now snapshot.now)) }
{
    let mut next = index;
    let said = answers::said(internal_storage::inner::stop::set_stopsign(
        &mut next,
        log,
        snapshot,
        held.then_some(ss),
    ));
    Reply { said, index: next }
}

// Sets the promised ballot.
#[unsafe(no_mangle)]
pub extern "C" fn kotuseraw_inner_set_promise(
    index: IndexRecord,
    log: &[u64],
    snapshot: &[u64],
    n_prom: Ballot,
) -> Reply
    requires { Ready (raw index log.now snapshot.now) }
    ensures { left result.said (raw result.index log.now snapshot.now)
        ≡ plainly nothing (run (set_promise n_prom) true (raw index log.now snapshot.now)) }
{
    let mut next = index;
    let said = answers::said(internal_storage::inner::decide::set_promise(
        &mut next, log, snapshot, n_prom,
    ));
    Reply { said, index: next }
}

// Moves the decided index.
#[unsafe(no_mangle)]
pub extern "C" fn kotuseraw_inner_set_decided_idx(
    index: IndexRecord,
    log: &[u64],
    snapshot: &[u64],
    idx: LogIndex,
) -> Reply
    requires { Ready (raw index log.now snapshot.now) }
    ensures { left result.said (raw result.index log.now snapshot.now)
        ≡ plainly nothing (run (decide idx.0) true (raw index log.now snapshot.now)) }
{
    let mut next = index;
    let said = answers::said(internal_storage::inner::decide::set_decided_idx(
        &mut next, log, snapshot, idx,
    ));
    Reply { said, index: next }
}

// Compacts the entries below an index, or all that is log-decided.
#[unsafe(no_mangle)]
pub extern "C" fn kotuseraw_inner_compact(
    index: IndexRecord,
    log: &mut [u64],
    snapshot: &mut [u64],
    folds: bool,
    given: bool,
    idx: LogIndex,
) -> Reply
    requires { Ready (raw index log.old snapshot.old) }
    ensures { left result.said (raw result.index log.new snapshot.new)
        ≡ plainly nothing
        (run (compact (what_of folds) (of_flag given idx.0)) true
        (raw index log.old snapshot.old)) }
{
    let what = asked::what(folds);
    answers::settled(
        index,
        compaction::inner::compact_at(index, log, snapshot, what, given.then_some(idx)),
    )
}
