// What the calls do on a log that is known to be well formed: not for a user, whose calls are in lib.rt.
ghost use Rattle.std.specs.Prelude.{◌*◌, ◌/◌, ◌<◌, ◌≤◌, ◌≡◌, true, length, if◌then◌else◌};
ghost use Rattle.words.specs.Coded.{over};
ghost use Rattle.entry.specs.Limits.{width, reply_width};
ghost use Rattle.entry.specs.Change.{entries_of};
ghost use Rattle.entry.specs.Reply.{known_is, reply_code};
ghost use Rattle.entry.specs.Guards.{replied};
ghost use Rattle.snapshot.specs.Folds.{last_of};
ghost use Rattle.model.specs.Numbers.{accepted_of};
ghost use Rattle.model.specs.Read.{start_past, stop_past, start_at, stop_at};
ghost use Rattle.model.specs.Lookup.{lookup_replies};
ghost use Rattle.model.specs.Calls.{query, lookup, lookup_many, get_entries, get_suffix, read, read_decided};
ghost use Rattle.state_cache.specs.State.{raw, numbers_in, log_of};
ghost use Rattle.state_cache.specs.Inner.{Small, Ready};
ghost use Rattle.state_cache.specs.Run.{run, settled};
ghost use Rattle.reading.specs.Many.{room_for, filled_out};
ghost use Rattle.reading.specs.Newest.{NewestIs};
ghost use Rattle.reading.specs.Replies.{bound_of, span_is, run_is, read_said};
ghost use Rattle.reading.specs.Inner.{KindIs, EntryIs, span_in, marker_in, marker_at, run_of_none, run_of, read_in};

use super::{Marker, ShownRun, Span};
use entry::{LogIndex, Refusal, Said};
use state_cache::IndexRecord;
use std::ops::Bound;

// Where the newest entry of a key stands among the first n entries, from the last one back.
fn newest_of_few(log: &[u64], n: usize, key: u64) -> Option<usize>
    requires { n * width ≤ length log.now }
    ensures { NewestIs key n log.now result }
{
    for i in (0..n).rev() {
        let k = log[i * entry::WIDTH];
        if k == key {
            return Some(i);
        }
    }
    None
}

// The same, four entries a turn: to count them one by one would cost as much as to look at them, and miss the bar of
// docs/FIGURES.md. So the loop counts by hand.
pub fn newest_at(log: &[u64], n: usize, key: u64) -> Option<usize>
    requires { n * width ≤ length log.now }
    ensures { NewestIs key n log.now result }
{
    let mut i = n;
    loop {
        if i < 4 {
            break newest_of_few(log, i, key);
        }
        let a = i - 1;
        let ka = log[a * entry::WIDTH];
        if ka == key {
            break Some(a);
        }
        let b = i - 2;
        let kb = log[b * entry::WIDTH];
        if kb == key {
            break Some(b);
        }
        let c = i - 3;
        let kc = log[c * entry::WIDTH];
        if kc == key {
            break Some(c);
        }
        i -= 4;
        let kd = log[i * entry::WIDTH];
        if kd == key {
            break Some(i);
        }
    }
}

// What a key's newest entry among the first n says; unknown where it has none there.
fn newest_word(log: &[u64], n: usize, key: u64) -> Option<Said>
    requires { n * width ≤ length log.now }
    ensures { known_is result ≡ last_of key (entries_of n log.now) }
{
    let i = newest_at(log, n, key)?;
    Some(entry::inner::said_at(log, i))
}

// A removal is a word too: where the newest entry is one, the snapshot is not asked.
pub fn look(index: IndexRecord, log: &[u64], snapshot: &[u64], key: u64) -> Option<Said>
    requires { Ready (raw index log.now snapshot.now) }
    ensures { replied (known_is result)
        ≡ (run (query (lookup key)) true (raw index log.now snapshot.now)).answer }
{
    let decided = state_cache::inner::log_decided(index);
    let n = (decided - index.compacted.0) as usize;
    match newest_word(log, n, key) {
        None => snapshot::inner::look_up(snapshot, index.keys, key),
        newest => newest,
    }
}

// Looks the keys up one after the other, and writes each reply behind the one before.
fn fill(index: IndexRecord, log: &[u64], snapshot: &[u64], keys: &[u64], replies: &mut [u64])
    requires ready { Ready (raw index log.now snapshot.now) }
    requires keys_in_bounds { length keys.now ≤ length replies.old / reply_width }
    ensures { replies.new
        ≡ over reply_code
        (lookup_replies keys.now (log_of (raw index log.now snapshot.now)))
        replies.old }
{
    for (i, key) in keys.iter().enumerate() {
        let known = look(index, log, snapshot, *key);
        let reply = entry::inner::reply(known);
        words::copy_in(replies, i * entry::REPLY_WIDTH, &reply);
    }
}

// The number of keys and the room for replies are judged before the first is written.
pub fn look_many(
    index: IndexRecord,
    log: &[u64],
    snapshot: &[u64],
    keys: &[u64],
    replies: &mut [u64],
) -> Result<(), Refusal>
    requires { Ready (raw index log.now snapshot.now) }
    ensures { (settled result, replies.new)
        ≡ filled_out
        (run (query (lookup_many keys.now)) (room_for keys.now replies.old)
        (raw index log.now snapshot.now)).answer replies.old }
{
    let asked = keys.len();
    let room = replies.len() / entry::REPLY_WIDTH;
    if (entry::MOST_ASKED < asked) | (room < asked) {
        return Err(Refusal::Malformed);
    }
    fill(index, log, snapshot, keys, replies);
    Ok(())
}

// Where the entries from one index up to another stand among those retained.
pub fn between(index: IndexRecord, from: u64, to: u64) -> Span
    requires { Small (numbers_in index) }
    ensures { result ≡ span_in from to (numbers_in index) }
{
    let low = index.compacted.0;
    let last = state_cache::inner::end(index);
    let held = (low <= from) & ((from <= to) & (to <= last));
    if !held {
        return Span { first: 0, count: 0 };
    }
    Span {
        first: (from - low) as usize,
        count: (to - from) as usize,
    }
}

// ---- read

// The first index of a range; refused where it is past 64 bits. The two ends differ in the bound that stands next to
// its index, so one function for both would take that as a flag.
pub fn start_of(b: Bound<LogIndex>) -> Result<u64, Refusal>
    ensures { result
        ≡ (if start_past (bound_of b) then Err Refusal.Malformed else Ok (start_at (bound_of b))) }
{
    match b {
        Bound::Included(i) => Ok(i.0),
        Bound::Excluded(i) => i.0.checked_add(1).ok_or(Refusal::Malformed),
        Bound::Unbounded => Ok(0),
    }
}

// The index after the last one of a range, likewise.
pub fn stop_of(b: Bound<LogIndex>, last: u64) -> Result<u64, Refusal>
    ensures { result
        ≡ (if stop_past (bound_of b) then Err Refusal.Malformed else Ok (stop_at (bound_of b) last)) }
{
    match b {
        Bound::Included(i) => i.0.checked_add(1).ok_or(Refusal::Malformed),
        Bound::Excluded(i) => Ok(i.0),
        Bound::Unbounded => Ok(last),
    }
}

// What stands at an index of the log.
#[derive(Clone, Copy, Debug, PartialEq, Eq)]
pub enum IndexEntry {
    Compacted,
    Entry,
    StopSign,
}

pub fn kind_at(index: IndexRecord, i: u64) -> Option<IndexEntry>
    requires { Small (numbers_in index) }
    ensures { KindIs (numbers_in index) i result }
{
    let low = index.compacted.0;
    let end = state_cache::inner::end(index);
    let last = state_cache::inner::accepted(index);
    if i < low {
        return Some(IndexEntry::Compacted);
    }
    if i < end {
        return Some(IndexEntry::Entry);
    }
    if i < last {
        return Some(IndexEntry::StopSign);
    }
    None
}

// The marker of a run that starts at an index of a kind.
pub fn marker_of(index: IndexRecord, entry: IndexEntry) -> Option<Marker>
    ensures { result ≡ marker_at entry index }
{
    match entry {
        IndexEntry::Compacted => Some(compacted_marker(index)),
        IndexEntry::Entry | IndexEntry::StopSign => None,
    }
}

fn compacted_marker(index: IndexRecord) -> Marker
    ensures { result ≡ marker_in index }
{
    let compacted = index.compacted;
    if index.snapshot_held {
        return Marker::Snapshot {
            index: compacted,
            keys: index.keys,
        };
    }
    Marker::Trimmed(compacted)
}

// The run from an index of a kind up to another.
fn run_of(index: IndexRecord, entry: IndexEntry, from: u64, to: u64) -> ShownRun
    requires { Small (numbers_in index) × EntryIs (numbers_in index) from entry }
    ensures { result ≡ run_of from to index }
{
    let low = index.compacted.0;
    let start = from.saturating_sub(low);
    let end = to.saturating_sub(low).min(index.retained as u64);
    let known = end.min(index.decided.0.saturating_sub(low));
    let last = state_cache::inner::accepted(index);
    let decided = state_cache::inner::stop_decided(index);
    let marker = marker_of(index, entry);
    ShownRun {
        marker,
        first: start as usize,
        count: end.saturating_sub(start) as usize,
        decided: known.saturating_sub(start) as usize,
        stop: (to == last) & index.stop_held,
        stop_decided: (to == last) & decided,
    }
}

// A run of a marker or nothing at all.
fn no_entries(marker: Option<Marker>) -> ShownRun
    ensures { result ≡ run_of_none marker }
{
    ShownRun {
        marker,
        first: 0,
        count: 0,
        decided: 0,
        stop: false,
        stop_decided: false,
    }
}

// Where the last index of the range is an entry or the stop-sign: the kind of the first decides.
fn read_from(index: IndexRecord, from: u64, to: u64) -> Option<ShownRun>
    requires { Small (numbers_in index) × ((index.compacted.0 < to) × (to ≤ accepted_of (numbers_in index))) }
    ensures { result ≡ read_in from to index }
{
    let Some(entry) = kind_at(index, from) else {
        return None;
    };
    if to <= from {
        return Some(no_entries(None));
    }
    Some(run_of(index, entry, from, to))
}

// The kind of the last index is asked first: where it is compacted, the first is not looked at.
pub fn read_at(index: IndexRecord, from: u64, to: u64) -> Option<ShownRun>
    requires { Small (numbers_in index) }
    ensures { result ≡ read_in from to index }
{
    if to == 0 {
        return None;
    }
    let Some(entry) = kind_at(index, to - 1) else {
        return None;
    };
    match entry {
        IndexEntry::Compacted => Some(no_entries(Some(compacted_marker(index)))),
        IndexEntry::Entry | IndexEntry::StopSign => read_from(index, from, to),
    }
}

// ---- the reads of a state that is known to be well formed

pub fn get_entries_reply(
    index: IndexRecord,
    log: &[u64],
    snapshot: &[u64],
    from: LogIndex,
    to: LogIndex,
) -> Span
    requires { Ready (raw index log.now snapshot.now) }
    ensures { replied (span_is log.now result)
        ≡ (run (query (get_entries from.0 to.0)) true
        (raw index log.now snapshot.now)).answer }
{
    between(index, from.0, to.0)
}

pub fn get_suffix_reply(index: IndexRecord, log: &[u64], snapshot: &[u64], from: LogIndex) -> Span
    requires { Ready (raw index log.now snapshot.now) }
    ensures { replied (span_is log.now result)
        ≡ (run (query (get_suffix from.0)) true (raw index log.now snapshot.now)).answer }
{
    between(index, from.0, state_cache::inner::end(index))
}

pub fn read_reply(
    index: IndexRecord,
    log: &[u64],
    snapshot: &[u64],
    from: Bound<LogIndex>,
    to: Bound<LogIndex>,
) -> Result<Option<ShownRun>, Refusal>
    requires { Ready (raw index log.now snapshot.now) }
    ensures { read_said (raw index log.now snapshot.now) result
        ≡ (run (query (read (bound_of from) (bound_of to))) true
        (raw index log.now snapshot.now)).answer }
{
    let last = state_cache::inner::accepted(index);
    let start = start_of(from)?;
    let stop = stop_of(to, last)?;
    Ok(read_at(index, start, stop))
}

pub fn read_decided_suffix_reply(
    index: IndexRecord,
    log: &[u64],
    snapshot: &[u64],
    from: LogIndex,
) -> Option<ShownRun>
    requires { Ready (raw index log.now snapshot.now) }
    ensures { replied (run_is (raw index log.now snapshot.now) result)
        ≡ (run (query (read_decided from.0)) true (raw index log.now snapshot.now)).answer }
{
    if index.decided.0 <= from.0 {
        return None;
    }
    read_at(index, from.0, index.decided.0)
}
