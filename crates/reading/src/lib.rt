// The calls that read a lent log and change nothing: module 9's lookup, of one key or of many, the reads of module 4
// and module 5's read. Each contract is an equation with the answer of `run`. Names are the Rust's where the Rust has
// the call.
#![tactic(auto, using(crate::proofs::Answers::unformed_answer, crate::proofs::Answers::ready_by))]

ghost use Rattle.std.specs.Prelude.{◌≡◌, true};
ghost use Rattle.snapshot.specs.Calls.{found};
ghost use Rattle.model.specs.Calls.{query, lookup as lookupCall, lookup_many, get_entries, get_suffix, read as read_call};
ghost use Rattle.model.specs.Calls.{read_decided};
ghost use Rattle.state_cache.specs.State.{Raw, raw};
ghost use Rattle.state_cache.specs.Run.{run, settled};
ghost use Rattle.reading.specs.Many.{room_for, filled_out};
ghost use Rattle.reading.specs.Parts.{part, part_at};
ghost use Rattle.reading.specs.Replies.{bound_of, span_says, read_said, part_shown, part_shown_at};

use entry::{LogIndex, Refusal, Said};
use state_cache::IndexRecord;
use std::ops::Bound;

pub mod inner;

// A part of the lent log, in entries from its start: `entries_of` is that part.
#[derive(Clone, Copy, Debug, PartialEq, Eq)]
pub struct Span {
    pub first: usize,
    pub count: usize,
}

// What stands for the entries below the compacted index; the snapshot's words are those lent.
#[derive(Clone, Copy, Debug, PartialEq, Eq)]
pub enum Marker {
    Trimmed(LogIndex),
    Snapshot { index: LogIndex, keys: usize },
}

// A run that is read: its marker, where it starts below the compacted index; its entries, a part of the lent log, with
// the number of them decided; and whether the stop-sign, which stays in the record, comes last, and is decided.
#[derive(Clone, Copy, Debug, PartialEq, Eq)]
pub struct ShownRun {
    pub marker: Option<Marker>,
    pub first: usize,
    pub count: usize,
    pub decided: usize,
    pub stop: bool,
    pub stop_decided: bool,
}

// What a read in one call gives: the reply, and the part of the lent log beside it.
#[derive(Clone, Copy)]
pub struct Shown<'a> {
    pub entries: &'a [u64],
    pub reply: Result<Option<ShownRun>, Refusal>,
}

// Looks a key up: its newest word among the decided entries that are retained, else the snapshot's. On a log with a
// hole unknown says only that the key is no longer held.
pub fn lookup(
    index: IndexRecord,
    log: &[u64],
    snapshot: &[u64],
    key: u64,
) -> Result<Option<Said>, Refusal>
    ensures { found result
        ≡ (run (query (lookupCall key)) true (raw index log.now snapshot.now)).answer }
{
    if !state_cache::well_formed(index, log, snapshot) {
        return Err(Refusal::IllFormed);
    }
    Ok(inner::look(index, log, snapshot, key))
}

// Looks up to MOST_ASKED keys up, on a state that is judged once: the i-th reply is what `lookup` says of the i-th key,
// and `entry::reply_at` reads it. Words after the replies stay.
pub fn lookup_many(
    index: IndexRecord,
    log: &[u64],
    snapshot: &[u64],
    keys: &[u64],
    replies: &mut [u64],
) -> Result<(), Refusal>
    ensures { (settled result, replies.new)
        ≡ filled_out
        (run (query (lookup_many keys.now)) (room_for keys.now replies.old)
        (raw index log.now snapshot.now)).answer replies.old }
{
    if state_cache::well_formed(index, log, snapshot) {
        inner::look_many(index, log, snapshot, keys, replies)
    } else {
        Err(Refusal::IllFormed)
    }
}

// Which part of the lent log the entries from one index up to another are, an empty one where they are not all held.
pub fn get_entries_reply(
    index: IndexRecord,
    log: &[u64],
    snapshot: &[u64],
    from: LogIndex,
    to: LogIndex,
) -> Result<Span, Refusal>
    ensures { span_says log.now result
        ≡ (run (query (get_entries from.0 to.0)) true
        (raw index log.now snapshot.now)).answer }
{
    if !state_cache::well_formed(index, log, snapshot) {
        return Err(Refusal::IllFormed);
    }
    Ok(inner::get_entries_reply(index, log, snapshot, from, to))
}

// The same from an index to the end.
pub fn get_suffix_reply(
    index: IndexRecord,
    log: &[u64],
    snapshot: &[u64],
    from: LogIndex,
) -> Result<Span, Refusal>
    ensures { span_says log.now result
        ≡ (run (query (get_suffix from.0)) true (raw index log.now snapshot.now)).answer }
{
    if !state_cache::well_formed(index, log, snapshot) {
        return Err(Refusal::IllFormed);
    }
    Ok(inner::get_suffix_reply(index, log, snapshot, from))
}

// That part of the log itself, an empty one where it does not lie in the slice: its words, and its place. No `get` and
// `unwrap_or`: by the contract the empty part stands at the log's start.
pub fn entries_of<'a>(log: &'a [u64], first: usize, count: usize) -> &'a [u64]
    ensures { (result.now ≡ part first count log.now)
        × (result.ref_ptr ≡ part_at first count log.now log.entry.ref_ptr) }
{
    let room = log.len() / entry::WIDTH;
    if room < first {
        return &log[..0];
    }
    if room - first < count {
        return &log[..0];
    }
    let at = first * entry::WIDTH;
    let end = at + count * entry::WIDTH;
    &log[at..end]
}

// The entries that a reply shows, whatever state it came from; none where it shows no run.
pub fn entries_shown<'a>(log: &'a [u64], reply: Result<Option<ShownRun>, Refusal>) -> &'a [u64]
    ensures { (x : Raw) → (result.now ≡ part_shown (read_said x reply) log.now)
        × (result.ref_ptr ≡ part_shown_at (read_said x reply) log.now log.entry.ref_ptr) }
{
    match reply {
        Ok(Some(run)) => entries_of(log, run.first, run.count),
        Ok(None) => entries_of(log, 0, 0),
        Err(_) => entries_of(log, 0, 0),
    }
}

// Reads a range of the log.
pub fn read_reply(
    index: IndexRecord,
    log: &[u64],
    snapshot: &[u64],
    from: Bound<LogIndex>,
    to: Bound<LogIndex>,
) -> Result<Option<ShownRun>, Refusal>
    ensures { read_said (raw index log.now snapshot.now) result
        ≡ (run (query (read_call (bound_of from) (bound_of to))) true
        (raw index log.now snapshot.now)).answer }
{
    if !state_cache::well_formed(index, log, snapshot) {
        return Err(Refusal::IllFormed);
    }
    inner::read_reply(index, log, snapshot, from, to)
}

// Reads from an index up to the decided index.
pub fn read_decided_suffix_reply(
    index: IndexRecord,
    log: &[u64],
    snapshot: &[u64],
    from: LogIndex,
) -> Result<Option<ShownRun>, Refusal>
    ensures { read_said (raw index log.now snapshot.now) result
        ≡ (run (query (read_decided from.0)) true (raw index log.now snapshot.now)).answer }
{
    if !state_cache::well_formed(index, log, snapshot) {
        return Err(Refusal::IllFormed);
    }
    Ok(inner::read_decided_suffix_reply(index, log, snapshot, from))
}

// A read in one call: the reply of `read_reply`, and the entries that it shows. The marker's snapshot and the stop-sign
// stay where they are lent.
pub fn read<'a>(
    index: IndexRecord,
    log: &'a [u64],
    snapshot: &[u64],
    from: Bound<LogIndex>,
    to: Bound<LogIndex>,
) -> Shown<'a>
    ensures { (read_said (raw index log.now snapshot.now) result.reply
        ≡ (run (query (read_call (bound_of from) (bound_of to))) true
        (raw index log.now snapshot.now)).answer)
        × (result.entries.now
        ≡ part_shown (run (query (read_call (bound_of from) (bound_of to))) true
        (raw index log.now snapshot.now)).answer log.now)
        × (result.entries.ref_ptr
        ≡ part_shown_at (run (query (read_call (bound_of from) (bound_of to))) true
        (raw index log.now snapshot.now)).answer log.now log.entry.ref_ptr) }
{
    let reply = read_reply(index, log, snapshot, from, to);
    let entries = entries_shown(log, reply);
    Shown { entries, reply }
}
