// The calls that read a log and change nothing. A part of the lent log is told by its first entry and its count; the
// functions that copy one out are for callers that keep no pointer into the log.
ghost use Rattle.std.specs.Prelude.{◌≡◌, true, List, ℕ};
ghost use Rattle.entry.specs.Limits.{last_word};
ghost use Rattle.entry.specs.Reply.{reply_at};
ghost use Rattle.model.specs.Read.{included, excluded};
ghost use Rattle.model.specs.Calls.{query, read, read_decided, get_entries, get_suffix, lookup as lookupCall, lookup_many};
ghost use Rattle.state_cache.specs.State.{Raw, raw};
ghost use Rattle.state_cache.specs.Run.{run};
ghost use Rattle.reading.specs.Many.{room_for, filled_out};
ghost use Rattle.reading.specs.Parts.{part};
ghost use Rattle.reading.specs.Replies.{read_said, part_shown};
ghost use Rattle.host.specs.Plain.{plain, a_word, a_span, wrote, filled_as};
ghost use Rattle.host.specs.Requests.{end_at};
ghost use Rattle.host.specs.Reads.{shown_as, shown_by, copied, copied_out};

use super::answers::Tells;
use super::{PlainBound, Said, ShownSaid, answers, asked};
use entry::{LogIndex, Refusal};
use reading::ShownRun;
use state_cache::IndexRecord;

// A key's newest word among the retained entries below log-decided, else the snapshot's. Told 0: unknown; 1: its place,
// first; 2: removed.
#[unsafe(no_mangle)]
pub extern "C" fn kotuseraw_lookup(
    index: IndexRecord,
    log: &[u64],
    snapshot: &[u64],
    key: u64,
) -> Said
    ensures { result
        ≡ plain a_word
        (run (query (lookupCall key)) true (raw index log.now snapshot.now)).answer }
{
    answers::said(reading::lookup(index, log, snapshot, key))
}

// What is known of each of some keys, as the call for one says it, to the front of `replies`. `kotuseraw_reply_at`
// reads them.
#[unsafe(no_mangle)]
pub extern "C" fn kotuseraw_lookup_many(
    index: IndexRecord,
    log: &[u64],
    snapshot: &[u64],
    keys: &[u64],
    replies: &mut [u64],
) -> Said
    ensures { wrote result replies.new
        ≡ filled_as
        (filled_out
        (run (query (lookup_many keys.now)) (room_for keys.now replies.old)
        (raw index log.now snapshot.now)).answer replies.old) }
{
    answers::said(reading::lookup_many(index, log, snapshot, keys, replies))
}

// The i-th of the replies that some words are, unknown where there are not so many. Told 0: unknown; 1: a place, first;
// 2: removed.
#[unsafe(no_mangle)]
pub extern "C" fn kotuseraw_reply_at(replies: &[u64], i: usize) -> Said
    ensures { result ≡ a_word (reply_at replies.now i) }
{
    entry::reply_at(replies, i).tell()
}

// Reads a range of the log.
#[unsafe(no_mangle)]
pub extern "C" fn kotuseraw_read(
    index: IndexRecord,
    log: &[u64],
    snapshot: &[u64],
    from: PlainBound,
    to: PlainBound,
) -> ShownSaid
    ensures { result
        ≡ shown_as (run (query (read (end_at (excluded last_word) from) (end_at (included last_word) to))) true
        (raw index log.now snapshot.now)).answer }
{
    let start = asked::start_of(from);
    let stop = asked::stop_of(to);
    answers::read_said(reading::read_reply(index, log, snapshot, start, stop))
}

// Reads from an index up to the decided index.
#[unsafe(no_mangle)]
pub extern "C" fn kotuseraw_read_decided_suffix(
    index: IndexRecord,
    log: &[u64],
    snapshot: &[u64],
    from: LogIndex,
) -> ShownSaid
    ensures { result
        ≡ shown_as (run (query (read_decided from.0)) true
        (raw index log.now snapshot.now)).answer }
{
    answers::read_said(reading::read_decided_suffix_reply(index, log, snapshot, from))
}

// The entries from one index up to another, an empty part where they are not all held.
#[unsafe(no_mangle)]
pub extern "C" fn kotuseraw_get_entries(
    index: IndexRecord,
    log: &[u64],
    snapshot: &[u64],
    from: LogIndex,
    to: LogIndex,
) -> Said
    ensures { result
        ≡ plain a_span (run (query (get_entries from.0 to.0)) true
        (raw index log.now snapshot.now)).answer }
{
    answers::said(reading::get_entries_reply(index, log, snapshot, from, to))
}

// The same from an index to the end.
#[unsafe(no_mangle)]
pub extern "C" fn kotuseraw_get_suffix(
    index: IndexRecord,
    log: &[u64],
    snapshot: &[u64],
    from: LogIndex,
) -> Said
    ensures { result
        ≡ plain a_span (run (query (get_suffix from.0)) true
        (raw index log.now snapshot.now)).answer }
{
    answers::said(reading::get_suffix_reply(index, log, snapshot, from))
}

// Copies a part to the front of out, where it fits, and says how many words it has.
fn copy_out(part: &[u64], out: &mut [u64]) -> usize
    ensures { copied result out.new ≡ copied_out part.now out.old }
{
    if part.len() <= out.len() {
        words::copy_in(out, 0, part);
    }
    part.len()
}

// The entries of a part of the lent log, none where it does not lie in the slice.
#[unsafe(no_mangle)]
pub extern "C" fn kotuseraw_entries_of(
    log: &[u64],
    first: usize,
    count: usize,
    out: &mut [u64],
) -> usize
    ensures { copied result out.new ≡ copied_out (part first count log.now) out.old }
{
    copy_out(reading::entries_of(log, first, count), out)
}

// The reply that a read's answer stands for, as far as it shows entries.
fn reply_of(shown: ShownSaid) -> Result<Option<ShownRun>, Refusal>
    ensures { (x : Raw) (log : List ℕ) → part_shown (read_said x result) log ≡ shown_by shown log }
{
    if shown.told == 1 {
        let run = ShownRun {
            marker: None,
            first: shown.first,
            count: shown.count,
            decided: shown.decided,
            stop: shown.stop,
            stop_decided: shown.stop_decided,
        };
        return Ok(Some(run));
    }
    Ok(None)
}

// The entries that a read's answer shows.
#[unsafe(no_mangle)]
pub extern "C" fn kotuseraw_entries_shown(log: &[u64], shown: ShownSaid, out: &mut [u64]) -> usize
    ensures { copied result out.new ≡ copied_out (shown_by shown log.now) out.old }
{
    let reply = reply_of(shown);
    copy_out(reading::entries_shown(log, reply), out)
}

// The entries of a read, from the call that gives reply and entries in one value.
#[unsafe(no_mangle)]
pub extern "C" fn kotuseraw_read_entries(
    index: IndexRecord,
    log: &[u64],
    snapshot: &[u64],
    from: PlainBound,
    to: PlainBound,
    out: &mut [u64],
) -> usize
    ensures { copied result out.new
        ≡ copied_out
        (part_shown (run (query (read (end_at (excluded last_word) from) (end_at (included last_word) to))) true
        (raw index log.now snapshot.now)).answer log.now)
        out.old }
{
    let start = asked::start_of(from);
    let stop = asked::stop_of(to);
    copy_out(walked::read_entries(index, log, snapshot, start, stop), out)
}
