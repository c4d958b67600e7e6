// The lines of what a read shows. Each function puts bytes into out from index `at` on, and answers the index after
// them.
ghost use Rattle.std.specs.Prelude.{◌≡◌, List, ◌++◌, ℕ, ◌+◌, ◌≤◌, length, take, if◌then◌else◌};
ghost use Rattle.std.proofs.Math.Option.{none, some};
ghost use Rattle.entry.specs.Limits.{log_words};
ghost use Rattle.model.specs.Log.{given};
ghost use Rattle.state_cache.specs.State.{raw, one_if};
ghost use Rattle.text.specs.Rooms.{output_line};
ghost use Rattle.entry.specs.Guards.{replied};
ghost use Rattle.reading.specs.Replies.{marker_said, shown_said, run_is};
ghost use Rattle.replay.specs.Answering.{marker_text, stop_text, shown_text, in_log, read_text_in, reply_text};
ghost use Rattle.replay.specs.Feeding.{answer_room};

use super::answer::Reply;
use reading::{Marker, ShownRun};
use state_cache::IndexRecord;
use text::Line;

// A marker's line, or none.
fn put_marker(out: &mut [u8], at: usize, marker: Option<Marker>) -> usize
    requires { at + output_line ≤ length out.old }
    ensures upper_bound { result ≤ at + output_line }
    ensures by_index { (snapshot : List ℕ) → take result out.new ≡ take at out.old ++ marker_text
        (marker_said snapshot marker) }
{
    match marker {
        None => at,
        Some(Marker::Trimmed(i)) => text::inner::put_line(out, at, Line::Trimmed(i.0)),
        Some(Marker::Snapshot { index, keys }) => {
            text::inner::put_line(out, at, Line::Snapshot(index.0, keys as u64))
        }
    }
}

// A stop-sign's line, or none.
fn put_stop(out: &mut [u8], at: usize, run: ShownRun, index: IndexRecord) -> usize
    requires { at + output_line ≤ length out.old }
    ensures upper_bound { result ≤ at + output_line }
    ensures out_after { take result out.new
        ≡ take at out.old ++ stop_text (if run.stop then some index.stop else none)
        run.stop_decided }
{
    if run.stop {
        let line = Line::Stop(index.stop.config_id, run.stop_decided);
        return text::inner::put_line(out, at, line);
    }
    at
}

fn lines_of_marker(marker: Option<Marker>) -> u64
    ensures { (snapshot : List ℕ) → result ≡ one_if (given (marker_said snapshot marker)) }
{
    u64::from(marker.is_some())
}

// The count of the lines after it, the marker, the entries and the stop-sign.
fn put_shown(out: &mut [u8], at: usize, run: ShownRun, index: IndexRecord, log: &[u64]) -> usize
    requires { (at + answer_room ≤ length out.old) × (length log.now ≡ log_words) }
    ensures upper_bound { result ≤ at + answer_room }
    ensures by_index { (snapshot : List ℕ) → take result out.new
        ≡ take at out.old
        ++ shown_text (in_log log.now (shown_said (raw index log.now snapshot) run)) }
{
    let entries = reading::entries_of(log, run.first, run.count);
    let n = entries.len() / entry::WIDTH;
    let lines = lines_of_marker(run.marker) + n as u64 + u64::from(run.stop);
    let a = text::inner::put_line(out, at, Line::Run(lines));
    let b = put_marker(out, a, run.marker);
    let c = text::inner::put_run(out, b, entries, n, run.decided);
    put_stop(out, c, run, index)
}

fn put_read(
    out: &mut [u8],
    at: usize,
    read: Option<ShownRun>,
    index: IndexRecord,
    log: &[u64],
) -> usize
    requires { (at + answer_room ≤ length out.old) × (length log.now ≡ log_words) }
    ensures upper_bound { result ≤ at + answer_room }
    ensures by_index { (snapshot : List ℕ) → take result out.new
        ≡ take at out.old
        ++ read_text_in log.now (replied (run_is (raw index log.now snapshot) read)) }
{
    match read {
        None => text::inner::put_line(out, at, Line::Nothing),
        Some(run) => put_shown(out, at, run, index, log),
    }
}

// What answers a command.
pub(crate) fn put_reply(
    out: &mut [u8],
    at: usize,
    reply: Reply,
    index: IndexRecord,
    log: &[u64],
) -> usize
    requires { (at + answer_room ≤ length out.old) × (length log.now ≡ log_words) }
    ensures upper_bound { result ≤ at + answer_room }
    ensures by_index { (snapshot : List ℕ) → take result out.new ≡ take at out.old ++ reply_text
        (raw index log.now snapshot) reply }
{
    match reply {
        Reply::Line(line) => text::inner::put_line(out, at, line),
        Reply::Read(read) => put_read(out, at, read, index, log),
    }
}
