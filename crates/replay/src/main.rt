// Replays the lines of standard input on a log, and prints what each answers. With a file as its argument the log is
// the one that the file holds, and is saved to it after the last line.
#![tactic(auto)]

ghost use Rattle.std.specs.Prelude.{ℕ, ◌≤◌, List, take, IfOk};
ghost use Rattle.state_cache.specs.State.{Raw, raw};
ghost use Rattle.text.specs.Rooms.{input_line};
ghost use Rattle.text.specs.Lines.{Lines, lines_from};
ghost use Rattle.text.specs.Feeding.{come};
ghost use Rattle.replay.specs.Feeding.{out_room};
ghost use Rattle.replay.specs.Input.{Reached};
ghost use Rattle.replay.specs.File.{Named, Standing, Quiet};

use feed::Feed;
use file::Given;
use std::io;
use std::io::Read;
use told::Told;

mod answer;
mod feed;
mod file;
mod shown;
mod told;

// The most bytes of input that one read takes.
const PART: usize = 65536;

// The most bytes that an answer may have: a line for each entry, the count before them, a marker and a stop-sign.
const ANSWER_ROOM: usize = (entry::ENTRIES + 3) * text::OUTPUT_LINE;

// The bytes in which answers wait to be written.
const OUT_ROOM: usize = 2 * ANSWER_ROOM;

// Where more of them wait than this, one more answer might not fit.
const LAST_START: usize = OUT_ROOM - ANSWER_ROOM;

// Writes the answers that wait, so that none is kept back while more input is awaited; then reads once, and does what
// came.
fn take_turn(
    rt: HostRuntime,
    st: Feed,
    line: &mut [u8; text::INPUT_LINE],
    log: &mut [u64; entry::LOG_WORDS],
    snapshot: &mut [u64; entry::SNAPSHOT_WORDS],
    out: &mut [u8; OUT_ROOM],
) -> io::Result<Feed>
    requires { (st.held.len ≤ input_line) × (st.used ≤ out_room) }
    ensures len_le_input_line { IfOk result (λ fed. (fed.held.len ≤ input_line) × (fed.used ≤ out_room)) }
    ensures by_index { IfOk result (λ fed. (from : Raw) (ls : Lines)
        → Reached from ls (raw st.index log.old snapshot.old)
        (come st.held.over st.held.len line.old) (take st.used out.old)
        → ((part : List ℕ) × Reached from (lines_from ls part) (raw fed.index log.new snapshot.new)
        (come fed.held.over fed.held.len line.new) (take fed.used out.new))) }
{
    let to = rt.stdout();
    to.write_all(&out[..st.used])?;
    let mut chunk = [0u8; PART];
    let n = rt.stdin().read(&mut chunk)?;
    let mut s = st;
    s.used = 0;
    if n == 0 {
        s.more = false;
        return Ok(s);
    }
    feed::take_part(to, &chunk[..n], s, line, log, snapshot, out)
}

// The end of the input: the answers that wait are written, and the log after the last line is saved. What has come by
// then is some input's lines, answered from the start.
fn last(
    rt: HostRuntime,
    given: Given,
    path: &[u8],
    st: Feed,
    line: &[u8; text::INPUT_LINE],
    log: &mut [u64; entry::LOG_WORDS],
    snapshot: &mut [u64; entry::SNAPSHOT_WORDS],
    out: &mut [u8; OUT_ROOM],
) -> io::Result<Result<(), Told>>
    requires named { Named given path.now }
    requires len_le_input_line { (st.held.len ≤ input_line) × (st.used ≤ out_room) }
    requires standing { Standing given (raw st.index log.old snapshot.old)
        (come st.held.over st.held.len line.now) (take st.used out.old) }
    ensures { IfOk result (λ told. Quiet given told) }
{
    let to = rt.stdout();
    let s = feed::end(to, st, line, log, snapshot, out)?;
    to.write_all(&out[..s.used])?;
    Ok(file::save(rt, given, path, s.index, log, snapshot))
}

fn main(rt: HostRuntime) -> io::Result<()> {
    let mut path = [0u8; keep::LONGEST];
    let mut line = [0u8; text::INPUT_LINE];
    let mut log = [0u64; entry::LOG_WORDS];
    let mut snapshot = [0u64; entry::SNAPSHOT_WORDS];
    let mut out = [0u8; OUT_ROOM];
    let given = file::argument(rt, &mut path);
    let begun = file::begin(rt, given, &path, &mut log, &mut snapshot);
    // Where there is no log to start from no line is answered, and the file stays as it is.
    let start = told::tell(rt.stdout(), begun)?;
    let Some(index) = start else {
        return Ok(());
    };
    let mut s = feed::start(index);
    // Nothing says that input ends: the turns are what is counted.
    for _ in 0..u64::MAX {
        if !s.more {
            break;
        }
        s = take_turn(rt, s, &mut line, &mut log, &mut snapshot, &mut out)?;
    }
    let saved = last(
        rt,
        given,
        &path,
        s,
        &line,
        &mut log,
        &mut snapshot,
        &mut out,
    )?;
    told::tell(rt.stdout(), saved)?;
    Ok(())
}
