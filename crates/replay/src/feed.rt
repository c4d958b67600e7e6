// The input, which comes in parts: lines begin, go on and end in them. Answers wait in `out` until the next might not
// fit, or until the next part is read.
ghost use Rattle.std.specs.Prelude.{◌≡◌, false, ◌≤◌, length, take, IfOk, OnErr};
ghost use Rattle.state_cache.specs.State.{Raw, raw};
ghost use Rattle.text.specs.Lines.{Lines, line_ended, rest_with, ended_if, lines_from, last_ended};
ghost use Rattle.text.specs.Feeding.{come, joined};
ghost use Rattle.replay.specs.Feeding.{meaning, out_room, Fed};
ghost use Rattle.replay.specs.Input.{Reached};

use state_cache::IndexRecord;
use std::io;
use std::io::Stdout;
use text::Command;
use text::inner::Partial;

// What is kept from one part to the next: the record, the line, how many bytes of answers wait, and whether there may
// be more input.
#[derive(Clone, Copy)]
pub struct Feed {
    pub index: IndexRecord,
    pub held: Partial,
    pub used: usize,
    pub more: bool,
}

// Before the first part: the log that the program starts from, no byte of a line, and no answer.
pub(crate) fn start(index: IndexRecord) -> Feed
    ensures { (result.index ≡ index) × (result.held.len ≡ 0) × (result.held.over ≡ false) × (result.used ≡ 0) }
{
    Feed {
        index,
        held: Partial {
            len: 0,
            over: false,
        },
        used: 0,
        more: true,
    }
}

// What a line means whose end has come.
fn command_of(held: Partial, line: &[u8]) -> Command
    requires { held.len ≤ length line.now }
    ensures { result ≡ meaning (come held.over held.len line.now) }
{
    if held.over {
        return Command::BadLine;
    }
    text::parse(&line[..held.len])
}

// The end of a line: it is answered on the log, and the next begins.
fn finish(
    to: Stdout,
    st: Feed,
    line: &[u8],
    log: &mut [u64],
    snapshot: &mut [u64],
    out: &mut [u8],
) -> io::Result<Feed>
    requires { Fed st.held.len st.used (length line.now) (length log.old) (length out.old) }
    ensures len_in_bounds { IfOk result (λ fed. (fed.held.len ≤ length line.now) × (fed.used ≤ out_room)) }
    ensures reached { IfOk result (λ fed. (from : Raw) (ls : Lines)
        → Reached from ls (raw st.index log.old snapshot.old)
        (come st.held.over st.held.len line.now) (take st.used out.old)
        → Reached from (line_ended ls) (raw fed.index log.new snapshot.new)
        (come fed.held.over fed.held.len line.now) (take fed.used out.new)) }
    ensures failed { OnErr result ((log.new ≡ log.old) × (snapshot.new ≡ snapshot.old)) }
{
    let at = text::inner::room(to, out, st.used, super::LAST_START)?;
    let command = command_of(st.held, line);
    let (index, used) = super::answer::step(st.index, log, snapshot, command, out, at);
    Ok(Feed {
        index,
        held: Partial {
            len: 0,
            over: false,
        },
        used,
        more: true,
    })
}

// A part of a line is kept. One that does not fit is not, since the line is then a bad one whatever it says.
fn keep(part: &[u8], st: Feed, line: &mut [u8]) -> Feed
    requires { st.held.len ≤ length line.old }
    ensures len_in_bounds { (result.held.len ≤ length line.old) × (result.used ≡ st.used) × (result.index ≡ st.index) }
    ensures line_after { come result.held.over result.held.len line.new
        ≡ joined (length line.old) (come st.held.over st.held.len line.old)
        part.now }
{
    let held = text::inner::keep(part, st.held, line);
    let mut s = st;
    s.held = held;
    s
}

// Bytes that join the line, and its end, where it comes after them.
fn take_line(
    to: Stdout,
    bytes: &[u8],
    ends: bool,
    st: Feed,
    line: &mut [u8],
    log: &mut [u64],
    snapshot: &mut [u64],
    out: &mut [u8],
) -> io::Result<Feed>
    requires { Fed st.held.len st.used (length line.old) (length log.old) (length out.old) }
    ensures len_in_bounds { IfOk result (λ fed. (fed.held.len ≤ length line.old) × (fed.used ≤ out_room)) }
    ensures reached { IfOk result (λ fed. (from : Raw) (ls : Lines)
        → Reached from ls (raw st.index log.old snapshot.old)
        (come st.held.over st.held.len line.old) (take st.used out.old)
        → Reached from (ended_if ends (rest_with bytes.now ls))
        (raw fed.index log.new snapshot.new)
        (come fed.held.over fed.held.len line.new) (take fed.used out.new)) }
    ensures failed { OnErr result ((log.new ≡ log.old) × (snapshot.new ≡ snapshot.old)) }
{
    let s = keep(bytes, st, line);
    if ends {
        return finish(to, s, line, log, snapshot, out);
    }
    Ok(s)
}

// A part of the input: the lines that end in it are answered, and what comes after the last line end is kept.
pub(crate) fn take_part(
    to: Stdout,
    part: &[u8],
    st: Feed,
    line: &mut [u8],
    log: &mut [u64],
    snapshot: &mut [u64],
    out: &mut [u8],
) -> io::Result<Feed>
    requires { Fed st.held.len st.used (length line.old) (length log.old) (length out.old) }
    ensures len_in_bounds { IfOk result (λ fed. (fed.held.len ≤ length line.old) × (fed.used ≤ out_room)) }
    ensures reached { IfOk result (λ fed. (from : Raw) (ls : Lines)
        → Reached from ls (raw st.index log.old snapshot.old)
        (come st.held.over st.held.len line.old) (take st.used out.old)
        → Reached from (lines_from ls part.now) (raw fed.index log.new snapshot.new)
        (come fed.held.over fed.held.len line.new) (take fed.used out.new)) }
    ensures failed { OnErr result ((length log.new ≡ length log.old) × (length snapshot.new ≡ length snapshot.old)) }
{
    let mut s = st;
    let mut at = 0;
    while at < part.len() {
        let e = at + text::inner::gap(&part[at..], b'\n');
        s = take_line(
            to,
            &part[at..e],
            e < part.len(),
            s,
            line,
            log,
            snapshot,
            out,
        )?;
        at = e + 1;
    }
    Ok(s)
}

// The end of the input: the last line is answered, where it has a byte.
pub(crate) fn end(
    to: Stdout,
    st: Feed,
    line: &[u8],
    log: &mut [u64],
    snapshot: &mut [u64],
    out: &mut [u8],
) -> io::Result<Feed>
    requires { Fed st.held.len st.used (length line.now) (length log.old) (length out.old) }
    ensures used_le_out_room { IfOk result (λ fed. fed.used ≤ out_room) }
    ensures reached { IfOk result (λ fed. (from : Raw) (ls : Lines)
        → Reached from ls (raw st.index log.old snapshot.old)
        (come st.held.over st.held.len line.now) (take st.used out.old)
        → Reached from (last_ended ls) (raw fed.index log.new snapshot.new)
        (come fed.held.over fed.held.len line.now) (take fed.used out.new)) }
    ensures failed { OnErr result ((log.new ≡ log.old) × (snapshot.new ≡ snapshot.old)) }
{
    let held = st.held;
    if held.over | (held.len > 0) {
        return finish(to, st, line, log, snapshot, out);
    }
    Ok(st)
}
