// What each command does to the log, and what answers it, put into out from index `at` on.
#![tactic(auto, unfolding(crate::specs::Answering::answering))]

ghost use Rattle.std.specs.Prelude.{◌≡◌, true, ◌+◌, ◌≤◌, length, take};
ghost use Rattle.entry.specs.Limits.{log_words};
ghost use Rattle.entry.specs.Change.{said_is};
ghost use Rattle.entry.specs.Guards.{replied};
ghost use Rattle.entry.specs.Reply.{known_is};
ghost use Rattle.state_cache.specs.State.{raw};
ghost use Rattle.model.specs.Calls.{append};
ghost use Rattle.state_cache.specs.Run.{run, index_said};
ghost use Rattle.internal_storage.specs.Replies.{flushed_is};
ghost use Rattle.text.specs.Answers.{line_of};
ghost use Rattle.text.specs.declared.Command.TheVariants.{Batch, Read, Flush, Decide, Compact, Stop, Find};
ghost use Rattle.text.specs.declared.Line.TheVariants.{Done};
ghost use Rattle.replay.specs.declared.answer.Reply.TheVariants as reply;
ghost use Rattle.replay.specs.Answering.{printout, accepted_text, appended_text, found_text, printed};
ghost use Rattle.replay.specs.Answering.{telling, answered, stop_of, one, answering};
ghost use Rattle.replay.specs.Feeding.{answer_room, after};

use entry::{BlockPlace, Compaction, LogIndex, Refusal, Said, StopSign};
use internal_storage::Flushed;
use reading::ShownRun;
use state_cache::IndexRecord;
use std::ops::Bound;
use text::{Command, Line};

// What answers a command that is not refused: a line, or what a read shows.
#[derive(Clone, Copy)]
pub enum Reply {
    Line(Line),
    Read(Option<ShownRun>),
}

// The record after a command and its reply, or why it is refused: the record then stays.
type Answered = Result<(IndexRecord, Reply), Refusal>;

fn done(next: IndexRecord) -> (IndexRecord, Reply)
    ensures { result ≡ (next, reply.Line Done) }
{
    (next, Reply::Line(Line::Done))
}

fn accepted_line(accepted: Result<LogIndex, Refusal>) -> Line
    ensures { line_of result ≡ accepted_text (index_said accepted) }
{
    match accepted {
        Ok(i) => Line::Accepted(i.0),
        Err(refusal) => Line::Refused(entry::number(refusal)),
    }
}

fn appended_line(flushed: Option<Flushed>) -> Line
    ensures { line_of result ≡ appended_text (replied (flushed_is flushed)) }
{
    match flushed {
        None => Line::Held,
        Some(flushed) => Line::Accepted(flushed.accepted.0),
    }
}

fn found_line(known: Option<Said>) -> Line
    ensures { line_of result ≡ found_text (replied (known_is known)) }
{
    match known {
        None => Line::Unknown,
        Some(Said::Place(place)) => Line::Place(place.0),
        Some(Said::Removed) => Line::Removed,
    }
}

// A fresh log. Where it is refused the old one stays.
fn batch(index: IndexRecord, log: &mut [u64], snapshot: &mut [u64], n: u64) -> Answered
    ensures { answered index result log.new snapshot.new
        ≡ answering (Batch n) (raw index log.old snapshot.old) }
{
    let fresh = state_cache::fresh(n, log, snapshot)?;
    Ok((fresh, Reply::Line(Line::Done)))
}

fn append(index: IndexRecord, log: &mut [u64], snapshot: &[u64], k: u64, said: Said) -> Answered
    ensures { answered index result log.new snapshot.now
        ≡ printed appended_text
        (run (append (one k (said_is said))) true (raw index log.old snapshot.now)) }
{
    let (next, flushed) = internal_storage::append_entry_with_batching(
        index, log, snapshot, k, said,
    )?;
    Ok((next, Reply::Line(appended_line(flushed))))
}

fn read(index: IndexRecord, log: &[u64], snapshot: &[u64], from: u64, to: u64) -> Answered
    ensures { answered index result log.now snapshot.now
        ≡ answering (Read from to) (raw index log.now snapshot.now) }
{
    let first = Bound::Included(LogIndex(from));
    let end = Bound::Excluded(LogIndex(to));
    let run = reading::read_reply(index, log, snapshot, first, end)?;
    Ok((index, Reply::Read(run)))
}

fn flush(index: IndexRecord, log: &[u64], snapshot: &[u64]) -> Answered
    ensures { answered index result log.now snapshot.now
        ≡ answering Flush (raw index log.now snapshot.now) }
{
    let (next, accepted) = internal_storage::flush_batch(index, log, snapshot)?;
    Ok((next, Reply::Line(Line::Accepted(accepted.0))))
}

fn decide(index: IndexRecord, log: &[u64], snapshot: &[u64], i: u64) -> Answered
    ensures { answered index result log.now snapshot.now
        ≡ answering (Decide i) (raw index log.now snapshot.now) }
{
    let next = internal_storage::set_decided_idx(index, log, snapshot, LogIndex(i))?;
    Ok(done(next))
}

fn compact(
    index: IndexRecord,
    log: &mut [u64],
    snapshot: &mut [u64],
    what: Compaction,
    upto: Option<LogIndex>,
) -> Answered
    ensures { answered index result log.new snapshot.new
        ≡ answering (Compact what upto) (raw index log.old snapshot.old) }
{
    let next = compaction::compact(index, log, snapshot, what, upto)?;
    Ok(done(next))
}

// Node 1 and no metadata.
fn stop_sign(c: u32) -> StopSign
    ensures { result ≡ stop_of c }
{
    let mut nodes = [0u64; entry::NODES];
    nodes[0] = 1;
    StopSign {
        config_id: c,
        node_count: 1,
        nodes,
        metadata_held: false,
        metadata_len: 0,
        metadata: [0; entry::METADATA],
    }
}

// The accepted index after the call is printed: the call's own reply does not count the stop-sign.
fn stop(index: IndexRecord, log: &[u64], snapshot: &[u64], c: u32) -> Answered
    ensures { answered index result log.now snapshot.now
        ≡ answering (Stop c) (raw index log.now snapshot.now) }
{
    let (next, _) = internal_storage::append_stopsign(index, log, snapshot, stop_sign(c))?;
    let last = state_cache::get_accepted_idx(next, log, snapshot);
    Ok((next, Reply::Line(accepted_line(last))))
}

fn find(index: IndexRecord, log: &[u64], snapshot: &[u64], k: u64) -> Answered
    ensures { answered index result log.now snapshot.now
        ≡ answering (Find k) (raw index log.now snapshot.now) }
{
    let known = reading::lookup(index, log, snapshot, k)?;
    Ok((index, Reply::Line(found_line(known))))
}

// Does what a line says.
fn carry_out(
    index: IndexRecord,
    log: &mut [u64],
    snapshot: &mut [u64],
    command: Command,
) -> Answered
    ensures { answered index result log.new snapshot.new
        ≡ answering command (raw index log.old snapshot.old) }
{
    match command {
        Command::Batch(n) => batch(index, log, snapshot, n),
        Command::Put(k, p) => append(index, log, snapshot, k, Said::Place(BlockPlace(p))),
        Command::Del(k) => append(index, log, snapshot, k, Said::Removed),
        Command::Read(from, to) => read(index, log, snapshot, from, to),
        Command::Flush => flush(index, log, snapshot),
        Command::Decide(i) => decide(index, log, snapshot, i),
        Command::Compact(what, upto) => compact(index, log, snapshot, what, upto),
        Command::Stop(c) => stop(index, log, snapshot, c),
        Command::Find(k) => find(index, log, snapshot, k),
        Command::BadLine => Ok((index, Reply::Line(Line::BadLine))),
    }
}

// Does what a line says, and answers a refusal by its number.
fn answer(
    index: IndexRecord,
    log: &mut [u64],
    snapshot: &mut [u64],
    command: Command,
) -> (IndexRecord, Reply)
    ensures { telling result.1 (raw result.0 log.new snapshot.new)
        ≡ answering command (raw index log.old snapshot.old) }
{
    match carry_out(index, log, snapshot, command) {
        Ok(answered) => answered,
        Err(refusal) => (index, Reply::Line(Line::Refused(entry::number(refusal)))),
    }
}

// Does what a line says, and puts its answer. Says the record after it, and the index after the answer's bytes.
pub(crate) fn step(
    index: IndexRecord,
    log: &mut [u64],
    snapshot: &mut [u64],
    command: Command,
    out: &mut [u8],
    at: usize,
) -> (IndexRecord, usize)
    requires { (at + answer_room ≤ length out.old) × (length log.old ≡ log_words) }
    ensures at_bound { result.1 ≤ at + answer_room }
    ensures snapshot_after { printout (take result.1 out.new) (raw result.0 log.new snapshot.new)
        ≡ after (take at out.old)
        (answering command (raw index log.old snapshot.old)) }
{
    let (next, reply) = answer(index, log, snapshot, command);
    let end = super::shown::put_reply(out, at, reply, next, log);
    (next, end)
}
