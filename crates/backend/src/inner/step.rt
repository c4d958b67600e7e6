// One operation, on words that are of no use where it is refused.
ghost use Rattle.std.specs.Prelude.{◌≡◌, true, [], ◌≤◌, length};
ghost use Rattle.entry.specs.Limits.{snapshot_words};
ghost use Rattle.entry.specs.Change.{entries_in, slice_formed};
ghost use Rattle.model.specs.Backend.{append_on_prefix, trim, supplied, step};
ghost use Rattle.state_cache.specs.State.{raw, numbers_in};
ghost use Rattle.state_cache.specs.Inner.{Small};
ghost use Rattle.backend.specs.Ops.{op_of, lent_of};
ghost use Rattle.backend.specs.Inner.{only_entries, asked_keys, asked_words};
ghost use Rattle.backend.specs.Inner.{midst_of, Kept, rejoined, room_guards, Goes, Steps, Lends};

use super::super::{Lent, Op, OpKind};
use entry::inner::sign_if;
use entry::{LogIndex, Refusal};
use state_cache::IndexRecord;

// A list's state after an operation: the record, and the start of the run, which may not be compacted.
#[derive(Clone, Copy, Debug, PartialEq, Eq)]
pub struct Stepped {
    pub start: u64,
    pub index: IndexRecord,
}

impl Stepped {
    fn with(self, index: IndexRecord) -> Stepped
        ensures { result ≡ record { start = self.start; index = index } }
    {
        Stepped { index, ..self }
    }
}

// Cuts the run after its first `at` entries and puts the entries there, before the batch; or refusal 1.
fn put_at(
    so_far: Stepped,
    log: &mut [u64],
    snapshot: &[u64],
    at: usize,
    entries: &[u64],
) -> Result<Stepped, Refusal>
    requires kept { Kept (raw so_far.index log.old snapshot.now) }
    requires at_le_retained { at ≤ so_far.index.retained }
    requires entries_value { slice_formed entries.now ≡ true }
    ensures { Goes
        (room_guards at (length (entries_in entries.now))
        (midst_of so_far.start (raw so_far.index log.old snapshot.now)))
        (rejoined at (entries_in entries.now)
        (midst_of so_far.start (raw so_far.index log.old snapshot.now)))
        result log.new snapshot.now }
{
    let Stepped { index, .. } = so_far;
    let n = entries.len() / entry::WIDTH;
    if entry::ENTRIES < at + index.batched + n {
        return Err(Refusal::NoRoom);
    }
    let used = (index.retained + index.batched) * entry::WIDTH;
    words::splice(
        log,
        used,
        at * entry::WIDTH,
        (index.retained - at) * entry::WIDTH,
        entries,
    );
    Ok(so_far.with(IndexRecord {
        retained: at + n,
        ..index
    }))
}

// The same at an index of the run or its end; or refusal 7, which carries the end held before the call.
fn put_on_prefix(
    before: IndexRecord,
    so_far: Stepped,
    log: &mut [u64],
    snapshot: &[u64],
    from: LogIndex,
    entries: &[u64],
) -> Result<Stepped, Refusal>
    requires kept { Kept (raw so_far.index log.old snapshot.now) }
    requires small { Small (numbers_in before) }
    requires entries_value { slice_formed entries.now ≡ true }
    ensures { Steps (numbers_in before) (only_entries entries.now) (append_on_prefix from.0)
        (midst_of so_far.start (raw so_far.index log.old snapshot.now))
        result log.new snapshot.now }
{
    let start = so_far.start;
    let end = state_cache::inner::end(before);
    let kept = from.0.saturating_sub(start);
    if (from.0 < start) | ((so_far.index.retained as u64) < kept) {
        return Err(Refusal::OutsideRun(LogIndex(end)));
    }
    put_at(so_far, log, snapshot, kept as usize, entries)
}

// Drops the entries below an index, and moves the run's start there if it is higher.
fn trim_to(so_far: Stepped, log: &mut [u64], snapshot: &[u64], to: LogIndex) -> Stepped
    requires { Kept (raw so_far.index log.old snapshot.now) }
    ensures { Goes []
        (step (only_entries []) (trim to.0)
        (midst_of so_far.start (raw so_far.index log.old snapshot.now)))
        (Ok result) log.new snapshot.now }
{
    let Stepped { start, index } = so_far;
    let below = to.0.saturating_sub(start);
    let gone = below.min(index.retained as u64) as usize;
    let used = (index.retained + index.batched) * entry::WIDTH;
    words::cut_out(log, used, 0, gone * entry::WIDTH);
    Stepped {
        start: start.max(to.0),
        index: IndexRecord {
            retained: index.retained - gone,
            ..index
        },
    }
}

fn keys_if(given: bool, keys: usize) -> usize
    ensures { result ≡ asked_keys given keys }
{
    if given { keys } else { 0 }
}

// The snapshot's words: those that are lent, or zeros.
fn write_snapshot(snapshot: &mut [u64], given: bool, incoming: &[u64])
    requires snapshot_len { length snapshot.old ≡ snapshot_words }
    requires incoming_len { length incoming.now ≡ snapshot_words }
    ensures { snapshot.new ≡ asked_words given incoming.now }
{
    if given {
        words::copy_words(incoming, snapshot);
    } else {
        words::clear(snapshot, 0, entry::SNAPSHOT_WORDS);
    }
}

// One operation. Its refusals are judged on the state as it stands; what they carry was held before the call.
pub fn step(
    before: IndexRecord,
    so_far: Stepped,
    log: &mut [u64],
    snapshot: &mut [u64],
    entries: &[u64],
    incoming: &[u64],
    lent: Lent,
    o: Op,
) -> Result<Stepped, Refusal>
    requires kept { Kept (raw so_far.index log.old snapshot.old) }
    requires small { Small (numbers_in before) }
    requires lends { Lends lent entries.now incoming.now }
    requires o_value { supplied (lent_of lent entries.now incoming.now) (op_of o) ≡ true }
    ensures { Steps (numbers_in before) (lent_of lent entries.now incoming.now) (op_of o)
        (midst_of so_far.start (raw so_far.index log.old snapshot.old))
        result log.new snapshot.new }
{
    let index = so_far.index;
    match o.kind {
        OpKind::AppendEntries => put_at(so_far, log, snapshot, index.retained, entries),
        OpKind::AppendOnPrefix => put_on_prefix(before, so_far, log, snapshot, o.index, entries),
        OpKind::SetPromise => Ok(so_far.with(IndexRecord {
            promise: o.ballot,
            ..index
        })),
        OpKind::SetDecidedIndex => Ok(so_far.with(IndexRecord {
            decided: o.index,
            ..index
        })),
        OpKind::SetAcceptedRound => Ok(so_far.with(IndexRecord {
            accepted_round: o.ballot,
            ..index
        })),
        OpKind::SetCompactedIdx => Ok(so_far.with(IndexRecord {
            compacted: o.index,
            ..index
        })),
        OpKind::Trim => Ok(trim_to(so_far, log, snapshot, o.index)),
        OpKind::SetStopsign => Ok(so_far.with(IndexRecord {
            stop_held: o.given,
            stop: sign_if(o.given, lent.stop),
            ..index
        })),
        OpKind::SetSnapshot => {
            write_snapshot(snapshot, o.given, incoming);
            Ok(so_far.with(IndexRecord {
                snapshot_held: o.given,
                keys: keys_if(o.given, lent.keys),
                ..index
            }))
        }
    }
}
