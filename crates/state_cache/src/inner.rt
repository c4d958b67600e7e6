// The numbers of an index record, for the crates above: not for a user, whose calls are in lib.rt. What a function
// needs of the record it requires: its callers have tested it.
ghost use Rattle.std.specs.Prelude.{◌≡◌, true, ◌+◌, ◌-◌, ◌≤◌, ltb};
ghost use Rattle.entry.specs.Limits.{last_index};
ghost use Rattle.entry.specs.Guards.{replied};
ghost use Rattle.model.specs.Log.{fresh_log};
ghost use Rattle.model.specs.Calls.{reload};
ghost use Rattle.model.specs.Numbers.{end_of, accepted_of, stop_decided, log_decided, numbers_formed};
ghost use Rattle.state_cache.specs.State.{raw, numbers_in, sign_held, snapshot_held, index_of};
ghost use Rattle.state_cache.specs.Inner.{Small, sizes_formed, Ready, hole_in};
ghost use Rattle.state_cache.specs.Run.{outcome, run};

use super::IndexRecord;
use entry::{Ballot, LogIndex};

// Whether a sum passes the largest index. No sum is made that might not fit.
pub fn past_last(a: u64, n: usize, more: u64) -> bool
    requires { more ≤ last_index }
    ensures { result ≡ ltb last_index (a + n + more) }
{
    if entry::LAST_INDEX - more < a {
        return true;
    }
    entry::LAST_INDEX - more - a < n as u64
}

// The index after the last retained entry.
pub fn end(index: IndexRecord) -> u64
    requires { Small (numbers_in index) }
    ensures { result ≡ end_of (numbers_in index) }
{
    index.compacted.0 + index.retained as u64
}

// The end, and one more where a stop-sign is held.
pub fn accepted(index: IndexRecord) -> u64
    requires { Small (numbers_in index) }
    ensures { result ≡ accepted_of (numbers_in index) }
{
    end(index) + u64::from(index.stop_held)
}

// Whether the log has a hole: entries were dropped, and no snapshot is held that has them.
pub fn hole(index: IndexRecord) -> bool
    ensures { result ≡ hole_in index }
{
    (0 < index.compacted.0) & !index.snapshot_held
}

// Whether the stop-sign is held and decided.
pub fn stop_decided(index: IndexRecord) -> bool
    requires { Small (numbers_in index) }
    ensures { result ≡ stop_decided (numbers_in index) }
{
    let last = accepted(index);
    index.stop_held & (index.decided.0 == last)
}

// The decided index without the stop-sign.
pub fn log_decided(index: IndexRecord) -> u64
    requires { Small (numbers_in index) }
    ensures { result ≡ log_decided (numbers_in index) }
{
    index
        .decided
        .0
        .saturating_sub(u64::from(stop_decided(index)))
}

// The bounds within which the sums of the other tests fit.
pub fn sizes_formed(index: IndexRecord) -> bool
    ensures { result ≡ sizes_formed (numbers_in index) }
{
    (index.retained <= entry::ENTRIES)
        & ((index.batched <= entry::ENTRIES) & (index.compacted.0 <= entry::LAST_INDEX))
}

// The tests that look at numbers alone.
pub fn numbers_formed(index: IndexRecord) -> bool
    requires { Small (numbers_in index) }
    ensures { result ≡ numbers_formed (numbers_in index) }
{
    let low = log_decided(index);
    let last = end(index);
    let all = accepted(index);
    let waiting = index.batched as u64;
    (index.compacted.0 <= low)
        & ((low <= last)
            & ((index.decided.0 <= all)
                & ((all + waiting <= entry::LAST_INDEX)
                    & (((waiting == 0) | (waiting < index.batch_size))
                        & ((!index.stop_held | (waiting == 0))
                            & ((index.batch_size <= entry::LARGEST_BATCH)
                                & (index.retained + index.batched <= entry::ENTRIES)))))))
}

// The stop-sign is in form where one is held, and blank else.
pub fn stop_formed(index: IndexRecord) -> bool
    ensures { result ≡ sign_held index }
{
    let stop = index.stop;
    let formed = entry::sign_formed(stop);
    let blank = entry::inner::sign_blank(stop);
    (index.stop_held & formed) | (!index.stop_held & blank)
}

// The snapshot is in form, and has no key where none is held.
pub fn snapshot_held_formed(index: IndexRecord, snapshot: &[u64]) -> bool
    ensures { result ≡ snapshot_held index snapshot.now }
{
    let fine = snapshot::snapshot_formed(snapshot, index.keys);
    fine & (index.snapshot_held | (index.keys == 0))
}

// The record of a fresh log.
pub fn fresh_index(batch_size: u64) -> IndexRecord
    ensures { result ≡ index_of (fresh_log batch_size) }
{
    let none = Ballot::with(0, 0, 0, 0);
    IndexRecord {
        batch_size,
        retained: 0,
        batched: 0,
        compacted: LogIndex(0),
        decided: LogIndex(0),
        promise: none,
        accepted_round: none,
        snapshot_held: false,
        keys: 0,
        stop_held: false,
        stop: entry::inner::no_sign(),
    }
}

// Drops the batch of a well-formed log. Says the accepted index after it.
pub fn reload(index: IndexRecord, log: &mut [u64], snapshot: &[u64]) -> (IndexRecord, LogIndex)
    requires { Ready (raw index log.old snapshot.now) }
    ensures { outcome (replied result.1.0) (raw result.0 log.new snapshot.now)
        ≡ run reload true (raw index log.old snapshot.now) }
{
    let used = (index.retained + index.batched) * entry::WIDTH;
    words::cut_out(
        log,
        used,
        index.retained * entry::WIDTH,
        index.batched * entry::WIDTH,
    );
    let mut next = index;
    next.batched = 0;
    (next, LogIndex(accepted(next)))
}
