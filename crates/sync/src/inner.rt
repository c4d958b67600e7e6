// What a sync does once the state is known to be well formed: not for a user, whose call is in lib.rt.
ghost use Rattle.std.specs.Prelude.{◌-◌, ◌≤◌, ◌≡◌, true, false, if◌then◌else◌, is_none};
ghost use Rattle.std.proofs.Math.Option.{some};
ghost use Rattle.entry.specs.Guards.{first, settle};
ghost use Rattle.entry.specs.Limits.{snapshot_words};
ghost use Rattle.entry.specs.Change.{entries_of};
ghost use Rattle.snapshot.specs.Calls.{outcome as snapshot_outcome, folded};
ghost use Rattle.snapshot.specs.Inner.{Holds, fold_written};
ghost use Rattle.model.specs.Numbers.{accepted_of, log_decided};
ghost use Rattle.model.specs.Sync.{part_number_guards, round_guards};
ghost use Rattle.model.specs.Calls.{sync as syncCall};
ghost use Rattle.model.specs.Inner.{Sound};
ghost use Rattle.state_cache.specs.State.{raw, numbers_in};
ghost use Rattle.state_cache.specs.Inner.{Ready};
ghost use Rattle.state_cache.specs.Run.{run, index_at, changed_at};
ghost use Rattle.internal_storage.specs.Inner.{verdict_of, next_at};
ghost use Rattle.sync.specs.Requests.{delta_by, part_by, numbers_by, request_formed};
ghost use Rattle.sync.specs.Inner.{snapshot_then, marked, Fits, Taken, Syncs};

use super::{LogSync, SnapshotType};
use entry::{Ballot, LogIndex, Refusal};
use state_cache::IndexRecord;

fn is_delta(kind: Option<SnapshotType>) -> bool
    ensures { result ≡ delta_by kind }
{
    matches!(kind, Some(SnapshotType::Delta))
}

// Whether all that is lent is in form. A log part, a snapshot or a stop-sign that is not lent is not judged; the
// slices' lengths are.
pub fn request_formed(log_sync: Option<LogSync>, incoming: &[u64], suffix: &[u64]) -> bool
    ensures { result ≡ request_formed log_sync incoming.now suffix.now }
{
    let sized = incoming.len() == entry::SNAPSHOT_WORDS;
    let words = suffix.len();
    let whole = words % entry::WIDTH == 0;
    let Some(part) = log_sync else {
        return sized & whole;
    };
    let keys = snapshot::snapshot_formed(incoming, part.keys);
    let fine = entry::inner::places_formed(suffix, words / entry::WIDTH);
    let stop = part.stopsign.is_none_or(|sign| entry::sign_formed(sign));
    (sized & (whole & (part.decided_snapshot.is_none() | keys))) & (fine & stop)
}

// How many of the retained entries stay: where no snapshot comes those below the sync's index.
fn kept_of(kind: Option<SnapshotType>, idx: u64, low: u64) -> u64
    requires { low ≤ idx }
    ensures { result ≡ (if is_none kind then idx - low else 0) }
{
    match kind {
        None => idx - low,
        Some(_) => 0,
    }
}

// Refusals 4, 5, 7, 10, 9, 1, 6 and 2, of a log part with n entries.
fn check_sync(
    index: IndexRecord,
    decided_idx: LogIndex,
    log_sync: LogSync,
    n: usize,
) -> Result<(), Refusal>
    requires { Sound (numbers_in index) }
    ensures { verdict_of result
        ≡ first (part_number_guards decided_idx.0 (numbers_by log_sync n) (numbers_in index)) }
{
    let decided = index.decided;
    let low = index.compacted.0;
    let waiting = index.batched;
    let idx = log_sync.sync_idx.0;
    let stop = log_sync.stopsign.is_some();
    let kind = log_sync.decided_snapshot;
    let plain = kind.is_none();
    let end = state_cache::inner::end(index);
    let last = state_cache::inner::accepted(index);
    let one = u64::from(stop);
    let next = decided_idx.0.max(decided.0);
    if state_cache::inner::stop_decided(index) {
        return Err(Refusal::Stopped(LogIndex(last)));
    }
    if idx < decided.0 {
        return Err(Refusal::BelowDecided(decided));
    }
    if plain & ((idx < low) | (end < idx)) {
        return Err(Refusal::OutsideRun(LogIndex(end)));
    }
    if stop & (0 < waiting) {
        return Err(Refusal::BatchHeld(waiting));
    }
    if state_cache::inner::past_last(idx, n, one + waiting as u64) {
        return Err(Refusal::PastLastIndex(LogIndex(last)));
    }
    let kept = kept_of(kind, idx, low) as usize;
    if entry::ENTRIES - (kept + waiting) < n {
        return Err(Refusal::NoRoom);
    }
    let then = idx + n as u64 + one;
    if then < next {
        return Err(Refusal::AboveAccepted(LogIndex(then)));
    }
    if !plain & (next < idx) {
        return Err(Refusal::AboveDecided(LogIndex(next)));
    }
    Ok(())
}

// The record with the round and the larger decided index.
fn mark(index: IndexRecord, accepted_round: Ballot, decided_idx: LogIndex) -> IndexRecord
    ensures { result ≡ marked accepted_round decided_idx.0 index }
{
    let mut next = index;
    next.decided = LogIndex(decided_idx.0.max(index.decided.0));
    next.accepted_round = accepted_round;
    next
}

// A sync without log part: refusal 6, or the marks alone. No word moves.
pub fn round_at(
    index: IndexRecord,
    accepted_round: Ballot,
    decided_idx: LogIndex,
) -> Result<(IndexRecord, LogIndex), Refusal>
    requires { Sound (numbers_in index) }
    ensures { next_at index_at result
        ≡ settle (first (round_guards decided_idx.0 (numbers_in index)))
        (marked accepted_round decided_idx.0 index, accepted_of (numbers_in index)) }
{
    let last = LogIndex(state_cache::inner::accepted(index));
    let next = mark(index, accepted_round, decided_idx);
    if last.0 < next.decided.0 {
        return Err(Refusal::AboveAccepted(last));
    }
    Ok((next, last))
}

// Puts the snapshot that is then held in the place of the one held before. A delta goes onto all that was decided
// before the call.
fn hold(
    index: IndexRecord,
    log: &[u64],
    snapshot: &mut [u64],
    kind: Option<SnapshotType>,
    incoming: &[u64],
    keys: usize,
) -> Result<usize, Refusal>
    requires { Ready (raw index log.now snapshot.old)
        × (is_none kind ≡ false → Holds snapshot_words keys incoming.now) }
    ensures { snapshot_outcome (folded result) snapshot.new
        ≡ fold_written
        (snapshot_then kind
        (entries_of index.keys snapshot.old)
        (entries_of (log_decided (numbers_in index) - index.compacted.0) log.now)
        (entries_of keys incoming.now))
        snapshot.old }
{
    match kind {
        None => Ok(index.keys),
        Some(SnapshotType::Complete) => {
            words::copy_words(incoming, snapshot);
            Ok(keys)
        }
        Some(SnapshotType::Delta) => {
            let decided = state_cache::inner::log_decided(index);
            let n = (decided - index.compacted.0) as usize;
            snapshot::inner::fold_over(snapshot, index.keys, log, n, incoming, keys)
        }
    }
}

// Where the run then starts: a snapshot stands for all entries below the sync's index.
fn start_of(kind: Option<SnapshotType>, low: LogIndex, idx: LogIndex) -> LogIndex
    ensures { result ≡ (if is_none kind then low else idx) }
{
    match kind {
        None => low,
        Some(_) => idx,
    }
}

// Puts the suffix in the place of the retained entries from the sync's index on, of a snapshot in the place of all.
// The batch stays behind it.
fn take_suffix(
    index: IndexRecord,
    log: &mut [u64],
    log_sync: LogSync,
    suffix: &[u64],
    n: usize,
    keys: usize,
) -> IndexRecord
    requires { Fits log_sync n index log.old suffix.now }
    ensures { Taken log_sync n keys index log.old suffix.now result log.new }
{
    let kind = log_sync.decided_snapshot;
    let kept = kept_of(kind, log_sync.sync_idx.0, index.compacted.0) as usize;
    words::splice(
        log,
        (index.retained + index.batched) * entry::WIDTH,
        kept * entry::WIDTH,
        (index.retained - kept) * entry::WIDTH,
        suffix,
    );
    let mut next = index;
    next.compacted = start_of(kind, index.compacted, log_sync.sync_idx);
    next.retained = kept + n;
    next.snapshot_held = index.snapshot_held | kind.is_some();
    next.keys = keys;
    next.stop_held = log_sync.stopsign.is_some();
    next.stop = log_sync.stopsign.unwrap_or(entry::inner::no_sign());
    next
}

// A sync with a log part on a well-formed log. All refusals are decided before a word is written.
pub fn sync_at(
    index: IndexRecord,
    log: &mut [u64],
    snapshot: &mut [u64],
    accepted_round: Ballot,
    decided_idx: LogIndex,
    log_sync: LogSync,
    incoming: &[u64],
    suffix: &[u64],
) -> Result<(IndexRecord, LogIndex), Refusal>
    requires { Syncs (raw index log.old snapshot.old) log_sync incoming.now suffix.now }
    ensures { changed_at index_at index result log.new snapshot.new
        ≡ run
        (syncCall accepted_round decided_idx.0
        (some (part_by log_sync incoming.now suffix.now))) true
        (raw index log.old snapshot.old) }
{
    let n = suffix.len() / entry::WIDTH;
    check_sync(index, decided_idx, log_sync, n)?;
    let kind = log_sync.decided_snapshot;
    // A delta goes onto all that was decided before the call, which a log with a hole does not hold.
    if is_delta(kind) & state_cache::inner::hole(index) {
        return Err(Refusal::Hole);
    }
    let marked = mark(index, accepted_round, decided_idx);
    let keys = hold(index, log, snapshot, kind, incoming, log_sync.keys)?;
    let next = take_suffix(marked, log, log_sync, suffix, n, keys);
    Ok((next, LogIndex(state_cache::inner::accepted(next))))
}
