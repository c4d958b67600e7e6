// What the calls do once the state is known to be well formed: not for a user, whose calls are in lib.rt.
ghost use Rattle.std.specs.Prelude.{◌≡◌, true, length};
ghost use Rattle.entry.specs.Limits.{snapshot_words};
ghost use Rattle.entry.specs.Upto.{upto_of};
ghost use Rattle.snapshot.specs.Calls.{outcome as snapshot_outcome, folded, written_out};
ghost use Rattle.model.specs.Calls.{query, create, compact};
ghost use Rattle.model.specs.Compact.{target, past_decided};
ghost use Rattle.state_cache.specs.State.{raw, numbers_in};
ghost use Rattle.state_cache.specs.Inner.{Small, Ready};
ghost use Rattle.state_cache.specs.Run.{run, changed};
ghost use Rattle.compaction.specs.Inner.{ReachIs, Movable, Moved, held_written, holds_then};

use entry::{Compaction, LogIndex, Refusal};
use state_cache::IndexRecord;

// Whether refusal 2 applies.
fn past_decided(index: IndexRecord, upto: Option<LogIndex>) -> bool
    ensures { result ≡ past_decided (upto_of upto) (numbers_in index) }
{
    upto.is_some_and(|i| index.decided < i)
}

// Where a compaction ends. An index that is decided is no more than log-decided, but for that of a decided
// stop-sign, which is no entry to compact.
fn target(index: IndexRecord, upto: Option<LogIndex>) -> u64
    requires { Small (numbers_in index) }
    ensures { result ≡ target (upto_of upto) (numbers_in index) }
{
    let decided = state_cache::inner::log_decided(index);
    upto.map_or(decided, |i| i.0.min(decided))
}

// Refusal 2, or the index that the run's start moves up to: none where the target does not pass it.
fn reach_of(index: IndexRecord, upto: Option<LogIndex>) -> Result<Option<u64>, Refusal>
    requires { Small (numbers_in index) }
    ensures { ReachIs (upto_of upto) index result }
{
    if past_decided(index, upto) {
        return Err(Refusal::AboveDecided(index.decided));
    }
    let to = target(index, upto);
    if to <= index.compacted.0 {
        return Ok(None);
    }
    Ok(Some(to))
}

// Moves the run's start up to an index: the entries below it are cut out. The snapshot that is then held is the
// caller's: a flag and a count, no Option, since they are fields of the record that C has.
pub fn move_to(
    index: IndexRecord,
    log: &mut [u64],
    to: u64,
    snapshot_held: bool,
    keys: usize,
) -> IndexRecord
    requires { Movable to index log.old }
    ensures { Moved to snapshot_held keys index log.old result log.new }
{
    let gone = (to - index.compacted.0) as usize;
    let used = (index.retained + index.batched) * entry::WIDTH;
    words::cut_out(log, used, 0, gone * entry::WIDTH);
    IndexRecord {
        compacted: LogIndex(to),
        retained: index.retained - gone,
        snapshot_held,
        keys,
        ..index
    }
}

// The snapshot that is held once the run starts at `to`, in its place: none after a trim, which clears its words; after
// a snapshot the fold of all below, or refusal 16 or 8. Says how many keys it has.
fn hold(
    index: IndexRecord,
    log: &[u64],
    snapshot: &mut [u64],
    what: Compaction,
    to: u64,
) -> Result<usize, Refusal>
    requires { Ready (raw index log.now snapshot.old) × Movable to index log.now }
    ensures { snapshot_outcome (folded result) snapshot.new
        ≡ held_written what to (raw index log.now snapshot.old) }
{
    match what {
        Compaction::Trim => {
            words::clear(snapshot, 0, entry::SNAPSHOT_WORDS);
            Ok(0)
        }
        Compaction::Snapshot => {
            if state_cache::inner::hole(index) {
                return Err(Refusal::Hole);
            }
            let gone = (to - index.compacted.0) as usize;
            snapshot::inner::fold_over(snapshot, index.keys, log, gone, &[], 0)
        }
    }
}

// Whether a snapshot is then held.
fn holds(what: Compaction) -> bool
    ensures { result ≡ holds_then what }
{
    what == Compaction::Snapshot
}

// Refusals 2, 16 and 8, the last two for snapshots only, or the entries below the target gone from the log.
pub fn compact_at(
    index: IndexRecord,
    log: &mut [u64],
    snapshot: &mut [u64],
    what: Compaction,
    upto: Option<LogIndex>,
) -> Result<IndexRecord, Refusal>
    requires { Ready (raw index log.old snapshot.old) }
    ensures { changed index result log.new snapshot.new
        ≡ run (compact what (upto_of upto)) true (raw index log.old snapshot.old) }
{
    let Some(to) = reach_of(index, upto)? else {
        return Ok(index);
    };
    let keys = hold(index, log, snapshot, what, to)?;
    Ok(move_to(index, log, to, holds(what), keys))
}

// Refusals 3, 2, 16 and 8, or the fold of all below the target.
pub fn create_at(
    index: IndexRecord,
    log: &[u64],
    snapshot: &[u64],
    idx: LogIndex,
    out: &mut [u64],
) -> Result<usize, Refusal>
    requires { Ready (raw index log.now snapshot.now) × (length out.old ≡ snapshot_words) }
    ensures { snapshot_outcome (folded result) out.new
        ≡ written_out
        (run (query (create idx.0)) true (raw index log.now snapshot.now)).answer
        out.old }
{
    let start = index.compacted;
    if idx < start {
        return Err(Refusal::BelowCompacted(start));
    }
    let decided = index.decided;
    let upto = Some(idx);
    if past_decided(index, upto) {
        return Err(Refusal::AboveDecided(decided));
    }
    let holed = state_cache::inner::hole(index);
    if holed {
        return Err(Refusal::Hole);
    }
    let to = target(index, upto);
    let n = (to - start.0) as usize;
    snapshot::inner::fold_aside(snapshot, index.keys, log, n, out)
}
