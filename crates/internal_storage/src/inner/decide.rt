// The promise and the decided index of a log that is known to be well formed: not for a user, whose calls are in
// decide.rt.
ghost use Rattle.std.specs.Prelude.{◌≡◌, true};
ghost use Rattle.entry.specs.Guards.{first};
ghost use Rattle.model.specs.Calls.{decide, set_promise, decide_guards};
ghost use Rattle.state_cache.specs.State.{raw, numbers_in};
ghost use Rattle.state_cache.specs.Inner.{Small, Ready, with_decided};
ghost use Rattle.state_cache.specs.Run.{outcome, run, settled};
ghost use Rattle.internal_storage.specs.Inner.{indexed, by_numbers};

use entry::{Ballot, LogIndex, Refusal};
use state_cache::IndexRecord;

// Refusals 5 and 6, or the index moved.
fn decide_at(index: &mut IndexRecord, idx: LogIndex) -> Result<(), Refusal>
    requires { Small (numbers_in index.old) }
    ensures { indexed (settled result) index.new
        ≡ by_numbers (first (decide_guards idx.0 (numbers_in index.old))) tt (with_decided idx index.old) index.old }
{
    let decided = index.decided;
    if idx.0 < decided.0 {
        return Err(Refusal::BelowDecided(decided));
    }
    let last = state_cache::inner::accepted(*index);
    if last < idx.0 {
        return Err(Refusal::AboveAccepted(LogIndex(last)));
    }
    index.decided = idx;
    Ok(())
}

pub fn set_decided_idx(
    index: &mut IndexRecord,
    log: &[u64],
    snapshot: &[u64],
    idx: LogIndex,
) -> Result<(), Refusal>
    requires { Ready (raw index.old log.now snapshot.now) }
    ensures { outcome (settled result) (raw index.new log.now snapshot.now)
        ≡ run (decide idx.0) true (raw index.old log.now snapshot.now) }
{
    decide_at(index, idx)
}

pub fn set_promise(
    index: &mut IndexRecord,
    log: &[u64],
    snapshot: &[u64],
    n_prom: Ballot,
) -> Result<(), Refusal>
    requires { Ready (raw index.old log.now snapshot.now) }
    ensures { outcome (settled result) (raw index.new log.now snapshot.now)
        ≡ run (set_promise n_prom) true (raw index.old log.now snapshot.now) }
{
    index.promise = n_prom;
    Ok(())
}
