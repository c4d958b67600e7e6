// The promise and the decided index.
ghost use Rattle.std.specs.Prelude.{◌≡◌, true};
ghost use Rattle.model.specs.Calls.{decide, set_promise};
ghost use Rattle.state_cache.specs.State.{raw};
ghost use Rattle.state_cache.specs.Run.{run, changed};

use entry::{Ballot, LogIndex, Refusal};
use state_cache::IndexRecord;

// Moves the decided index up: refused with 5 where it would go back, and with 6 past the accepted index.
pub fn set_decided_idx(
    index: IndexRecord,
    log: &[u64],
    snapshot: &[u64],
    idx: LogIndex,
) -> Result<IndexRecord, Refusal>
    ensures { changed index result log.now snapshot.now
        ≡ run (decide idx.0) true (raw index log.now snapshot.now) }
{
    if !state_cache::well_formed(index, log, snapshot) {
        return Err(Refusal::IllFormed);
    }
    let mut next = index;
    super::inner::decide::set_decided_idx(&mut next, log, snapshot, idx)?;
    Ok(next)
}

// Keeps the ballot that was promised, whatever it was before.
pub fn set_promise(
    index: IndexRecord,
    log: &[u64],
    snapshot: &[u64],
    n_prom: Ballot,
) -> Result<IndexRecord, Refusal>
    ensures { changed index result log.now snapshot.now
        ≡ run (set_promise n_prom) true (raw index log.now snapshot.now) }
{
    if !state_cache::well_formed(index, log, snapshot) {
        return Err(Refusal::IllFormed);
    }
    let mut next = index;
    super::inner::decide::set_promise(&mut next, log, snapshot, n_prom)?;
    Ok(next)
}
