// The calls of document 01's module 6 on a lent log. Each contract is one equation with `run`: the reply, the record
// and every lent word after the call. `compact` is the Rust's `try_trim` and `try_snapshot` in one.
#![tactic(auto)]

ghost use Rattle.std.specs.Prelude.{◌≡◌, true, eqb, length};
ghost use Rattle.entry.specs.Limits.{snapshot_words};
ghost use Rattle.entry.specs.Upto.{upto_of};
ghost use Rattle.snapshot.specs.Calls.{outcome as snapshot_outcome, folded, written_out};
ghost use Rattle.model.specs.Calls.{query, create, compact as compactCall};
ghost use Rattle.state_cache.specs.State.{raw};
ghost use Rattle.state_cache.specs.Run.{run, changed};

use entry::{Compaction, LogIndex, Refusal};
use state_cache::IndexRecord;

pub mod inner;

// Compacts the entries below an index, or all below log-decided. A trim drops them, and the held snapshot, which lacks
// them: nothing can be folded onto the log until a complete sync. A snapshot folds them onto the held one; where the
// log has a hole, or the fold too many keys, nothing changes. Neither does where the start of the run is not passed.
pub fn compact(
    index: IndexRecord,
    log: &mut [u64],
    snapshot: &mut [u64],
    what: Compaction,
    upto: Option<LogIndex>,
) -> Result<IndexRecord, Refusal>
    ensures { changed index result log.new snapshot.new
        ≡ run (compactCall what (upto_of upto)) true (raw index log.old snapshot.old) }
{
    if !state_cache::well_formed(index, log, snapshot) {
        return Err(Refusal::IllFormed);
    }
    inner::compact_at(index, log, snapshot, what, upto)
}

// Writes out the fold of all changes below an index and says how many keys it has. The log stays as it is.
pub fn create_snapshot(
    index: IndexRecord,
    log: &[u64],
    snapshot: &[u64],
    idx: LogIndex,
    out: &mut [u64],
) -> Result<usize, Refusal>
    ensures { snapshot_outcome (folded result) out.new
        ≡ written_out
        (run (query (create idx.0)) (eqb (length out.old) snapshot_words)
        (raw index log.now snapshot.now)).answer out.old }
{
    if !state_cache::well_formed(index, log, snapshot) {
        return Err(Refusal::IllFormed);
    }
    let roomy = out.len() == entry::SNAPSHOT_WORDS;
    if !roomy {
        return Err(Refusal::Malformed);
    }
    inner::create_at(index, log, snapshot, idx, out)
}
