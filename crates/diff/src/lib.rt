// What a follower lacks: module 7 of document 01 on a lent log.
#![tactic(auto)]

ghost use Rattle.std.specs.Prelude.{◌≡◌, eqb, length};
ghost use Rattle.entry.specs.Limits.{snapshot_words};
ghost use Rattle.model.specs.Calls.{query, diff};
ghost use Rattle.state_cache.specs.State.{raw};
ghost use Rattle.state_cache.specs.Run.{run};
ghost use Rattle.diff.specs.Replies.{diff_said, out_after};

use entry::{LogIndex, Refusal};
use state_cache::IndexRecord;

pub mod inner;

// What was written to the output slice, with its number of keys: a snapshot of all that is decided, one of what is
// decided from an index on, or none. Beside each the index up to which it goes.
#[derive(Clone, Copy, Debug, PartialEq, Eq)]
pub enum Diff {
    Nothing { log_decided: LogIndex },
    Complete { keys: usize, log_decided: LogIndex },
    Delta { keys: usize, log_decided: LogIndex },
}

// Writes out what a follower lacks that has the log up to `from`. The log stays as it is.
pub fn create_diff_snapshot(
    index: IndexRecord,
    log: &[u64],
    snapshot: &[u64],
    from: LogIndex,
    out: &mut [u64],
) -> Result<Diff, Refusal>
    ensures result_after { diff_said out.new result
        ≡ (run (query (diff from.0)) (eqb (length out.old) snapshot_words)
        (raw index log.now snapshot.now)).answer }
    ensures out_after { out.new
        ≡ out_after
        (run (query (diff from.0)) (eqb (length out.old) snapshot_words)
        (raw index log.now snapshot.now)).answer out.old }
{
    if !state_cache::well_formed(index, log, snapshot) {
        return Err(Refusal::IllFormed);
    }
    let roomy = out.len() == entry::SNAPSHOT_WORDS;
    if !roomy {
        return Err(Refusal::Malformed);
    }
    inner::diff_at(index, log, snapshot, from, out)
}
