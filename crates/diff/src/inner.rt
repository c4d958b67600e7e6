// What a diff does once the state is known to be well formed: not for a user, whose call is in lib.rt.
ghost use Rattle.std.specs.Prelude.{◌*◌, ◌≤◌, ◌≡◌, true, [], length, drop};
ghost use Rattle.entry.specs.Limits.{width, snapshot_words};
ghost use Rattle.snapshot.specs.Calls.{outcome, folded};
ghost use Rattle.snapshot.specs.Inner.{Shows, folded_out};
ghost use Rattle.model.specs.Calls.{query, diff};
ghost use Rattle.state_cache.specs.State.{raw};
ghost use Rattle.state_cache.specs.Inner.{Ready};
ghost use Rattle.state_cache.specs.Run.{run};
ghost use Rattle.diff.specs.Replies.{diff_said, out_after};

use super::Diff;
use entry::{LogIndex, Refusal};
use state_cache::IndexRecord;

// Folds the n entries from the first-th on and writes the fold out.
fn fold_part(log: &[u64], first: usize, n: usize, out: &mut [u64]) -> Result<usize, Refusal>
    requires { (first * width ≤ length log.now)
        × (Shows n (drop (first * width) log.now) × (length out.old ≡ snapshot_words)) }
    ensures { outcome (folded result) out.new
        ≡ folded_out 0 [] n (drop (first * width) log.now) out.old }
{
    let at = first * entry::WIDTH;
    let mut empty = [0u64; entry::SNAPSHOT_WORDS];
    snapshot::inner::fold_out(&mut empty, 0, &log[at..], n, out)
}

// Refusals 16 and 8, or the diff written out. Where nothing is retained below log-decided, the fold onto the held
// snapshot is a copy of it; a log with a hole holds none.
pub fn diff_at(
    index: IndexRecord,
    log: &[u64],
    snapshot: &[u64],
    from: LogIndex,
    out: &mut [u64],
) -> Result<Diff, Refusal>
    requires { Ready (raw index log.now snapshot.now) × (length out.old ≡ snapshot_words) }
    ensures result_after { diff_said out.new result
        ≡ (run (query (diff from.0)) true (raw index log.now snapshot.now)).answer }
    ensures out_after { out.new
        ≡ out_after
        (run (query (diff from.0)) true (raw index log.now snapshot.now)).answer
        out.old }
{
    let low = index.compacted.0;
    let last = state_cache::inner::log_decided(index);
    let log_decided = LogIndex(last);
    if low < from.0 {
        let start = from.0.min(last);
        let keys = fold_part(log, (start - low) as usize, (last - start) as usize, out)?;
        return Ok(Diff::Delta { keys, log_decided });
    }
    if !(index.snapshot_held | (low < last)) {
        return Ok(Diff::Nothing { log_decided });
    }
    if state_cache::inner::hole(index) {
        return Err(Refusal::Hole);
    }
    let keys = snapshot::inner::fold_aside(snapshot, index.keys, log, (last - low) as usize, out)?;
    Ok(Diff::Complete { keys, log_decided })
}
