// Snapshots: folds and merges written out, a key found, and the two that a log gives.
ghost use Rattle.std.specs.Prelude.{◌≡◌, eqb, length};
ghost use Rattle.entry.specs.Limits.{snapshot_words};
ghost use Rattle.snapshot.specs.Calls.{fold_call, merge_call, find_call, written_out};
ghost use Rattle.model.specs.Calls.{query, create, diff as diffCall};
ghost use Rattle.state_cache.specs.State.{raw};
ghost use Rattle.state_cache.specs.Run.{run};
ghost use Rattle.diff.specs.Replies.{out_after};
ghost use Rattle.host.specs.Plain.{plain, a_word, a_diff, wrote, wrote_as};

use super::{Said, answers};
use entry::LogIndex;
use state_cache::IndexRecord;

// Folds a run of entries: the last one for a key wins, and a removal is kept. Tells the number of keys.
#[unsafe(no_mangle)]
pub extern "C" fn kotuseraw_fold(entries: &[u64], out: &mut [u64]) -> Said
    ensures { wrote result out.new ≡ wrote_as (fold_call entries.now out.old) }
{
    answers::said(snapshot::fold(entries, out))
}

// Merges two snapshots: the second's word wins. Tells the number of keys.
#[unsafe(no_mangle)]
pub extern "C" fn kotuseraw_merge(a: &[u64], n: usize, b: &[u64], m: usize, out: &mut [u64]) -> Said
    ensures { wrote result out.new
        ≡ wrote_as (merge_call a.now n b.now m out.old) }
{
    answers::said(snapshot::merge(a, n, b, m, out))
}

// A key in a snapshot. Told 0: unknown; 1: its place, first; 2: removed.
#[unsafe(no_mangle)]
pub extern "C" fn kotuseraw_find(s: &[u64], keys: usize, key: u64) -> Said
    ensures { result ≡ plain a_word (find_call s.now keys key) }
{
    answers::said(snapshot::find(s, keys, key))
}

// Writes out the fold of all changes below an index, and tells how many keys it has.
#[unsafe(no_mangle)]
pub extern "C" fn kotuseraw_create_snapshot(
    index: IndexRecord,
    log: &[u64],
    snapshot: &[u64],
    idx: LogIndex,
    out: &mut [u64],
) -> Said
    ensures { wrote result out.new
        ≡ wrote_as
        (written_out
        (run (query (create idx.0)) (eqb (length out.old) snapshot_words)
        (raw index log.now snapshot.now)).answer out.old) }
{
    answers::said(compaction::create_snapshot(index, log, snapshot, idx, out))
}

// Told 1: nothing; 2: a complete snapshot; 3: a delta. First its keys, second log-decided.
#[unsafe(no_mangle)]
pub extern "C" fn kotuseraw_create_diff_snapshot(
    index: IndexRecord,
    log: &[u64],
    snapshot: &[u64],
    from: LogIndex,
    out: &mut [u64],
) -> Said
    ensures value { result
        ≡ plain a_diff
        (run (query (diffCall from.0)) (eqb (length out.old) snapshot_words)
        (raw index log.now snapshot.now)).answer }
    ensures out_after { out.new
        ≡ out_after
        (run (query (diffCall from.0)) (eqb (length out.old) snapshot_words)
        (raw index log.now snapshot.now)).answer out.old }
{
    answers::said(diff::create_diff_snapshot(index, log, snapshot, from, out))
}
