// A leader's sync: module 8 of document 01 on a lent log. The name is the Rust's.
#![tactic(auto)]

ghost use Rattle.std.specs.Prelude.{◌≡◌};
ghost use Rattle.model.specs.Calls.{sync as syncCall};
ghost use Rattle.state_cache.specs.State.{raw};
ghost use Rattle.state_cache.specs.Run.{run, index_at, changed_at};
ghost use Rattle.sync.specs.Requests.{part_of, lent_whole};

use entry::{Ballot, LogIndex, Refusal, StopSign};
use state_cache::IndexRecord;

pub mod inner;

// What a snapshot that a sync brings for the entries below its index has of them: all, or those from our log-decided
// index on.
#[derive(Clone, Copy, Debug, PartialEq, Eq)]
pub enum SnapshotType {
    Complete,
    Delta,
}

// A sync's log part. Its suffix and its snapshot, if it brings one, are lent beside it; the snapshot has so many keys.
#[derive(Clone, Copy, Debug, PartialEq, Eq)]
pub struct LogSync {
    pub sync_idx: LogIndex,
    pub decided_snapshot: Option<SnapshotType>,
    pub keys: usize,
    pub stopsign: Option<StopSign>,
}

// Takes over a leader's round and decided index, and its log where there is a log part: without one the slices'
// lengths are looked at and nothing more. All of it stands or nothing changes.
pub fn sync_log(
    index: IndexRecord,
    log: &mut [u64],
    snapshot: &mut [u64],
    accepted_round: Ballot,
    decided_idx: LogIndex,
    log_sync: Option<LogSync>,
    incoming: &[u64],
    suffix: &[u64],
) -> Result<(IndexRecord, LogIndex), Refusal>
    ensures { changed_at index_at index result log.new snapshot.new
        ≡ run
        (syncCall accepted_round decided_idx.0
        (part_of log_sync incoming.now suffix.now))
        (lent_whole log_sync incoming.now suffix.now)
        (raw index log.old snapshot.old) }
{
    if !state_cache::well_formed(index, log, snapshot) {
        return Err(Refusal::IllFormed);
    }
    if !inner::request_formed(log_sync, incoming, suffix) {
        return Err(Refusal::Malformed);
    }
    let Some(part) = log_sync else {
        return inner::round_at(index, accepted_round, decided_idx);
    };
    inner::sync_at(
        index,
        log,
        snapshot,
        accepted_round,
        decided_idx,
        part,
        incoming,
        suffix,
    )
}
