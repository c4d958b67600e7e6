// The index record: a log's numbers by value, beside its lent words. When the two are well formed; a fresh log, and a
// log reloaded; and what a user asks for that no field of the record says.
#![tactic(auto)]

ghost use Rattle.std.specs.Prelude.{◌≡◌, true};
ghost use Rattle.model.specs.Numbers.{accepted_of, stop_decided, log_decided};
ghost use Rattle.model.specs.Calls.{reload};
ghost use Rattle.state_cache.specs.State.{raw, formed, index_of};
ghost use Rattle.model.specs.Log.{fresh_log};
ghost use Rattle.state_cache.specs.Run.{run, of_numbers, index_at, index_said, flag, changed, changed_at, fresh_call};

use entry::{Ballot, LogIndex, Refusal, StopSign};

pub mod inner;

#[repr(C)]
#[derive(Clone, Copy, Debug, PartialEq, Eq)]
pub struct IndexRecord {
    pub batch_size: u64,
    pub retained: usize,
    pub batched: usize,
    pub compacted: LogIndex,
    pub decided: LogIndex,
    pub promise: Ballot,
    pub accepted_round: Ballot,
    pub snapshot_held: bool,
    pub keys: usize,
    pub stop_held: bool,
    pub stop: StopSign,
}

// Document 01's "well formed", all of it.
pub fn well_formed(index: IndexRecord, log: &[u64], snapshot: &[u64]) -> bool
    ensures { result ≡ formed (raw index log.now snapshot.now) }
{
    if !inner::sizes_formed(index) {
        return false;
    }
    let numbers = inner::numbers_formed(index);
    let stop = inner::stop_formed(index);
    let entries = entry::inner::laid_out(log, entry::LOG_WORDS, index.retained + index.batched);
    let keys = inner::snapshot_held_formed(index, snapshot);
    numbers & (stop & (entries & keys))
}

// A fresh log: zeros over both slices, and the record of a log with that batch size.
pub fn fresh(batch_size: u64, log: &mut [u64], snapshot: &mut [u64]) -> Result<IndexRecord, Refusal>
    ensures { changed (index_of (fresh_log 0)) result log.new snapshot.new
        ≡ fresh_call batch_size log.old snapshot.old }
{
    let words = log.len();
    let snapshot_words = snapshot.len();
    let sized = batch_size <= entry::LARGEST_BATCH;
    let roomy = (words == entry::LOG_WORDS) & (snapshot_words == entry::SNAPSHOT_WORDS);
    if !(sized & roomy) {
        return Err(Refusal::Malformed);
    }
    words::clear(log, 0, words);
    words::clear(snapshot, 0, snapshot_words);
    Ok(inner::fresh_index(batch_size))
}

// Reloads a log: the batch is dropped and its words become zero, and the rest stays. Replies the accepted index.
pub fn load_cache(
    index: IndexRecord,
    log: &mut [u64],
    snapshot: &[u64],
) -> Result<(IndexRecord, LogIndex), Refusal>
    ensures { changed_at index_at index result log.new snapshot.now
        ≡ run reload true (raw index log.old snapshot.now) }
{
    if well_formed(index, log, snapshot) {
        Ok(inner::reload(index, log, snapshot))
    } else {
        Err(Refusal::IllFormed)
    }
}

// The index after the last that is accepted: compacted, the retained entries, and the stop-sign where one is held.
pub fn get_accepted_idx(
    index: IndexRecord,
    log: &[u64],
    snapshot: &[u64],
) -> Result<LogIndex, Refusal>
    ensures { index_said result ≡ of_numbers accepted_of (raw index log.now snapshot.now) }
{
    if !well_formed(index, log, snapshot) {
        return Err(Refusal::IllFormed);
    }
    Ok(LogIndex(inner::accepted(index)))
}

// The decided index, a decided stop-sign not counted.
pub fn get_decided_idx_without_stopsign(
    index: IndexRecord,
    log: &[u64],
    snapshot: &[u64],
) -> Result<LogIndex, Refusal>
    ensures { index_said result ≡ of_numbers log_decided (raw index log.now snapshot.now) }
{
    if !well_formed(index, log, snapshot) {
        return Err(Refusal::IllFormed);
    }
    Ok(LogIndex(inner::log_decided(index)))
}

// Whether a stop-sign is held and the decided index counts it.
pub fn stopsign_is_decided(
    index: IndexRecord,
    log: &[u64],
    snapshot: &[u64],
) -> Result<bool, Refusal>
    ensures { flag result ≡ of_numbers stop_decided (raw index log.now snapshot.now) }
{
    if !well_formed(index, log, snapshot) {
        return Err(Refusal::IllFormed);
    }
    Ok(inner::stop_decided(index))
}
