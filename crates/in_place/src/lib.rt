// Module 10: the host keeps one index record, and decide and trim alter it where it stands. Each is the call by value
// on the record that is there, and what it hands back is stored; where it is refused that record stays.
#![tactic(auto)]

ghost use Rattle.std.specs.Prelude.{◌≡◌, true};
ghost use Rattle.entry.specs.Upto.{upto_of};
ghost use Rattle.entry.specs.declared.Compaction.TheVariants.{Trim};
ghost use Rattle.model.specs.Calls.{decide, compact};
ghost use Rattle.state_cache.specs.State.{raw};
ghost use Rattle.state_cache.specs.Run.{outcome, run, settled};

use entry::{Compaction, LogIndex, Refusal};
use state_cache::IndexRecord;

// `internal_storage::set_decided_idx` on the record where it stands.
pub fn set_decided_idx(
    held: &mut IndexRecord,
    log: &[u64],
    snapshot: &[u64],
    idx: LogIndex,
) -> Result<(), Refusal>
    ensures { outcome (settled result) (raw held.new log.now snapshot.now)
        ≡ run (decide idx.0) true (raw held.old log.now snapshot.now) }
{
    *held = internal_storage::set_decided_idx(*held, log, snapshot, idx)?;
    Ok(())
}

// `compaction::compact` on the record where it stands, told to trim.
pub fn trim(
    held: &mut IndexRecord,
    log: &mut [u64],
    snapshot: &mut [u64],
    upto: Option<LogIndex>,
) -> Result<(), Refusal>
    ensures { outcome (settled result) (raw held.new log.new snapshot.new)
        ≡ run (compact Trim (upto_of upto)) true
        (raw held.old log.old snapshot.old) }
{
    *held = compaction::compact(*held, log, snapshot, Compaction::Trim, upto)?;
    Ok(())
}
