// Module 10 for the host: decide and trim alter the record where it stands.
ghost use Rattle.std.specs.Prelude.{◌≡◌, true};
ghost use Rattle.entry.specs.declared.Compaction.TheVariants.{Trim};
ghost use Rattle.model.specs.Calls.{decide, compact};
ghost use Rattle.state_cache.specs.State.{raw};
ghost use Rattle.state_cache.specs.Run.{run};
ghost use Rattle.host.specs.Plain.{nothing, left, plainly};
ghost use Rattle.host.specs.Requests.{of_flag};

use super::{Said, answers};
use entry::LogIndex;
use state_cache::IndexRecord;

// Moves the decided index.
#[unsafe(no_mangle)]
pub extern "C" fn kotuseraw_in_place_set_decided_idx(
    held: &mut IndexRecord,
    log: &[u64],
    snapshot: &[u64],
    idx: LogIndex,
) -> Said
    ensures { left result (raw held.new log.now snapshot.now)
        ≡ plainly nothing
        (run (decide idx.0) true (raw held.old log.now snapshot.now)) }
{
    answers::said(in_place::set_decided_idx(held, log, snapshot, idx))
}

// Drops the entries below an index, or all that is log-decided where none is given, and the held snapshot.
#[unsafe(no_mangle)]
pub extern "C" fn kotuseraw_in_place_trim(
    held: &mut IndexRecord,
    log: &mut [u64],
    snapshot: &mut [u64],
    given: bool,
    idx: LogIndex,
) -> Said
    ensures { left result (raw held.new log.new snapshot.new)
        ≡ plainly nothing
        (run (compact Trim (of_flag given idx.0)) true
        (raw held.old log.old snapshot.old)) }
{
    answers::said(in_place::trim(held, log, snapshot, given.then_some(idx)))
}
