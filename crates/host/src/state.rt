// A state as a whole: when it is well formed, a fresh one, one reloaded, and what its numbers say.
ghost use Rattle.std.specs.Prelude.{◌≡◌, true};
ghost use Rattle.model.specs.Numbers.{accepted_of, stop_decided, log_decided};
ghost use Rattle.model.specs.Calls.{reload};
ghost use Rattle.state_cache.specs.State.{raw, formed};
ghost use Rattle.state_cache.specs.Run.{run, of_numbers, fresh_call};
ghost use Rattle.host.specs.Plain.{plain, nothing, a_number, a_flag, left, plainly};

use super::{Reply, Said, answers};
use state_cache::IndexRecord;

// Whether a record and its words are well formed.
#[unsafe(no_mangle)]
pub extern "C" fn kotuseraw_well_formed(index: IndexRecord, log: &[u64], snapshot: &[u64]) -> bool
    ensures { result ≡ formed (raw index log.now snapshot.now) }
{
    state_cache::well_formed(index, log, snapshot)
}

// A fresh log with the batch size asked for: zeros over both slices.
#[unsafe(no_mangle)]
pub extern "C" fn kotuseraw_fresh(batch_size: u64, log: &mut [u64], snapshot: &mut [u64]) -> Reply
    ensures { left result.said (raw result.index log.new snapshot.new)
        ≡ plainly nothing (fresh_call batch_size log.old snapshot.old) }
{
    answers::settled(
        state_cache::inner::fresh_index(0),
        state_cache::fresh(batch_size, log, snapshot),
    )
}

// Reload: the batch is dropped and its words become zero, the rest stays. Tells the accepted index.
#[unsafe(no_mangle)]
pub extern "C" fn kotuseraw_load_cache(
    index: IndexRecord,
    log: &mut [u64],
    snapshot: &[u64],
) -> Reply
    ensures { left result.said (raw result.index log.new snapshot.now)
        ≡ plainly a_number (run reload true (raw index log.old snapshot.now)) }
{
    answers::reply(index, state_cache::load_cache(index, log, snapshot))
}

// The accepted index: the end, plus 1 if a stop-sign is held.
#[unsafe(no_mangle)]
pub extern "C" fn kotuseraw_get_accepted_idx(
    index: IndexRecord,
    log: &[u64],
    snapshot: &[u64],
) -> Said
    ensures { result ≡ plain a_number (of_numbers accepted_of (raw index log.now snapshot.now)) }
{
    answers::said(state_cache::get_accepted_idx(index, log, snapshot))
}

// Log-decided: the decided index, a decided stop-sign not counted.
#[unsafe(no_mangle)]
pub extern "C" fn kotuseraw_get_decided_idx_without_stopsign(
    index: IndexRecord,
    log: &[u64],
    snapshot: &[u64],
) -> Said
    ensures { result ≡ plain a_number (of_numbers log_decided (raw index log.now snapshot.now)) }
{
    answers::said(state_cache::get_decided_idx_without_stopsign(index, log, snapshot))
}

// Whether a stop-sign is held and decided.
#[unsafe(no_mangle)]
pub extern "C" fn kotuseraw_stopsign_is_decided(
    index: IndexRecord,
    log: &[u64],
    snapshot: &[u64],
) -> Said
    ensures { result ≡ plain a_flag (of_numbers stop_decided (raw index log.now snapshot.now)) }
{
    answers::said(state_cache::stopsign_is_decided(index, log, snapshot))
}
