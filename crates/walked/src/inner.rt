// An operation list as a slice. How many operations there are is for the caller to bound.
ghost use Rattle.std.specs.Prelude.{◌≡◌, map, ◌≤◌, take};
ghost use Rattle.model.specs.Calls.{write};
ghost use Rattle.state_cache.specs.State.{raw};
ghost use Rattle.state_cache.specs.Run.{run, changed};
ghost use Rattle.backend.specs.Ops.{op_of, lent_of, whole_lent};

use backend::{Lent, Op};
use entry::Refusal;
use state_cache::IndexRecord;

// `backend::write_atomically` of the first n of nine operations: an array and a count, since C's struct holds them so.
pub fn write_atomically(
    index: IndexRecord,
    log: &mut [u64],
    snapshot: &mut [u64],
    entries: &[u64],
    incoming: &[u64],
    lent: Lent,
    ops: [Op; 9],
    n: usize,
) -> Result<IndexRecord, Refusal>
    requires { n ≤ 9 }
    ensures { changed index result log.new snapshot.new
        ≡ run (write (lent_of lent entries.now incoming.now) (map op_of (take n ops)))
        (whole_lent lent entries.now incoming.now)
        (raw index log.old snapshot.old) }
{
    backend::write_atomically(index, log, snapshot, entries, incoming, lent, &ops[..n])
}
