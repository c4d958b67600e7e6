// Operation lists.
ghost use Rattle.std.specs.Prelude.{◌≡◌};
ghost use Rattle.model.specs.Calls.{write};
ghost use Rattle.state_cache.specs.State.{raw};
ghost use Rattle.state_cache.specs.Run.{run};
ghost use Rattle.backend.specs.Ops.{ops_in, lent_of, whole_list, whole_lent};
ghost use Rattle.host.specs.Plain.{nothing, left, plainly};
ghost use Rattle.host.specs.Requests.{list_at, slice_at};

use super::{PlainOps, Reply, answers, asked};
use backend::Lent;
use state_cache::IndexRecord;

// `backend::write_list`: one to eight operations, all of them or none.
#[unsafe(no_mangle)]
pub extern "C" fn kotuseraw_write_list(
    index: IndexRecord,
    log: &mut [u64],
    snapshot: &mut [u64],
    entries: &[u64],
    incoming: &[u64],
    lent: Lent,
    ops: PlainOps,
) -> Reply
    ensures { left result.said (raw result.index log.new snapshot.new)
        ≡ plainly nothing
        (run (write (lent_of lent entries.now incoming.now) (ops_in (list_at ops)))
        (whole_list lent entries.now incoming.now (list_at ops))
        (raw index log.old snapshot.old)) }
{
    let list = asked::list_of(ops);
    answers::settled(
        index,
        backend::write_list(index, log, snapshot, entries, incoming, lent, list),
    )
}

// `backend::write_atomically`, of the same list as a slice.
#[unsafe(no_mangle)]
pub extern "C" fn kotuseraw_write_atomically(
    index: IndexRecord,
    log: &mut [u64],
    snapshot: &mut [u64],
    entries: &[u64],
    incoming: &[u64],
    lent: Lent,
    ops: PlainOps,
) -> Reply
    ensures { left result.said (raw result.index log.new snapshot.new)
        ≡ plainly nothing
        (run (write (lent_of lent entries.now incoming.now) (slice_at ops))
        (whole_lent lent entries.now incoming.now)
        (raw index log.old snapshot.old)) }
{
    let n = asked::counted_in(ops);
    let nine = asked::nine_of(ops);
    answers::settled(
        index,
        walked::inner::write_atomically(index, log, snapshot, entries, incoming, lent, nine, n),
    )
}
