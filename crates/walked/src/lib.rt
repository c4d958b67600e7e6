// The two calls that take or give references to structs, as functions on plain slices and values that the boundary can
// export: what a read shows, and an operation list as a slice.
#![tactic(auto)]

ghost use Rattle.std.specs.Prelude.{◌≡◌, true};
ghost use Rattle.model.specs.Calls.{query, read};
ghost use Rattle.state_cache.specs.State.{raw};
ghost use Rattle.state_cache.specs.Run.{run};
ghost use Rattle.reading.specs.Replies.{bound_of, part_shown, part_shown_at};

use entry::LogIndex;
use state_cache::IndexRecord;
use std::ops::Bound;

pub mod inner;

// The entries of `reading::read`.
pub fn read_entries<'a>(
    index: IndexRecord,
    log: &'a [u64],
    snapshot: &[u64],
    from: Bound<LogIndex>,
    to: Bound<LogIndex>,
) -> &'a [u64]
    ensures { (result.now
        ≡ part_shown (run (query (read (bound_of from) (bound_of to))) true
        (raw index log.now snapshot.now)).answer log.now)
        × (result.ref_ptr
        ≡ part_shown_at (run (query (read (bound_of from) (bound_of to))) true
        (raw index log.now snapshot.now)).answer log.now log.entry.ref_ptr) }
{
    reading::read(index, log, snapshot, from, to).entries
}
