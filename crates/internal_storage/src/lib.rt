// The calls of document 01's module 3 on a lent log: appends, the stop-sign, flushes, the promise and the decided
// index. Each contract is one equation with `run`: the reply, the record and every lent word after the call. Names
// are the Rust's.
#![tactic(auto)]

use entry::LogIndex;

mod append;
mod decide;
mod flush;
pub mod inner;
mod stop;

pub use append::{
    append_entries_and_get_accepted_idx, append_entries_with_batching,
    append_entries_without_batching, append_entry_with_batching,
};
pub use decide::{set_decided_idx, set_promise};
pub use flush::{flush_batch, flush_batch_and_get_entries};
pub use stop::{append_stopsign, set_stopsign};

// What was flushed: the accepted index after it, and how many entries; they are the last so many of those retained.
#[derive(Clone, Copy, Debug, PartialEq, Eq)]
pub struct Flushed {
    pub accepted: LogIndex,
    pub entries: usize,
}
