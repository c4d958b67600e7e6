// Module 4 of document 01: the operation list. The contract is one equation with `run`: the reply, the record and
// every lent word after the call. Names are the Rust's.
#![tactic(auto)]

ghost use Rattle.std.specs.Prelude.{◌≡◌, map};
ghost use Rattle.model.specs.Calls.{write};
ghost use Rattle.state_cache.specs.State.{raw};
ghost use Rattle.state_cache.specs.Run.{run, changed};
ghost use Rattle.backend.specs.Ops.{op_of, ops_in, lent_of, whole_lent, whole_list};

use entry::{Ballot, LogIndex, Refusal, StopSign};
use state_cache::IndexRecord;

pub mod inner;

// Operations of a list at most, and the count of one that had more.
pub const OPERATIONS: usize = 8;

pub const TOO_MANY: usize = OPERATIONS + 1;

// The Rust's `StorageOp` but `AppendEntry`.
#[derive(Clone, Copy, Debug, PartialEq, Eq)]
pub enum OpKind {
    AppendEntries,
    AppendOnPrefix,
    SetPromise,
    SetDecidedIndex,
    SetAcceptedRound,
    SetCompactedIdx,
    Trim,
    SetStopsign,
    SetSnapshot,
}

// An operation: one small struct of every kind, by document 01; fields that its kind does not use are not looked at.
// `given` says whether the last two kinds set what is lent, or none.
#[derive(Clone, Copy, Debug, PartialEq, Eq)]
pub struct Op {
    pub kind: OpKind,
    pub index: LogIndex,
    pub ballot: Ballot,
    pub given: bool,
}

// Operations by value, as C's struct holds them: an array and a count. One above OPERATIONS says that there were more.
#[derive(Clone, Copy, Debug, PartialEq, Eq)]
pub struct OpList {
    pub count: usize,
    pub ops: [Op; OPERATIONS],
}

// What is lent beside the operations and the entries: a snapshot, with its number of keys, and a stop-sign, or none. A
// flag and a value, since C passes it as it is.
#[repr(C)]
#[derive(Clone, Copy, Debug, PartialEq, Eq)]
pub struct Lent {
    pub snapshot_lent: bool,
    pub keys: usize,
    pub stop_lent: bool,
    pub stop: StopSign,
}

// All operations of a list or none, in their order: the entries, the snapshot and the stop-sign are lent once, and
// each operation that needs one takes it whole.
pub fn write_list(
    index: IndexRecord,
    log: &mut [u64],
    snapshot: &mut [u64],
    entries: &[u64],
    incoming: &[u64],
    lent: Lent,
    list: OpList,
) -> Result<IndexRecord, Refusal>
    ensures { changed index result log.new snapshot.new
        ≡ run (write (lent_of lent entries.now incoming.now) (ops_in list))
        (whole_list lent entries.now incoming.now list)
        (raw index log.old snapshot.old) }
{
    if !state_cache::well_formed(index, log, snapshot) {
        return Err(Refusal::IllFormed);
    }
    if !inner::request::request_formed(entries, incoming, lent, list) {
        return Err(Refusal::Malformed);
    }
    inner::list::write_at(index, log, snapshot, entries, incoming, lent, list)
}

// The same with the operations as a lent slice: they are gathered into a list.
pub fn write_atomically(
    index: IndexRecord,
    log: &mut [u64],
    snapshot: &mut [u64],
    entries: &[u64],
    incoming: &[u64],
    lent: Lent,
    ops: &[Op],
) -> Result<IndexRecord, Refusal>
    ensures { changed index result log.new snapshot.new
        ≡ run (write (lent_of lent entries.now incoming.now) (map op_of ops.now))
        (whole_lent lent entries.now incoming.now)
        (raw index log.old snapshot.old) }
{
    let list = inner::gather::gather(ops);
    write_list(index, log, snapshot, entries, incoming, lent, list)
}
