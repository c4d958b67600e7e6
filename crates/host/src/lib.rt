// What a Rust or a C program links: every call of the library as an `extern "C"` function. Records and requests go in
// and come back by value, slices are lent as a pointer and a length, and each answer is one struct of numbers. A
// contract is the library's, with the same right side: what document 01's model says, read by `plainly`. docs/HOST.md
// is the reference.
#![tactic(auto)]

use ballot_leader_election::{BallotLeaderElection, Outgoing, Replies};
use entry::{Ballot, LogIndex, StopSign};
use state_cache::IndexRecord;

mod answers;
mod asked;
pub mod elections;
pub mod forms;
pub mod images;
pub mod inner;
pub mod lists;
pub mod log;
pub mod showing;
pub mod snapshots;
pub mod standing;
pub mod state;

// Number 0: the call stands, and where `told` is not 0 `first` and `second` are what it tells. Any other: the
// refusal, and what it carries.
#[repr(C)]
#[derive(Clone, Copy)]
pub struct Said {
    pub number: u64,
    pub carried: u64,
    pub told: u64,
    pub first: u64,
    pub second: u64,
}

// What a call says, and the record after it.
#[repr(C)]
#[derive(Clone, Copy)]
pub struct Reply {
    pub said: Said,
    pub index: IndexRecord,
}

// What a read says: where `told` is 1, the marker (0: none; 1: trimmed; 2: a snapshot), the part of the lent log, and
// the stop-sign.
#[repr(C)]
#[derive(Clone, Copy)]
pub struct ShownSaid {
    pub number: u64,
    pub carried: u64,
    pub told: u64,
    pub marker: u64,
    pub index: u64,
    pub keys: usize,
    pub first: usize,
    pub count: usize,
    pub decided: usize,
    pub stop: bool,
    pub stop_decided: bool,
}

// One end of a range, kind 0: included; 1: excluded; 2: none.
#[repr(C)]
#[derive(Clone, Copy)]
pub struct PlainBound {
    pub kind: u64,
    pub index: LogIndex,
}

// An operation: its kind is the place in `backend::OpKind`, from 0.
#[repr(C)]
#[derive(Clone, Copy)]
pub struct PlainOp {
    pub kind: u64,
    pub index: LogIndex,
    pub ballot: Ballot,
    pub given: bool,
}

// Up to eight, the bytes of an array of them.
#[repr(C)]
#[derive(Clone, Copy)]
pub struct PlainOps {
    pub count: usize,
    pub a: PlainOp,
    pub b: PlainOp,
    pub c: PlainOp,
    pub d: PlainOp,
    pub e: PlainOp,
    pub f: PlainOp,
    pub g: PlainOp,
    pub h: PlainOp,
}

// A sync's log part: its kind is the place in `sync::SnapshotType`, from 0.
#[repr(C)]
#[derive(Clone, Copy)]
pub struct PlainSync {
    pub sync_idx: LogIndex,
    pub kind: u64,
    pub keys: usize,
    pub stop_held: bool,
    pub stopsign: StopSign,
}

// What a call of the election says, and the node's state after it.
#[repr(C)]
#[derive(Clone, Copy)]
pub struct ElectionReply {
    pub said: Said,
    pub election: BallotLeaderElection,
}

// The same with the messages that it hands out; none where it is refused.
#[repr(C)]
#[derive(Clone, Copy)]
pub struct ElectionTaken {
    pub said: Said,
    pub outgoing: Outgoing,
    pub election: BallotLeaderElection,
}

// What a call says that hands out a ballot, zeros where it is refused; or replies, none where it is refused.
#[repr(C)]
#[derive(Clone, Copy)]
pub struct ElectionBallot {
    pub said: Said,
    pub ballot: Ballot,
}

#[repr(C)]
#[derive(Clone, Copy)]
pub struct ElectionBallots {
    pub said: Said,
    pub replies: Replies,
}
