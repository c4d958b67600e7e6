// Requests, from numbers. A kind that there is not makes a request that is malformed: 11, after 12.
ghost use Rattle.std.specs.Prelude.{◌≡◌, ◌≤◌, ltb, if◌then◌else◌};
ghost use Rattle.entry.specs.Limits.{last_word};
ghost use Rattle.entry.specs.Change.{said_is};
ghost use Rattle.model.specs.Read.{included, excluded};
ghost use Rattle.reading.specs.Replies.{bound_of};
ghost use Rattle.host.specs.Requests.{lent_said, what_of, end_at, kind_at, op_at, known_at, known_all, list_at};
ghost use Rattle.host.specs.Requests.{count_at, nine_at, type_at, keys_at, sync_at};

use super::{PlainBound, PlainOp, PlainOps, PlainSync};
use backend::{Op, OpKind, OpList};
use entry::{BlockPlace, Compaction, LogIndex, Said as EntrySaid};
use std::ops::Bound;
use sync::{LogSync, SnapshotType};

pub(crate) fn entry_said(removed: bool, place: BlockPlace) -> EntrySaid
    ensures { said_is result ≡ lent_said removed place.0 }
{
    if removed {
        return EntrySaid::Removed;
    }
    EntrySaid::Place(place)
}

pub(crate) fn what(folds: bool) -> Compaction
    ensures { result ≡ what_of folds }
{
    if folds {
        return Compaction::Snapshot;
    }
    Compaction::Trim
}

// One end of a range; `past` for a kind that there is not.
fn end_of(b: PlainBound, past: Bound<LogIndex>) -> Bound<LogIndex>
    ensures { bound_of result ≡ end_at (bound_of past) b }
{
    match b.kind {
        0 => Bound::Included(b.index),
        1 => Bound::Excluded(b.index),
        2 => Bound::Unbounded,
        _ => past,
    }
}

pub(crate) fn start_of(b: PlainBound) -> Bound<LogIndex>
    ensures { bound_of result ≡ end_at (excluded last_word) b }
{
    end_of(b, Bound::Excluded(LogIndex(u64::MAX)))
}

pub(crate) fn stop_of(b: PlainBound) -> Bound<LogIndex>
    ensures { bound_of result ≡ end_at (included last_word) b }
{
    end_of(b, Bound::Included(LogIndex(u64::MAX)))
}

// ---- operations

fn kind_of(n: u64) -> OpKind
    ensures { result ≡ kind_at n }
{
    match n {
        0 => OpKind::AppendEntries,
        1 => OpKind::AppendOnPrefix,
        2 => OpKind::SetPromise,
        3 => OpKind::SetDecidedIndex,
        4 => OpKind::SetAcceptedRound,
        5 => OpKind::SetCompactedIdx,
        6 => OpKind::Trim,
        7 => OpKind::SetStopsign,
        _ => OpKind::SetSnapshot,
    }
}

pub(crate) fn op_of(o: PlainOp) -> Op
    ensures { result ≡ op_at o }
{
    Op {
        kind: kind_of(o.kind),
        index: o.index,
        ballot: o.ballot,
        given: o.given,
    }
}

// Whether an operation has a kind, or does not count.
fn known(used: usize, at: usize, o: PlainOp) -> bool
    ensures { result ≡ known_at used at o }
{
    (used <= at) | (o.kind < 9)
}

fn known_all(l: PlainOps) -> bool
    ensures { result ≡ known_all l }
{
    let n = l.count;
    known(n, 0, l.a)
        & (known(n, 1, l.b)
            & (known(n, 2, l.c)
                & (known(n, 3, l.d)
                    & (known(n, 4, l.e)
                        & (known(n, 5, l.f) & (known(n, 6, l.g) & known(n, 7, l.h)))))))
}

fn counted(all: bool, n: usize) -> usize
    ensures { result ≡ (if all then n else 9) }
{
    if all { n } else { 9 }
}

// An unknown kind counts as a ninth operation: the list is malformed.
pub(crate) fn list_of(l: PlainOps) -> OpList
    ensures { result ≡ list_at l }
{
    OpList {
        count: counted(known_all(l), l.count),
        ops: [l.a, l.b, l.c, l.d, l.e, l.f, l.g, l.h].map(op_of),
    }
}

fn at_most_nine(n: usize) -> usize
    ensures { (result ≡ (if ltb n 9 then n else 9)) × (result ≤ 9) }
{
    n.min(9)
}

// How many operations a slice has of them: nine stand for more, which are as malformed.
pub(crate) fn counted_in(l: PlainOps) -> usize
    ensures { (result ≡ count_at l) × (result ≤ 9) }
{
    let all = known_all(l);
    at_most_nine(counted(all, l.count))
}

pub(crate) fn nine_of(l: PlainOps) -> [Op; 9]
    ensures { result ≡ nine_at l }
{
    [
        op_of(l.a),
        op_of(l.b),
        op_of(l.c),
        op_of(l.d),
        op_of(l.e),
        op_of(l.f),
        op_of(l.g),
        op_of(l.h),
        op_of(l.h),
    ]
}

// ---- a sync's log part

#[tactic(auto, unfolding(crate::specs::Requests::type_at))]
fn type_of(kind: u64) -> Option<SnapshotType>
    ensures { result ≡ type_at kind }
{
    match kind {
        0 => None,
        2 => Some(SnapshotType::Delta),
        _ => Some(SnapshotType::Complete),
    }
}

// An unknown kind counts as a snapshot of more keys than there can be: the log part is malformed.
fn keys_of(kind: u64, keys: usize) -> usize
    ensures { result ≡ keys_at kind keys }
{
    if kind < 3 { keys } else { usize::MAX }
}

pub(crate) fn sync_of(s: PlainSync) -> LogSync
    ensures { result ≡ sync_at s }
{
    LogSync {
        sync_idx: s.sync_idx,
        decided_snapshot: type_of(s.kind),
        keys: keys_of(s.kind, s.keys),
        stopsign: s.stop_held.then_some(s.stopsign),
    }
}
