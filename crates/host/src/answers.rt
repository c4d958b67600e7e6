// What the replies of the library say in numbers, and what stands beside them.
ghost use Rattle.std.specs.Prelude.{◌≡◌};
ghost use Rattle.entry.specs.Reply.{known_is};
ghost use Rattle.entry.specs.Guards.{refused_by};
ghost use Rattle.state_cache.specs.State.{Raw};
ghost use Rattle.internal_storage.specs.Replies.{flushed_is, maybe_at};
ghost use Rattle.reading.specs.Replies.{marker_said, shown_said, read_said};
ghost use Rattle.host.specs.declared.Said.{Said};
ghost use Rattle.host.specs.Plain.{tells, plain, nothing, a_number, a_flag, maybe_number, a_word, maybe_flushed, a_part};
ghost use Rattle.host.specs.Plain.{diff_told, said_of, reply_of, reply_by};
ghost use Rattle.host.specs.Reads.{marked, none_shown, marked_as, shown_as};
ghost use Rattle.host.specs.Requests.{order_as};

use super::{Reply, Said, ShownSaid};
use diff::Diff;
use entry::{LogIndex, Refusal};
use internal_storage::Flushed;
use reading::{Marker, ShownRun, Span};
use state_cache::IndexRecord;
use std::cmp::Ordering;

pub(crate) fn tell(told: u64, first: u64, second: u64) -> Said
    ensures { result ≡ tells told first second }
{
    Said {
        number: 0,
        carried: 0,
        told,
        first,
        second,
    }
}

pub(crate) fn refuse(r: Refusal) -> Said
    ensures { result ≡ plain nothing (refused_by r) }
{
    Said {
        number: entry::number(r),
        carried: entry::carried(r),
        told: 0,
        first: 0,
        second: 0,
    }
}

// A reply of the library, which tells something in numbers where the call stands.
pub(crate) trait Tells {
    ghost told: { Self → Said };

    fn tell(self) -> Said
        ensures { result ≡ told self };
}

impl Tells for () {
    ghost told = { nothing };

    fn tell(self) -> Said {
        tell(0, 0, 0)
    }
}

impl Tells for LogIndex {
    ghost told = { λ i. a_number i.0 };

    fn tell(self) -> Said {
        tell(1, self.0, 0)
    }
}

// How many keys, or bytes.
impl Tells for usize {
    ghost told = { a_number };

    fn tell(self) -> Said {
        tell(1, self as u64, 0)
    }
}

impl Tells for bool {
    ghost told = { a_flag };

    fn tell(self) -> Said {
        tell(1, u64::from(self), 0)
    }
}

impl Tells for Option<LogIndex> {
    ghost told = { λ o. maybe_number (maybe_at o) };

    fn tell(self) -> Said {
        match self {
            None => tell(0, 0, 0),
            Some(i) => tell(1, i.0, 0),
        }
    }
}

impl Tells for Option<Flushed> {
    ghost told = { λ o. maybe_flushed (flushed_is o) };

    fn tell(self) -> Said {
        match self {
            None => tell(0, 0, 0),
            Some(flushed) => tell(1, flushed.accepted.0, flushed.entries as u64),
        }
    }
}

// What is known of a key: 0, nothing; 1, its place; 2, that it is removed.
impl Tells for Option<entry::Said> {
    ghost told = { λ o. a_word (known_is o) };

    fn tell(self) -> Said {
        match self {
            None => tell(0, 0, 0),
            Some(entry::Said::Place(place)) => tell(1, place.0, 0),
            Some(entry::Said::Removed) => tell(2, 0, 0),
        }
    }
}

// What a diff gave: 1, none; 2, a complete snapshot; 3, a delta. Then its keys, and the index up to which it goes.
impl Tells for Diff {
    ghost told = { diff_told };

    fn tell(self) -> Said {
        match self {
            Diff::Nothing { log_decided } => tell(1, 0, log_decided.0),
            Diff::Complete { keys, log_decided } => tell(2, keys as u64, log_decided.0),
            Diff::Delta { keys, log_decided } => tell(3, keys as u64, log_decided.0),
        }
    }
}

// A part of the lent log: its first entry, and how many.
impl Tells for Span {
    ghost told = { a_part };

    fn tell(self) -> Said {
        tell(1, self.first as u64, self.count as u64)
    }
}

pub(crate) fn said<T: Tells>(answer: Result<T, Refusal>) -> Said
    ensures { result ≡ said_of T.told answer }
{
    match answer {
        Ok(reply) => reply.tell(),
        Err(refusal) => refuse(refusal),
    }
}

// What a call says that was lent a record, and the record after it.
pub(crate) fn reply<T: Tells>(lent: IndexRecord, answer: Result<(IndexRecord, T), Refusal>) -> Reply
    ensures { result ≡ reply_of T.told lent answer }
{
    match answer {
        Ok((index, reply)) => Reply {
            said: reply.tell(),
            index,
        },
        Err(refusal) => Reply {
            said: refuse(refusal),
            index: lent,
        },
    }
}

// The same of a call that has nothing more to say.
pub(crate) fn settled(lent: IndexRecord, answer: Result<IndexRecord, Refusal>) -> Reply
    ensures { result ≡ reply_by lent answer }
{
    match answer {
        Ok(index) => Reply {
            said: tell(0, 0, 0),
            index,
        },
        Err(refusal) => Reply {
            said: refuse(refusal),
            index: lent,
        },
    }
}

pub(crate) fn order_said(o: Ordering) -> u64
    ensures { result ≡ order_as o }
{
    match o {
        Ordering::Less => 0,
        Ordering::Equal => 1,
        Ordering::Greater => 2,
    }
}

// ---- reads

fn show(marker: u64, index: u64, keys: usize, r: ShownRun) -> ShownSaid
    ensures { (x : Raw) → result ≡ marked marker index keys (shown_said x r) }
{
    ShownSaid {
        number: 0,
        carried: 0,
        told: 1,
        marker,
        index,
        keys,
        first: r.first,
        count: r.count,
        decided: r.decided,
        stop: r.stop,
        stop_decided: r.stop_decided,
    }
}

fn show_none(number: u64, carried: u64) -> ShownSaid
    ensures { result ≡ none_shown number carried }
{
    ShownSaid {
        number,
        carried,
        told: 0,
        marker: 0,
        index: 0,
        keys: 0,
        first: 0,
        count: 0,
        decided: 0,
        stop: false,
        stop_decided: false,
    }
}

fn run_said(r: ShownRun) -> ShownSaid
    ensures { (x : Raw) → result ≡ marked_as (marker_said x.snapshot r.marker) (shown_said x r) }
{
    let Some(marker) = r.marker else {
        return show(0, 0, 0, r);
    };
    match marker {
        Marker::Trimmed(i) => show(1, i.0, 0, r),
        Marker::Snapshot { index, keys } => show(2, index.0, keys, r),
    }
}

pub(crate) fn read_said(a: Result<Option<ShownRun>, Refusal>) -> ShownSaid
    ensures { (x : Raw) → result ≡ shown_as (read_said x a) }
{
    match a {
        Ok(None) => show_none(0, 0),
        Ok(Some(run)) => run_said(run),
        Err(refusal) => show_none(entry::number(refusal), entry::carried(refusal)),
    }
}
