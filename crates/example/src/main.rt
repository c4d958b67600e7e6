// The library from a program: the entries of two logs are folded, the folds are merged, and keys are looked up; then
// a log takes an entry, which is decided and looked up, alone and with another key in one call.
#![tactic(auto)]

use entry::{BlockPlace, LogIndex, Refusal, Said};
use state_cache::IndexRecord;
use std::io;
use std::ops::Bound;

type LogWords = [u64; entry::LOG_WORDS];

type SnapshotWords = [u64; entry::SNAPSHOT_WORDS];

// Why the program stops: a call is refused, or a line cannot be written.
#[derive(Drop)]
enum Fault {
    Refused(Refusal),
    Unwritten(io::Error),
}

impl From<Refusal> for Fault {
    fn from(refusal: Refusal) -> Fault {
        Fault::Refused(refusal)
    }
}

impl From<io::Error> for Fault {
    fn from(error: io::Error) -> Fault {
        Fault::Unwritten(error)
    }
}

fn place(p: u64) -> Said {
    Said::Place(BlockPlace(p))
}

// A fresh log, whatever its words held, with these changes. At batch size 0 none of them waits.
fn started(
    log: &mut LogWords,
    held: &mut SnapshotWords,
    changes: &[(u64, Said)],
) -> Result<IndexRecord, Refusal> {
    let mut index = state_cache::fresh(0, log, held)?;
    for &(key, said) in changes {
        let (next, _) = internal_storage::append_entry_with_batching(index, log, held, key, said)?;
        index = next;
    }
    Ok(index)
}

// The entries of a log, as a read shows them, folded to a snapshot. Says how many keys it has.
fn folded(
    index: IndexRecord,
    log: &LogWords,
    held: &SnapshotWords,
    out: &mut SnapshotWords,
) -> Result<usize, Refusal> {
    let run = reading::read_reply(index, log, held, Bound::Unbounded, Bound::Unbounded)?;
    let entries = reading::entries_shown(log, Ok(run));
    snapshot::fold(entries, out)
}

fn print_known(rt: &impl Print, known: Option<Said>) -> io::Result<()> {
    match known {
        Some(Said::Place(place)) => println!(rt; "place {}", place.0),
        Some(Said::Removed) => println!(rt; "removed"),
        None => println!(rt; "unknown"),
    }
}

fn print_refused(rt: &impl Print, refusal: Refusal) -> io::Result<()> {
    println!(rt; "refused {}", entry::number(refusal))
}

// Two logs, one after the other: of each the fold, and then the two folds in one.
fn folds(rt: &impl Print, log: &mut LogWords, held: &mut SnapshotWords) -> Result<(), Fault> {
    let mut a = [0u64; entry::SNAPSHOT_WORDS];
    let mut b = [0u64; entry::SNAPSHOT_WORDS];
    let mut both = [0u64; entry::SNAPSHOT_WORDS];
    let index = started(
        log,
        held,
        &[(9, place(100)), (4, place(200)), (9, Said::Removed)],
    )?;
    let first = folded(index, log, held, &mut a)?;
    println!(rt; "keys {first}")?;
    let index = started(log, held, &[(4, place(300)), (7, place(700))])?;
    let second = folded(index, log, held, &mut b)?;
    println!(rt; "keys {second}")?;
    let merged = snapshot::merge(&a, first, &b, second, &mut both)?;
    println!(rt; "keys {merged}")?;
    for key in [4, 7, 9] {
        print_known(rt, snapshot::find(&both, merged, key)?)?;
    }
    // A refusal is a value: no snapshot has more keys than it has room for.
    if let Err(refusal) = snapshot::find(&both, entry::KEYS + 1, 4) {
        print_refused(rt, refusal)?;
    }
    Ok(())
}

// An entry is found once it is decided.
fn lookups(rt: &impl Print, log: &mut LogWords, held: &mut SnapshotWords) -> Result<(), Fault> {
    let index = started(log, held, &[(9, place(100))])?;
    print_known(rt, reading::lookup(index, log, held, 9)?)?;
    let index = internal_storage::set_decided_idx(index, log, held, LogIndex(1))?;
    print_known(rt, reading::lookup(index, log, held, 9)?)?;
    // Two keys in one call.
    let mut replies = [0u64; 2 * entry::REPLY_WIDTH];
    reading::lookup_many(index, log, held, &[4, 9], &mut replies)?;
    for i in 0..2 {
        print_known(rt, entry::reply_at(&replies, i))?;
    }
    Ok(())
}

fn run(rt: &impl Print) -> Result<(), Fault> {
    let mut log = [0u64; entry::LOG_WORDS];
    let mut held = [0u64; entry::SNAPSHOT_WORDS];
    folds(rt, &mut log, &mut held)?;
    lookups(rt, &mut log, &mut held)
}

fn main(rt: HostRuntime) -> io::Result<()> {
    match run(&rt) {
        Ok(()) => Ok(()),
        Err(Fault::Refused(refusal)) => print_refused(&rt, refusal),
        Err(Fault::Unwritten(error)) => Err(error),
    }
}
