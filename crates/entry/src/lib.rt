// Entries, replies on their keys, ballots, stop-signs and refusals: module 1 of document 01, and its table of refusals.
#![tactic(auto)]

ghost use Rattle.std.specs.Prelude.{◌≡◌};
ghost use Rattle.entry.specs.Change.{word_formed, slice_formed};
ghost use Rattle.entry.specs.Reply.{known_is, reply_at};
ghost use Rattle.entry.specs.Sign.{sign_formed};
ghost use Rattle.entry.specs.Order.{ballot_order};
ghost use Rattle.entry.specs.Refusals.{number_of, carried_of};

use std::cmp::Ordering;

pub mod inner;

// Words an entry: its key, then its place or REMOVED.
pub const WIDTH: usize = 2;

// Entries that a log holds, and the words of its slice.
pub const ENTRIES: usize = 1024;

pub const LOG_WORDS: usize = ENTRIES * WIDTH;

// Keys that a snapshot holds, and the words of its slice.
pub const KEYS: usize = 512;

pub const SNAPSHOT_WORDS: usize = KEYS * WIDTH;

pub const LAST_INDEX: u64 = 4_294_967_295;

pub const LARGEST_BATCH: u64 = 64;

// Nodes and bytes of metadata that a stop-sign holds.
pub const NODES: usize = 7;

pub const METADATA: usize = 32;

// Keys that one lookup may ask for, and the words of each reply.
pub const MOST_ASKED: usize = 64;

pub const REPLY_WIDTH: usize = 1;

pub const PLACES: u64 = 0x1_0000_0000_0000;

pub const REMOVED: u64 = 0xffff_ffff_ffff_ffff;

pub const UNKNOWN: u64 = 0xffff_ffff_ffff_fffe;

// The number of a change in the log.
#[repr(C)]
#[derive(Clone, Copy, Debug, PartialEq, Eq, PartialOrd, Ord)]
pub struct LogIndex(pub u64);

// The number of a block on disk.
#[repr(C)]
#[derive(Clone, Copy, Debug, PartialEq, Eq)]
pub struct BlockPlace(pub u64);

// What an entry says of its key: a block place, or that it is removed. It is no `Option`: `None` is a key of which no
// entry says anything.
#[derive(Clone, Copy, Debug, PartialEq, Eq)]
pub enum Said {
    Place(BlockPlace),
    Removed,
}

// What a compaction does with the entries that leave the log: a trim drops them, and the held snapshot, which then
// lacks them; a snapshot folds them onto it.
#[derive(Clone, Copy, Debug, PartialEq, Eq)]
pub enum Compaction {
    Trim,
    Snapshot,
}

// Two ballots may be equal in order and differ in their configuration, so the order is a method and no `Ord`.
#[repr(C)]
#[derive(Clone, Copy, Debug, PartialEq, Eq)]
pub struct Ballot {
    pub config_id: u32,
    pub n: u32,
    pub priority: u32,
    pub pid: u64,
}

impl Ballot {
    pub fn with(config_id: u32, n: u32, priority: u32, pid: u64) -> Ballot
        ensures { result ≡ record { config_id = config_id; n = n; priority = priority; pid = pid } }
    {
        Ballot {
            config_id,
            n,
            priority,
            pid,
        }
    }

    // n, then priority, then pid.
    pub fn cmp(self, other: Ballot) -> Ordering
        ensures { result ≡ ballot_order self other }
    {
        self.n
            .cmp(&other.n)
            .then(self.priority.cmp(&other.priority))
            .then(self.pid.cmp(&other.pid))
    }
}

// The next configuration: up to seven nodes and up to 32 bytes of metadata, or none. Unused elements are zero.
#[repr(C)]
#[derive(Clone, Copy, Debug, PartialEq, Eq)]
pub struct StopSign {
    pub config_id: u32,
    pub node_count: usize,
    pub nodes: [u64; NODES],
    pub metadata_held: bool,
    pub metadata_len: usize,
    pub metadata: [u8; METADATA],
}

// The refusals of document 01, in its order, and of document 02; each holds the number that it carries.
#[derive(Clone, Copy, Debug, PartialEq, Eq)]
pub enum Refusal {
    NoRoom,
    AboveDecided(LogIndex),
    BelowCompacted(LogIndex),
    Stopped(LogIndex),
    BelowDecided(LogIndex),
    AboveAccepted(LogIndex),
    OutsideRun(LogIndex),
    TooManyKeys,
    PastLastIndex(LogIndex),
    BatchHeld(usize),
    Malformed,
    IllFormed,
    OutputShort,
    UnknownFormat,
    Damaged(usize),
    Hole,
    OutgoingShort,
    AtLargest,
    RepliesFull,
}

// A refusal's number.
pub fn number(r: Refusal) -> u64
    ensures { result ≡ number_of r }
{
    match r {
        Refusal::NoRoom => 1,
        Refusal::AboveDecided(_) => 2,
        Refusal::BelowCompacted(_) => 3,
        Refusal::Stopped(_) => 4,
        Refusal::BelowDecided(_) => 5,
        Refusal::AboveAccepted(_) => 6,
        Refusal::OutsideRun(_) => 7,
        Refusal::TooManyKeys => 8,
        Refusal::PastLastIndex(_) => 9,
        Refusal::BatchHeld(_) => 10,
        Refusal::Malformed => 11,
        Refusal::IllFormed => 12,
        Refusal::OutputShort => 13,
        Refusal::UnknownFormat => 14,
        Refusal::Damaged(_) => 15,
        Refusal::Hole => 16,
        Refusal::OutgoingShort => 18,
        Refusal::AtLargest => 19,
        Refusal::RepliesFull => 20,
    }
}

// The number that a refusal carries.
pub fn carried(r: Refusal) -> u64
    ensures { result ≡ carried_of r }
{
    match r {
        Refusal::AboveDecided(i)
        | Refusal::BelowCompacted(i)
        | Refusal::Stopped(i)
        | Refusal::BelowDecided(i)
        | Refusal::AboveAccepted(i)
        | Refusal::OutsideRun(i)
        | Refusal::PastLastIndex(i) => i.0,
        Refusal::BatchHeld(n) | Refusal::Damaged(n) => n as u64,
        _ => 0,
    }
}

// Whether an entry's second word is in form: a place below 2^48, or removed.
pub fn place_formed(w: u64) -> bool
    ensures { result ≡ word_formed w }
{
    (w == REMOVED) | (w < PLACES)
}

// Whether an entry slice is in form: no odd word, and every entry in form.
pub fn entries_formed(s: &[u64]) -> bool
    ensures { result ≡ slice_formed s.now }
{
    let words = s.len();
    let whole = words % WIDTH == 0;
    let fine = inner::places_formed(s, words / WIDTH);
    whole & fine
}

// The i-th of the replies that some words are; unknown where there are not so many.
pub fn reply_at(replies: &[u64], i: usize) -> Option<Said>
    ensures { known_is result ≡ reply_at replies.now i }
{
    if replies.len() / REPLY_WIDTH <= i {
        return None;
    }
    let word = replies[i * REPLY_WIDTH];
    if word == UNKNOWN {
        return None;
    }
    Some(inner::said_of(word))
}

// Whether a stop-sign is in form: at least one node, and a length only where metadata is held.
pub fn sign_formed(s: StopSign) -> bool
    ensures { result ≡ sign_formed s }
{
    let nodes = s.nodes;
    let bytes = s.metadata;
    let count = s.node_count;
    let used = s.metadata_len;
    let nodes_end = words::zero_from(&nodes, count);
    let bytes_end = inner::zero_bytes_from(&bytes, used);
    (1 <= count)
        & ((count <= NODES)
            & ((used <= METADATA) & ((s.metadata_held | (used == 0)) & (nodes_end & bytes_end))))
}
