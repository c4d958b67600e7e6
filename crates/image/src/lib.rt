// The stored image of a log: a header, the snapshot's keys, the retained entries and the stop-sign, each a record of
// bytes with its own mark and sum. A batch is not written. Reading judges every record before a word is loaded.
#![tactic(auto)]

ghost use Rattle.std.specs.Prelude.{◌≡◌};
ghost use Rattle.entry.specs.Guards.{first};
ghost use Rattle.snapshot.specs.Calls.{outcome as output};
ghost use Rattle.model.specs.Log.{fresh_log};
ghost use Rattle.state_cache.specs.State.{raw, log_of, index_of};
ghost use Rattle.state_cache.specs.Run.{index_at, changed_at};
ghost use Rattle.image.specs.Calls.{written, write_call, ReadsBack, judged, image_guards, read_call};

use entry::{Ballot, LogIndex, Refusal};
use state_cache::IndexRecord;

mod changes;
mod flags;
mod header;
pub mod inner;
mod stop;
mod walk;

pub const HEAD_MARK: u64 = 0xc748;

pub const KEY_MARK: u64 = 0xc74b;

pub const ENTRY_MARK: u64 = 0xc745;

pub const STOP_MARK: u64 = 0xc753;

const FORMAT: u64 = 1;

// The bytes of a header, of a key's or an entry's record, and of a stop-sign's without its nodes and metadata.
pub const HEAD: usize = 63;

pub const CHANGE: usize = 20;

pub const STOP: usize = 10;

// The bytes of the largest image.
pub const ROOM: usize = HEAD
    + (entry::KEYS + entry::ENTRIES) * CHANGE
    + STOP
    + entry::NODES * 8
    + entry::METADATA;

// What a header says.
#[derive(Clone, Copy)]
pub struct Head {
    pub snapshot: bool,
    pub stop: bool,
    pub metadata: bool,
    pub compacted: u64,
    pub decided: u64,
    pub accepted: u64,
    pub entries: usize,
    pub keys: usize,
    pub promise: Ballot,
    pub round: Ballot,
}

// A record that a header lets one expect behind it; a stop-sign's with metadata or without.
#[derive(Clone, Copy)]
pub enum Want {
    Key,
    Entry,
    Stop(bool),
}

// Writes the image of a log, its batch left out, to the front of `out`. Says how many bytes it has.
pub fn write(
    index: IndexRecord,
    log: &[u64],
    snapshot: &[u64],
    out: &mut [u8],
) -> Result<usize, Refusal>
    ensures out_after { output (written result) out.new
        ≡ write_call (raw index log.now snapshot.now) out.old }
    ensures reads_back { ReadsBack result (log_of (raw index log.now snapshot.now)) out.new }
{
    if !state_cache::well_formed(index, log, snapshot) {
        return Err(Refusal::IllFormed);
    }
    inner::write(index, log, snapshot, out)
}

// Judges some bytes: the mark, the format, the header, and the records behind it one after the other.
pub fn judge(bytes: &[u8]) -> Result<(), Refusal>
    ensures { judged result ≡ first (image_guards bytes.now) }
{
    if bytes.len() < 4 {
        return Err(Refusal::Damaged(0));
    }
    if records::inner::get_big(bytes, 0, 2) != HEAD_MARK {
        return Err(Refusal::Damaged(0));
    }
    if records::inner::get_big(bytes, 2, 2) != FORMAT {
        return Err(Refusal::UnknownFormat);
    }
    if !header::head_sound(bytes) {
        return Err(Refusal::Damaged(0));
    }
    walk::walk(bytes, header::head_at(bytes)).map_err(Refusal::Damaged)
}

// Reads an image into a log of this batch size, over whatever its words held: a reload from bytes, which replies the
// accepted index. Where it is refused no word changes.
pub fn read(
    batch_size: u64,
    bytes: &[u8],
    log: &mut [u64],
    snapshot: &mut [u64],
) -> Result<(IndexRecord, LogIndex), Refusal>
    ensures { changed_at index_at (index_of (fresh_log 0)) result log.new snapshot.new
        ≡ read_call batch_size bytes.now log.old snapshot.old }
{
    let sized = batch_size <= entry::LARGEST_BATCH;
    let roomy = (log.len() == entry::LOG_WORDS) & (snapshot.len() == entry::SNAPSHOT_WORDS);
    if !(sized & roomy) {
        return Err(Refusal::Malformed);
    }
    judge(bytes)?;
    Ok(inner::load(batch_size, bytes, log, snapshot))
}
