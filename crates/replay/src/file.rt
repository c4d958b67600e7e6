// The file that a replay starts from and is saved to.
ghost use Rattle.std.specs.Prelude.{◌≡◌, Result, Ok, Err, IfOk};
ghost use Rattle.state_cache.specs.State.{raw};
ghost use Rattle.replay.specs.File.{Named, Fresh, Stored, Filed, Began, Ended, Quiet, told_saved};

use super::told::Told;
use keep::{LoadError, SaveError};
use state_cache::IndexRecord;
use std::env::FillError;
use std::rt::Env;

// What the program was started with: no file, one whose name has so many bytes, or what can be no file's name.
#[derive(Clone, Copy)]
pub enum Given {
    Nothing,
    File(usize),
    NoName,
}

// The first argument. A name that is empty, or too long for a file that is to be saved, is told before the first line
// and not after the last.
pub(crate) fn argument(rt: HostRuntime, path: &mut [u8]) -> Given
    ensures { Named result path.new }
{
    match rt.arg(1, path) {
        Err(FillError::NotPresent) => Given::Nothing,
        Err(FillError::TooLong) => Given::NoName,
        Ok(0) => Given::NoName,
        Ok(n) => Given::File(n),
    }
}

// A fresh log of batch size 0.
fn fresh(
    log: &mut [u64; entry::LOG_WORDS],
    snapshot: &mut [u64; entry::SNAPSHOT_WORDS],
) -> IndexRecord
    ensures { Fresh (raw result log.new snapshot.new) }
{
    state_cache::fresh(0, log, snapshot).unwrap()
}

// The log that some bytes are the image of, with batch size 0: an image has no batch, nor a size for one.
fn from_image(
    bytes: &[u8],
    log: &mut [u64; entry::LOG_WORDS],
    snapshot: &mut [u64; entry::SNAPSHOT_WORDS],
) -> Result<IndexRecord, Told>
    ensures { IfOk result (λ index. Stored (raw index log.new snapshot.new)) }
{
    match image::read(0, bytes, log, snapshot) {
        Ok((index, _)) => Ok(index),
        Err(refusal) => Err(Told::NoImage(entry::number(refusal), entry::carried(refusal))),
    }
}

// The log that a file holds, or a fresh one where there is no such file. A byte more than the longest image is read,
// and no further: what comes after it changes no verdict.
fn from_file(
    rt: HostRuntime,
    path: &[u8],
    log: &mut [u64; entry::LOG_WORDS],
    snapshot: &mut [u64; entry::SNAPSHOT_WORDS],
) -> Result<IndexRecord, Told>
    ensures { IfOk result (λ index. Filed (raw index log.new snapshot.new)) }
{
    let mut bytes = [0u8; image::ROOM + 1];
    match keep::load(&rt, path, &mut bytes) {
        Ok(n) => from_image(&bytes[..n], log, snapshot),
        Err(LoadError::Missing) => Ok(fresh(log, snapshot)),
        Err(LoadError::Unread) => Err(Told::Unread),
    }
}

// The log before the first line, or what is told where there is none.
pub(crate) fn begin(
    rt: HostRuntime,
    given: Given,
    path: &[u8],
    log: &mut [u64; entry::LOG_WORDS],
    snapshot: &mut [u64; entry::SNAPSHOT_WORDS],
) -> Result<IndexRecord, Told>
    requires { Named given path.now }
    ensures { Began given result log.new snapshot.new }
{
    match given {
        Given::Nothing => Ok(fresh(log, snapshot)),
        Given::File(n) => from_file(rt, &path[..n], log, snapshot),
        Given::NoName => Err(Told::NoName),
    }
}

fn told_saved(saved: Result<(), SaveError>) -> Result<(), Told>
    ensures { result ≡ told_saved saved }
{
    match saved {
        Ok(()) => Ok(()),
        Err(SaveError::NotMade) => Err(Told::NotMade),
        Err(SaveError::NotWritten) => Err(Told::NotWritten),
        Err(SaveError::NotNamed) => Err(Told::NotNamed),
        Err(SaveError::NotSynced) => Err(Told::NotSynced),
    }
}

// Saves the image of a log.
fn to_file(
    rt: HostRuntime,
    path: &[u8],
    index: IndexRecord,
    log: &[u64],
    snapshot: &[u64],
) -> Result<(), Told> {
    let mut bytes = [0u8; image::ROOM];
    match image::write(index, log, snapshot, &mut bytes) {
        Ok(n) => told_saved(keep::save(&rt, path, &bytes[..n])),
        Err(refusal) => Err(Told::NoBytes(entry::number(refusal), entry::carried(refusal))),
    }
}

// Saves the log after the last line, where the program was started with a file.
pub(crate) fn save(
    rt: HostRuntime,
    given: Given,
    path: &[u8],
    index: IndexRecord,
    log: &[u64],
    snapshot: &[u64],
) -> Result<(), Told>
    requires named { Named given path.now }
    requires ended { Ended given (raw index log.now snapshot.now) }
    ensures { Quiet given result }
{
    match given {
        Given::Nothing => Ok(()),
        Given::File(n) => to_file(rt, &path[..n], index, log, snapshot),
        Given::NoName => Ok(()),
    }
}
