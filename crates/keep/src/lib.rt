// A file that is saved whole or not at all, and read back. What a file holds no contract can say; what each function
// says of its arguments it says for all of them.
#![tactic(auto)]

ghost use Rattle.std.specs.Prelude.{◌≡◌, ◌++◌, ℕ, ◌+◌, ◌<◌, ◌≤◌, length, take, get_or, IsErrOf, Some};
ghost use Rattle.words.specs.Words.{IsPrefixLen};
ghost use Rattle.keep.specs.Files.{tail, longest, slash, load_text, Holds};
ghost use Rattle.keep.specs.declared.SaveError.{SaveError};

use std::error::Error;
use std::fs::{OpenFile, OpenOptions, Permissions};
use std::io::{ErrorKind, Read, Write};
use std::os::unix::fs::{OpenOptionsExt, PermissionsExt};
use std::rt::Files;
use std::{fmt, fs, io, str};
use std_io::io::last_error;

// The bytes that the name of the temporary file has after the path's.
const TAIL: usize = 7;

// How many names the tail's digits tell apart.
const NAMES: u32 = 1_000_000;

// The bytes of the longest path that the system takes, C's zero among them.
const PATH_MAX: usize = 4096;

// The longest path at which a file can be saved: after it come the tail and C's zero.
pub const LONGEST: usize = PATH_MAX - 1 - TAIL;

// Why a save fails. But for NotSynced the old file stands then, or none where there was none. A save that does not fail
// leaves the new file, whose bytes and name have reached the device.
#[derive(Clone, Copy, Debug, PartialEq, Eq)]
pub enum SaveError {
    // No temporary file could be made beside it.
    NotMade,
    // The temporary file could not be written whole, or did not reach the device.
    NotWritten,
    // The temporary file could not be given the file's name.
    NotNamed,
    // The new file stands, but its name may not have reached the device: after a crash it may be the old one.
    NotSynced,
}

// Why a load fails: there is no such file, or it cannot be read.
#[derive(Clone, Copy, Debug, PartialEq, Eq)]
pub enum LoadError {
    Missing,
    Unread,
}

impl fmt::Display for LoadError {
    ghost output = { λ e. Some (load_text e) };

    fn fmt<W: fmt::Write>(&self, f: &mut fmt::Formatter<W>) -> fmt::Result {
        match self {
            LoadError::Missing => write!(f, "no such file"),
            LoadError::Unread => write!(f, "the file cannot be read"),
        }
    }
}

impl Error for LoadError {}

// How many bytes of a path name its directory, the slash at their end among them; none where it has no slash.
fn directory(path: &[u8]) -> usize
    ensures within { IsPrefixLen result path.now }
    ensures at { (k : ℕ) → result ≡ k + 1 → get_or path.now k 0 ≡ slash }
    ensures last { (k : ℕ) → result ≤ k → k < length path.now
        → get_or path.now k 0 ≡ slash → ⊥ }
{
    match path.iter().rposition(|&b| b == b'/') {
        Some(i) => i + 1,
        None => 0,
    }
}

// Waits until the names in a directory have reached the device.
fn sync_names(files: &impl Files, dir: &str) -> io::Result<()> {
    fs::open(files, dir)?.sync_all()
}

// Waits until the names in a path's directory have.
fn sync_beside(files: &impl Files, path: &str) -> io::Result<()> {
    let n = directory(path.as_bytes());
    if n == 0 {
        return sync_names(files, ".");
    }
    sync_names(files, &path[..n])
}

// Writes all of the bytes, lets everyone read the file, which a temporary one does not, and waits until both have
// reached the device.
fn fill<F: Write + OpenFile>(file: &mut F, bytes: &[u8]) -> io::Result<()> {
    file.write_all(bytes)?;
    file.set_permissions(Permissions::from_mode(0o644))?;
    file.sync_all()
}

// Fills a new file, and closes it either way: an error that came late is told at the close. A close tells its error to
// nobody, but the system keeps it, as the newest that there was.
fn fill_and_close<F: Write + OpenFile + Drop>(mut file: F, bytes: &[u8]) -> io::Result<()> {
    let filled = fill(&mut file, bytes);
    let before = last_error().raw_os_error();
    drop(file);
    let newest = last_error();
    filled?;
    if newest.raw_os_error() == before {
        Ok(())
    } else {
        Err(newest)
    }
}

// Puts a path and the tail that `number` replaces to the start of name. So the file stands beside the path's, on the
// same device, where a rename is one step.
fn temporary(path: &[u8], name: &mut [u8]) -> usize
    requires { length path.now + length tail ≤ length name.old }
    ensures prefix_len { IsPrefixLen result name.new }
    ensures name_after { take result name.new ≡ path.now ++ tail }
{
    let n = path.len();
    name[..n].copy_from_slice(path);
    name[n..n + TAIL].copy_from_slice(b".XXXXXX");
    n + TAIL
}

// Puts the last digits of i to the end of a temporary file's name, in place of all of the tail but its dot.
fn number(name: &mut [u8], i: u32) {
    let mut rest = i;
    for digit in name.iter_mut().rev().take(TAIL - 1) {
        *digit = b'0' + (rest % 10) as u8;
        rest /= 10;
    }
}

// A new file that only its owner may read and write.
fn create<R: Files>(files: &R, name: &str) -> io::Result<R::File> {
    OpenOptions::new()
        .read(true)
        .write(true)
        .create_new(true)
        .mode(0o600)
        .open(files, name)
}

// Fills a new file beside the path's and gives it the path's name.
fn fill_and_name<R: Files>(
    files: &R,
    path: &str,
    name: &str,
    file: R::File,
    bytes: &[u8],
) -> Result<(), SaveError> {
    fill_and_close(file, bytes).map_err(|_| SaveError::NotWritten)?;
    fs::rename(files, name, path).map_err(|_| SaveError::NotNamed)
}

// Puts a new file in the place of the path's. A new file that is not given the path's name is removed.
fn replace<R: Files>(
    files: &R,
    path: &str,
    name: &str,
    file: R::File,
    bytes: &[u8],
) -> Result<(), SaveError> {
    if let Err(e) = fill_and_name(files, path, name, file, bytes) {
        let _ = fs::remove_file(files, name);
        return Err(e);
    }
    sync_beside(files, path).map_err(|_| SaveError::NotSynced)
}

// Saves bytes at path, by a temporary file of the first of its names that no file has.
fn save_by(files: &impl Files, path: &str, name: &mut [u8], bytes: &[u8]) -> Result<(), SaveError> {
    for i in 0..NAMES {
        number(name, i);
        let new = str::from_utf8(name).map_err(|_| SaveError::NotMade)?;
        match create(files, new) {
            Ok(file) => return replace(files, path, new, file, bytes),
            Err(e) if e.kind() == ErrorKind::AlreadyExists => {}
            Err(_) => return Err(SaveError::NotMade),
        }
    }
    Err(SaveError::NotMade)
}

// Saves bytes at path: whenever the program or the machine stops, the file is the old one or the new one, whole. A path
// is text: by one that is not UTF-8 no file can be made.
pub fn save(files: &impl Files, path: &[u8], bytes: &[u8]) -> Result<(), SaveError>
    ensures { longest < length path.now → IsErrOf result SaveError.NotMade }
{
    if path.len() > LONGEST {
        return Err(SaveError::NotMade);
    }
    let mut space = [0u8; PATH_MAX];
    let n = temporary(path, &mut space);
    let path = str::from_utf8(path).map_err(|_| SaveError::NotMade)?;
    save_by(files, path, &mut space[..n], bytes)
}

// Reads a file from where it stands until buf is full or the file ends.
fn read_on<F: Read>(file: &mut F, buf: &mut [u8]) -> io::Result<usize>
    ensures { Holds result buf.new }
{
    let mut done = 0;
    while done < buf.len() {
        let n = file.read(&mut buf[done..])?;
        if n == 0 {
            break;
        }
        done += n;
    }
    Ok(done)
}

// Reads the file at path to the start of buf: all of it, or as much as buf holds, and returns how many bytes it read. A
// caller for whom a file may be too long lends a byte more than the longest has. By a path that is not UTF-8 no file
// can be read.
pub fn load(files: &impl Files, path: &[u8], buf: &mut [u8]) -> Result<usize, LoadError>
    ensures { Holds result buf.new }
{
    let path = str::from_utf8(path).map_err(|_| LoadError::Unread)?;
    match fs::open(files, path) {
        Ok(mut file) => read_on(&mut file, buf).map_err(|_| LoadError::Unread),
        Err(e) if e.kind() == ErrorKind::NotFound => Err(LoadError::Missing),
        Err(_) => Err(LoadError::Unread),
    }
}
