// The text of a replay: what a line of input means, and the lines that are printed.
#![tactic(auto)]

ghost use Rattle.std.specs.Prelude.{◌≡◌};
ghost use Rattle.text.specs.Parse.{bare_of, compact_of, numbered_of, with_one, with_two, parse_of};

use entry::{Compaction, LogIndex};

pub mod inner;

// The most digits of a 64-bit number.
pub const DIGITS: usize = 20;

// The longest line of input that is no bad line: `read`, and two numbers, each after a space.
pub const INPUT_LINE: usize = 4 + 2 * (1 + DIGITS);

// The longest line of output: `undecided` and a space, and two numbers, with a space after the first and a line feed
// after the second.
pub const OUTPUT_LINE: usize = 10 + 2 * (DIGITS + 1);

// A line of input.
#[derive(Clone, Copy, Debug, PartialEq, Eq)]
pub enum Command {
    Batch(u64),
    Put(u64, u64),
    Del(u64),
    Read(u64, u64),
    Flush,
    Decide(u64),
    Compact(Compaction, Option<LogIndex>),
    Stop(u32),
    Find(u64),
    BadLine,
}

// A line of output, but for those of a run's entries.
#[derive(Clone, Copy, Debug, PartialEq, Eq)]
pub enum Line {
    Done,
    Held,
    Nothing,
    BadLine,
    Accepted(u64),
    Refused(u64),
    Run(u64),
    Trimmed(u64),
    Snapshot(u64, u64),
    Stop(u32, bool),
    Place(u64),
    Removed,
    Unknown,
}

// A line of one word.
fn bare(w: &[u8]) -> Command
    ensures { result ≡ bare_of w.now }
{
    if w == b"flush".as_slice() {
        return Command::Flush;
    }
    Command::BadLine
}

// What stands after `snap` or `trim`: `all`, or an index.
fn compact(what: Compaction, a: &[u8]) -> Command
    ensures { result ≡ compact_of what a.now }
{
    if a == b"all".as_slice() {
        return Command::Compact(what, None);
    }
    let Some(n) = inner::number(a) else {
        return Command::BadLine;
    };
    Command::Compact(what, Some(LogIndex(n)))
}

// A word with a number after it.
fn numbered(w: &[u8], n: u64) -> Command
    ensures { result ≡ numbered_of w.now n }
{
    if w == b"batch".as_slice() {
        return Command::Batch(n);
    }
    if w == b"del".as_slice() {
        return Command::Del(n);
    }
    if w == b"decide".as_slice() {
        return Command::Decide(n);
    }
    if w == b"find".as_slice() {
        return Command::Find(n);
    }
    if w == b"stop".as_slice() {
        let Ok(c) = u32::try_from(n) else {
            return Command::BadLine;
        };
        return Command::Stop(c);
    }
    Command::BadLine
}

// A line of two words.
fn one(w: &[u8], a: &[u8]) -> Command
    ensures { result ≡ with_one w.now a.now }
{
    if w == b"snap".as_slice() {
        return compact(Compaction::Snapshot, a);
    }
    if w == b"trim".as_slice() {
        return compact(Compaction::Trim, a);
    }
    let Some(n) = inner::number(a) else {
        return Command::BadLine;
    };
    numbered(w, n)
}

// A line of three words.
fn two(w: &[u8], a: &[u8], b: &[u8]) -> Command
    ensures { result ≡ with_two w.now a.now b.now }
{
    let Some(m) = inner::number(a) else {
        return Command::BadLine;
    };
    let Some(n) = inner::number(b) else {
        return Command::BadLine;
    };
    if w == b"put".as_slice() {
        return Command::Put(m, n);
    }
    if w == b"read".as_slice() {
        return Command::Read(m, n);
    }
    Command::BadLine
}

// What a line means, without its line end.
pub fn parse(s: &[u8]) -> Command
    ensures { result ≡ parse_of s.now }
{
    let e = inner::gap(s, b' ');
    if e == s.len() {
        return bare(s);
    }
    let w = &s[..e];
    let rest = &s[e + 1..];
    let f = inner::gap(rest, b' ');
    if f == rest.len() {
        return one(w, rest);
    }
    let a = &rest[..f];
    let b = &rest[f + 1..];
    if inner::gap(b, b' ') == b.len() {
        return two(w, a, b);
    }
    Command::BadLine
}
