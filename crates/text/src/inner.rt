// What the program needs to take lines apart and to gather its answers: not for a user. Each function that puts bytes
// puts them into out from index `at` on, for which it asks room, and answers the index after them.
ghost use Rattle.std.specs.Prelude.{◌≡◌, ◌++◌, ◌+◌, ◌*◌, ◌≤◌, length, take, position, ◌==◌, IfOk};
ghost use Rattle.entry.specs.Limits.{width};
ghost use Rattle.entry.specs.Change.{said_is, entries_of};
ghost use Rattle.words.specs.Words.{IsPrefixLen};
ghost use Rattle.text.specs.Bytes.{bytes, gap_of};
ghost use Rattle.text.specs.Refusing.{why_room, refused_room, why_text, refused_text};
ghost use Rattle.text.specs.Rooms.{most_digits, output_line};
ghost use Rattle.text.specs.Feeding.{come, joined, next_at};
ghost use Rattle.text.specs.Number.{numeral_of};
ghost use Rattle.text.specs.Answers.{decimal_of, line_of, entry_text, entry_line, entry_lines};
ghost use Rattle.text.specs.declared.Line.TheVariants.{Stop};

use super::Line;
use entry::Said;
use std::io;
use std::io::Stdout;

fn first(s: &[u8], b: u8) -> Option<usize>
    ensures { result ≡ position (λ x. x == b) s.now }
{
    s.iter().position(|&x| x == b)
}

// How many bytes stand before the first b.
pub fn gap(s: &[u8], b: u8) -> usize
    ensures prefix_len { IsPrefixLen result s.now }
    ensures value { result ≡ gap_of b s.now }
{
    first(s, b).unwrap_or(s.len())
}

// The number that s spells in decimal, without leading zeros and below 2^64.
pub fn number(s: &[u8]) -> Option<u64>
    ensures { result ≡ numeral_of s.now }
{
    if s.is_empty() {
        return None;
    }
    if s.len() > 1 && s[0] == b'0' {
        return None;
    }
    let mut n: u64 = 0;
    for &b in s {
        if !b.is_ascii_digit() {
            return None;
        }
        n = n.checked_mul(10)?.checked_add(u64::from(b - b'0'))?;
    }
    Some(n)
}

// The bytes of src.
pub fn put(out: &mut [u8], at: usize, src: &[u8]) -> usize
    requires { at + length src.now ≤ length out.old }
    ensures value { result ≡ at + length src.now }
    ensures out_after { take result out.new ≡ take at out.old ++ src.now }
{
    let end = at + src.len();
    out[at..end].copy_from_slice(src);
    end
}

// n in decimal: the digits of its tenth, and its last digit.
fn put_digits(out: &mut [u8], at: usize, n: u64) -> usize
    requires { at + length (decimal_of n) ≤ length out.old }
    ensures value { result ≡ at + length (decimal_of n) }
    ensures out_after { take result out.new ≡ take at out.old ++ decimal_of n }
{
    let mut last = at;
    if n >= 10 {
        last = put_digits(out, at, n / 10);
    }
    out[last] = b'0' + (n % 10) as u8;
    last + 1
}

// n in decimal.
pub fn put_number(out: &mut [u8], at: usize, n: u64) -> usize
    requires { at + most_digits ≤ length out.old }
    ensures upper_bound { result ≤ at + most_digits }
    ensures out_after { take result out.new ≡ take at out.old ++ decimal_of n }
{
    put_digits(out, at, n)
}

// label, n in decimal and tail.
fn put_one(out: &mut [u8], at: usize, label: &[u8], n: u64, tail: &[u8]) -> usize
    requires { at + length label.now + most_digits + length tail.now ≤ length out.old }
    ensures upper_bound { result ≤ at + length label.now + most_digits + length tail.now }
    ensures out_after { take result out.new
        ≡ take at out.old ++ (label.now ++ decimal_of n ++ tail.now) }
{
    let a = put(out, at, label);
    let b = put_number(out, a, n);
    put(out, b, tail)
}

// label, n and a line end.
fn put_count(out: &mut [u8], at: usize, label: &[u8], n: u64) -> usize
    requires { at + length label.now + (most_digits + 1) ≤ length out.old }
    ensures upper_bound { result ≤ at + length label.now + (most_digits + 1) }
    ensures out_after { take result out.new
        ≡ take at out.old ++ (label.now ++ decimal_of n ++ bytes "\n") }
{
    put_one(out, at, label, n, b"\n")
}

// label, m, a space, n and a line end.
fn put_two(out: &mut [u8], at: usize, label: &[u8], m: u64, n: u64) -> usize
    requires { at + length label.now + 2 * (most_digits + 1) ≤ length out.old }
    ensures upper_bound { result ≤ at + length label.now + 2 * (most_digits + 1) }
    ensures out_after { take result out.new
        ≡ take at out.old ++
        (label.now ++ decimal_of m ++ bytes " " ++ decimal_of n ++ bytes "\n") }
{
    let a = put_one(out, at, label, m, b" ");
    put_count(out, a, b"", n)
}

// A stop-sign's line.
fn put_stop(out: &mut [u8], at: usize, c: u32, decided: bool) -> usize
    requires { at + output_line ≤ length out.old }
    ensures upper_bound { result ≤ at + output_line }
    ensures out_after { take result out.new ≡ take at out.old ++ line_of (Stop c decided) }
{
    if decided {
        return put_one(out, at, b"stop ", c as u64, b" yes\n");
    }
    put_one(out, at, b"stop ", c as u64, b" no\n")
}

// A line.
pub fn put_line(out: &mut [u8], at: usize, line: Line) -> usize
    requires { at + output_line ≤ length out.old }
    ensures upper_bound { result ≤ at + output_line }
    ensures out_after { take result out.new ≡ take at out.old ++ line_of line }
{
    match line {
        Line::Done => put(out, at, b"ok\n"),
        Line::Held => put(out, at, b"held\n"),
        Line::Nothing => put(out, at, b"none\n"),
        Line::BadLine => put(out, at, b"bad line\n"),
        Line::Accepted(n) => put_count(out, at, b"accepted ", n),
        Line::Refused(n) => put_count(out, at, b"refused ", n),
        Line::Run(n) => put_count(out, at, b"run ", n),
        Line::Trimmed(i) => put_count(out, at, b"trimmed ", i),
        Line::Snapshot(i, keys) => put_two(out, at, b"snapshot ", i, keys),
        Line::Stop(c, decided) => put_stop(out, at, c, decided),
        Line::Place(p) => put_count(out, at, b"place ", p),
        Line::Removed => put(out, at, b"removed\n"),
        Line::Unknown => put(out, at, b"unknown\n"),
    }
}

// What the refusal of an image means, and from where on it is damaged.
fn put_why(out: &mut [u8], at: usize, number: u64, carried: u64) -> usize
    requires { at + why_room ≤ length out.old }
    ensures upper_bound { result ≤ at + why_room }
    ensures out_after { take result out.new ≡ take at out.old ++ why_text number carried }
{
    if number == 15 {
        return put_one(
            out,
            at,
            b" at ",
            carried,
            b": the image is damaged from here on\n",
        );
    }
    if number == 14 {
        return put(out, at, b": unknown format\n");
    }
    put(out, at, b"\n")
}

// The line that tells the refusal of an image.
pub fn put_refused(out: &mut [u8], at: usize, number: u64, carried: u64) -> usize
    requires { at + refused_room ≤ length out.old }
    ensures upper_bound { result ≤ at + refused_room }
    ensures out_after { take result out.new ≡ take at out.old ++ refused_text number carried }
{
    let a = put_one(out, at, b"refused ", number, b"");
    put_why(out, a, number, carried)
}

// label, a key, a space, the key's place or `-`, and a line end.
fn put_change(out: &mut [u8], at: usize, label: &[u8], k: u64, said: Said) -> usize
    requires { at + length label.now + 2 * (most_digits + 1) ≤ length out.old }
    ensures upper_bound { result ≤ at + length label.now + 2 * (most_digits + 1) }
    ensures out_after { take result out.new
        ≡ take at out.old ++ (label.now ++ entry_text (record { key = k; said = said_is said })) }
{
    match said {
        Said::Place(place) => put_two(out, at, label, k, place.0),
        Said::Removed => put_one(out, at, label, k, b" -\n"),
    }
}

// An entry's line.
fn put_entry(out: &mut [u8], at: usize, decided: bool, k: u64, said: Said) -> usize
    requires { at + output_line ≤ length out.old }
    ensures upper_bound { result ≤ at + output_line }
    ensures out_after { take result out.new
        ≡ take at out.old ++ entry_line decided (record { key = k; said = said_is said }) }
{
    if decided {
        return put_change(out, at, b"decided ", k, said);
    }
    put_change(out, at, b"undecided ", k, said)
}

// The lines of the first n entries, the first `decided` of them as decided.
pub fn put_run(out: &mut [u8], at: usize, entries: &[u64], n: usize, decided: usize) -> usize
    requires width_in_bounds { n * width ≤ length entries.now }
    requires n_in_bounds { at + output_line * n ≤ length out.old }
    ensures upper_bound { result ≤ at + output_line * n }
    ensures out_after { take result out.new
        ≡ take at out.old ++ entry_lines decided (entries_of n entries.now) }
{
    let mut o = at;
    for i in 0..n {
        let key = entries[i * entry::WIDTH];
        o = put_entry(out, o, i < decided, key, entry::inner::said_at(entries, i));
    }
    o
}

// A line of which parts have come: how many bytes stand in its buffer, and whether there were more than it holds.
#[derive(Clone, Copy)]
pub struct Partial {
    pub len: usize,
    pub over: bool,
}

// A part of a line is kept after those before it, unless it does not fit the line's buffer.
pub fn keep(part: &[u8], held: Partial, line: &mut [u8]) -> Partial
    requires { held.len ≤ length line.old }
    ensures len_in_bounds { result.len ≤ length line.old }
    ensures line_after { come result.over result.len line.new
        ≡ joined (length line.old) (come held.over held.len line.old)
        part.now }
{
    let len = held.len;
    let over = held.over;
    if part.len() > line.len() - len {
        return Partial { len, over: true };
    }
    let n = put(line, len, part);
    Partial { len: n, over }
}

// Writes the answers that wait where the next might not fit after them, which it might not after more than `last`
// bytes, and says where the next is put.
pub fn room(to: Stdout, out: &[u8], used: usize, last: usize) -> io::Result<usize>
    requires { used ≤ length out.now }
    ensures { IfOk result (λ at. at ≡ next_at last used) }
{
    if used <= last {
        return Ok(used);
    }
    to.write_all(&out[..used])?;
    Ok(0)
}
