// What the crates above need of forms and layouts: not for a user, whose calls are in lib.rt.
ghost use Rattle.std.specs.Prelude.{◌≡◌, true, ◌+◌, ◌*◌, ◌≤◌, ◌<◌, length, drop};
ghost use Rattle.words.specs.Words.{all_zero};
ghost use Rattle.entry.specs.Change.{said_is, said_of, word_formed, entries_formed, entries_of, stored_in};
ghost use Rattle.entry.specs.Reply.{known_is, reply_code};
ghost use Rattle.entry.specs.Inner.{change_at, LentAs};
ghost use Rattle.entry.specs.Limits.{width, places};
ghost use Rattle.entry.specs.Sign.{no_sign, sign_if, sign_blank};

use super::{BlockPlace, Said, StopSign};

// What an entry's second word says.
pub fn said_of(word: u64) -> Said
    ensures { said_is result ≡ said_of word }
{
    if word == super::REMOVED {
        return Said::Removed;
    }
    Said::Place(BlockPlace(word))
}

// What the entry at i says of its key.
pub fn said_at(s: &[u64], i: usize) -> Said
    requires { i * width + width ≤ length s.now }
    ensures { said_is result ≡ (change_at s.now i).said }
{
    let at = i * super::WIDTH + 1;
    said_of(s[at])
}

// The words of a reply.
pub fn reply(known: Option<Said>) -> [u64; super::REPLY_WIDTH]
    ensures { result ≡ reply_code.enc (known_is known) }
{
    match known {
        None => [super::UNKNOWN],
        Some(Said::Place(place)) => [place.0],
        Some(Said::Removed) => [super::REMOVED],
    }
}

// The words of an entry. Those of a place of 2^48 or more break the form too, so that 2^64-1 never means removed.
pub fn lent(key: u64, said: Said) -> [u64; super::WIDTH]
    ensures { LentAs (record { key = key; said = said_is said }) result }
{
    let Said::Place(place) = said else {
        return [key, super::REMOVED];
    };
    if place.0 < super::PLACES {
        return [key, place.0];
    }
    [key, super::PLACES]
}

// One more than a place's word, and 0 for a removed one: below PLACES only where the place is in form.
fn next_word(w: u64) -> u64
    ensures { result < places → word_formed w ≡ true }
{
    if w == super::REMOVED {
        return 0;
    }
    w + 1
}

// The `or` of them all, of the first n entries.
fn joined(s: &[u64], n: usize) -> u64
    requires { n * width ≤ length s.now }
    ensures { result < places → entries_formed (entries_of n s.now) ≡ true }
{
    let mut all: u64 = 0;
    for i in 0..n {
        all |= next_word(s[i * super::WIDTH + 1]);
    }
    all
}

fn one_by_one(s: &[u64], n: usize) -> bool
    requires { n * width ≤ length s.now }
    ensures { result ≡ entries_formed (entries_of n s.now) }
{
    let mut ok = true;
    for i in 0..n {
        ok &= super::place_formed(s[i * super::WIDTH + 1]);
    }
    ok
}

// Whether the first n entries of s are in form. The `or` tells it of nearly all that are; where it does not, each
// place is looked at.
pub fn places_formed(s: &[u64], n: usize) -> bool
    requires { n * width ≤ length s.now }
    ensures { result ≡ entries_formed (entries_of n s.now) }
{
    if joined(s, n) < super::PLACES {
        return true;
    }
    one_by_one(s, n)
}

// Whether s is a slice of so many words that holds n entries in form, and zeros after them.
pub fn laid_out(s: &[u64], words: usize, n: usize) -> bool
    ensures { result ≡ stored_in words n s.now }
{
    if s.len() != words {
        return false;
    }
    if words / super::WIDTH < n {
        return false;
    }
    let fine = places_formed(s, n);
    let tail = words::zero_from(s, n * super::WIDTH);
    fine & tail
}

// Whether every byte from `from` on is zero. One function for words and bytes would want a trait with the laws of `|`
// and of zero, which is no plainer than the two.
pub fn zero_bytes_from(s: &[u8], from: usize) -> bool
    ensures { result ≡ all_zero (drop from s.now) }
{
    let Some(rest) = s.get(from..) else {
        return true;
    };
    let all = rest.iter().fold(0, |all, b| all | *b);
    all == 0
}

// Whether a stop-sign stands for none: everything is zero.
pub fn sign_blank(s: StopSign) -> bool
    ensures { result ≡ sign_blank s }
{
    s == no_sign()
}

// A stop-sign that stands for none.
pub fn no_sign() -> StopSign
    ensures { result ≡ no_sign }
{
    StopSign {
        config_id: 0,
        node_count: 0,
        nodes: [0; super::NODES],
        metadata_held: false,
        metadata_len: 0,
        metadata: [0; super::METADATA],
    }
}

// The stop-sign that is kept, by whether one is held.
pub fn sign_if(held: bool, sign: StopSign) -> StopSign
    ensures { result ≡ sign_if held sign }
{
    if held {
        return sign;
    }
    no_sign()
}
