// What the crates above need of snapshots: not for a user, whose calls are in lib.rt. What a function needs of its
// arguments it requires: its callers have tested it.
ghost use Rattle.std.specs.Prelude.{◌≡◌, ◌*◌, ◌≤◌, length};
ghost use Rattle.entry.specs.Limits.{width};
ghost use Rattle.entry.specs.Change.{change_code, entries_of};
ghost use Rattle.entry.specs.Reply.{known_is};
ghost use Rattle.snapshot.specs.Folds.{rising, insert, fold_onto, find};
ghost use Rattle.snapshot.specs.Calls.{outcome, folded};
ghost use Rattle.snapshot.specs.Inner.{spot_of, Holds, Shows, FoldIs, Aside, fold_written, folded_out};

use entry::{Refusal, Said};

// Whether the keys of the first n entries ascend strictly.
pub fn keys_ascend(s: &[u64], n: usize) -> bool
    requires { n * width ≤ length s.now }
    ensures { result ≡ rising (entries_of n s.now) }
{
    let mut ok = true;
    for i in 1..n {
        ok &= s[(i - 1) * entry::WIDTH] < s[i * entry::WIDTH];
    }
    ok
}

// A search by halves: where the key stands, or else before which entry it would, is from `low` to `high`. It stays a
// loop: document 01 asks for one that breaks with the position or absence.
pub fn search(s: &[u64], n: usize, key: u64) -> Result<usize, usize>
    requires { Holds (length s.now) n s.now }
    ensures { result ≡ spot_of (entries_of n s.now) key }
{
    let mut low = 0;
    let mut high = n;
    loop {
        if high <= low {
            break Err(low);
        }
        let mid = (low + high) / 2;
        let at = mid * entry::WIDTH;
        let k = s[at];
        if k < key {
            low = mid + 1;
        } else {
            if k == key {
                break Ok(mid);
            }
            high = mid;
        }
    }
}

// Finds a key in a snapshot.
pub fn look_up(s: &[u64], n: usize, key: u64) -> Option<Said>
    requires { Holds (length s.now) n s.now }
    ensures { known_is result ≡ find key (entries_of n s.now) }
{
    let Ok(i) = search(s, n, key) else {
        return None;
    };
    Some(entry::inner::said_at(s, i))
}

// Puts one entry, as its words, at its place, and says how many there are then; where there is no room the words of s
// are of no use.
fn put(s: &mut [u64], n: usize, item: &[u64]) -> Result<usize, Refusal>
    requires { Holds (length s.old) n s.old × (length item.now ≡ width) }
    ensures { FoldIs
        (length s.old)
        (insert (change_code.dec item.now) (entries_of n s.old))
        result
        s.new }
{
    let used = n * entry::WIDTH;
    match search(s, n, item[0]) {
        Ok(i) => {
            words::splice(s, used, i * entry::WIDTH, entry::WIDTH, item);
            Ok(n)
        }
        Err(i) => {
            if s.len() - used < entry::WIDTH {
                return Err(Refusal::TooManyKeys);
            }
            words::splice(s, used, i * entry::WIDTH, 0, item);
            Ok(n + 1)
        }
    }
}

// Puts the first n entries onto the `kept` ones of s, the first first. Where they do not all fit the words are of no
// use.
pub fn fold_onto(s: &mut [u64], kept: usize, entries: &[u64], n: usize) -> Result<usize, Refusal>
    requires { Holds (length s.old) kept s.old × Shows n entries.now }
    ensures { FoldIs (length s.old)
        (fold_onto (entries_of kept s.old) (entries_of n entries.now)) result s.new }
{
    let mut keys = kept;
    for i in 0..n {
        let at = i * entry::WIDTH;
        keys = put(s, keys, &entries[at..at + entry::WIDTH])?;
    }
    Ok(keys)
}

// Folds the first n entries onto the snapshot in scratch and writes the result over the whole of out. The fold is
// made aside, so that one with too many keys writes nothing there.
pub fn fold_out(
    scratch: &mut [u64],
    kept: usize,
    entries: &[u64],
    n: usize,
    out: &mut [u64],
) -> Result<usize, Refusal>
    requires { Aside kept scratch.old n entries.now out.old }
    ensures { outcome (folded result) out.new
        ≡ folded_out kept scratch.old n entries.now out.old }
{
    let keys = fold_onto(scratch, kept, entries, n)?;
    words::copy_words(scratch, out);
    Ok(keys)
}

// The same onto a snapshot that stays as it is.
pub fn fold_aside(
    base: &[u64],
    kept: usize,
    entries: &[u64],
    n: usize,
    out: &mut [u64],
) -> Result<usize, Refusal>
    requires { Aside kept base.now n entries.now out.old }
    ensures { outcome (folded result) out.new
        ≡ folded_out kept base.now n entries.now out.old }
{
    let mut scratch = [0u64; entry::SNAPSHOT_WORDS];
    words::copy_words(base, &mut scratch);
    fold_out(&mut scratch, kept, entries, n, out)
}

// Folds the first n entries, and then m more, onto a snapshot in its place. The fold is made aside, so that one with
// too many keys writes nothing; where the first part has too many so has the whole, since keys are only added.
pub fn fold_over(
    snapshot: &mut [u64],
    kept: usize,
    entries: &[u64],
    n: usize,
    more: &[u64],
    m: usize,
) -> Result<usize, Refusal>
    requires { Aside kept snapshot.old n entries.now snapshot.old × Shows m more.now }
    ensures { outcome (folded result) snapshot.new
        ≡ fold_written
        (fold_onto
        (fold_onto (entries_of kept snapshot.old) (entries_of n entries.now))
        (entries_of m more.now))
        snapshot.old }
{
    let mut scratch = [0u64; entry::SNAPSHOT_WORDS];
    words::copy_words(snapshot, &mut scratch);
    let keys = fold_onto(&mut scratch, kept, entries, n)?;
    fold_out(&mut scratch, keys, more, m, snapshot)
}
