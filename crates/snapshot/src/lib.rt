// Snapshots: module 2 of document 01. A snapshot is a lent slice of SNAPSHOT_WORDS words and a number of keys: so
// many entries, ascending by key, and zeros after them.
#![tactic(auto)]

ghost use Rattle.std.specs.Prelude.{◌≡◌};
ghost use Rattle.snapshot.specs.Calls.{snapshot_formed, outcome, folded, fold_call, merge_call, found, find_call};

use entry::{Refusal, Said};

pub mod inner;

// Whether a lent snapshot is in form.
pub fn snapshot_formed(s: &[u64], keys: usize) -> bool
    ensures { result ≡ snapshot_formed keys s.now }
{
    if !entry::inner::laid_out(s, entry::SNAPSHOT_WORDS, keys) {
        return false;
    }
    inner::keys_ascend(s, keys)
}

// Folds a run of entries: the last one for a key wins, and a removal is kept. Says how many keys the fold has.
pub fn fold(entries: &[u64], out: &mut [u64]) -> Result<usize, Refusal>
    ensures { outcome (folded result) out.new ≡ fold_call entries.now out.old }
{
    let fine = entry::entries_formed(entries);
    let roomy = out.len() == entry::SNAPSHOT_WORDS;
    if !(fine & roomy) {
        return Err(Refusal::Malformed);
    }
    let mut empty = [0u64; entry::SNAPSHOT_WORDS];
    inner::fold_out(&mut empty, 0, entries, entries.len() / entry::WIDTH, out)
}

// Merges two snapshots: the second's word wins.
pub fn merge(a: &[u64], n: usize, b: &[u64], m: usize, out: &mut [u64]) -> Result<usize, Refusal>
    ensures { outcome (folded result) out.new
        ≡ merge_call a.now n b.now m out.old }
{
    let first = snapshot_formed(a, n);
    let second = snapshot_formed(b, m);
    let roomy = out.len() == entry::SNAPSHOT_WORDS;
    if !(first & (second & roomy)) {
        return Err(Refusal::Malformed);
    }
    inner::fold_aside(a, n, b, m, out)
}

// Finds a key: what is said of it, or nothing where it is unknown.
pub fn find(s: &[u64], keys: usize, key: u64) -> Result<Option<Said>, Refusal>
    ensures { found result ≡ find_call s.now keys key }
{
    if !snapshot_formed(s, keys) {
        return Err(Refusal::Malformed);
    }
    Ok(inner::look_up(s, keys, key))
}
