// Words moved, copied and cleared in place, in a lent slice of any length. `paste d at s n` is d with the first n
// words of s over its own from `at` on; `laid` and `spliced` are definitions of specs/Words.antt. What a function
// needs of its arguments it requires: its callers have tested it.
#![tactic(auto)]

ghost use Rattle.std.specs.Prelude.{◌≡◌, [], ◌+◌, ◌-◌, ◌≤◌, length, take, drop, replicate};
ghost use Rattle.std.proofs.Math.Seq.{paste};
ghost use Rattle.words.specs.Words.{laid, spliced, all_zero};

// Copies all of src over s's words from `at` on, word by word: of two lent slices the compiler makes `copy_from_slice` a
// call of `memmove`, which a host of the archive need not have.
pub fn copy_in(s: &mut [u64], at: usize, src: &[u64])
    requires { at + length src.now ≤ length s.old }
    ensures { s.new ≡ paste s.old at src.now (length src.now) }
{
    for (i, w) in src.iter().enumerate() {
        s[at + i] = *w;
    }
}

// Moves the n words from `from` on to `to`, up or down.
pub fn copy_within(s: &mut [u64], from: usize, to: usize, n: usize)
    requires n_in_bounds { from + n ≤ length s.old }
    requires n_in_bounds_2 { to + n ≤ length s.old }
    ensures { s.new ≡ paste s.old to (drop from s.old) n }
{
    s.copy_within(from..from + n, to);
}

// Copies all of src to dst, which is as long.
pub fn copy_words(src: &[u64], dst: &mut [u64])
    requires { length src.now ≡ length dst.old }
    ensures { dst.new ≡ src.now }
{
    copy_in(dst, 0, src);
}

// Writes zeros from `from` up to, not including, `to`: none where `to` is not past `from`.
pub fn clear(s: &mut [u64], from: usize, to: usize)
    requires { to ≤ length s.old }
    ensures { s.new ≡ paste s.old from (replicate (to - from) 0) (to - from) }
{
    if from < to {
        s[from..to].fill(0);
    }
}

// Puts `insert` in the place of the `cut` words from `at` on, of the `used` words at the front; what follows moves,
// and what is left over becomes zero.
pub fn splice(s: &mut [u64], used: usize, at: usize, cut: usize, insert: &[u64])
    requires cut_bound { at + cut ≤ used }
    requires used_in_bounds { used ≤ length s.old }
    requires insert_in_bounds { (used - cut) + length insert.now ≤ length s.old }
    requires s_value { s.old ≡ laid (length s.old) (take used s.old) }
    ensures { s.new
        ≡ laid (length s.old) (spliced at cut insert.now (take used s.old)) }
{
    let from = at + cut;
    let n = used - from;
    let to = at + insert.len();
    copy_within(s, from, to, n);
    copy_in(s, at, insert);
    clear(s, to + n, used);
}

// Whether every word from `from` on is zero. The fold takes them all, with one way out, so that the compiler may take
// several at a time.
pub fn zero_from(s: &[u64], from: usize) -> bool
    ensures { result ≡ all_zero (drop from s.now) }
{
    let Some(rest) = s.get(from..) else {
        return true;
    };
    let all = rest.iter().fold(0, |all, w| all | *w);
    all == 0
}

// Cuts `cut` words from `at` on out of the `used` words at the front: a splice of nothing.
pub fn cut_out(s: &mut [u64], used: usize, at: usize, cut: usize)
    requires cut_bound { at + cut ≤ used }
    requires used_in_bounds { used ≤ length s.old }
    requires s_value { s.old ≡ laid (length s.old) (take used s.old) }
    ensures { s.new ≡ laid (length s.old) (spliced at cut [] (take used s.old)) }
{
    splice(s, used, at, cut, &[]);
}
