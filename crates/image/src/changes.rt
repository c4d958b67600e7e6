// The records of keys and entries: put, judged and loaded.
// Bytes come whole with an offset, not from it on: a refusal carries the offset.
// Words come whole with a count, as document 01 has a log and a snapshot lent.
ghost use Rattle.std.specs.Prelude.{◌≡◌, ◌+◌, ◌*◌, ◌≤◌, length, drop};
ghost use Rattle.words.specs.Words.{spliced};
ghost use Rattle.words.specs.Coded.{words_of};
ghost use Rattle.records.specs.Sealed.{sealed};
ghost use Rattle.entry.specs.Limits.{width};
ghost use Rattle.entry.specs.Change.{change_code, entries_of, stored};
ghost use Rattle.image.specs.Layout.{change_fields, change_size};
ghost use Rattle.image.specs.Inner.{key_at, changes_at, changes_bytes};

// Puts the record of the entry whose words are lent.
fn put_change(s: &mut [u8], at: usize, mark: u64, words: &[u64])
    requires change_size_in_bounds { at + change_size ≤ length s.old }
    requires words_len { length words.now ≡ width }
    ensures { s.new
        ≡ spliced at change_size (sealed (change_fields mark (change_code.dec words.now))) s.old }
{
    let widths = [8usize; entry::WIDTH];
    records::inner::put_big(s, at, 2, mark);
    records::inner::put_fields(s, at + 2, &widths, words);
    records::inner::put_sum(s, at, super::CHANGE - 2);
}

// Puts the records of the first n entries of some words, one after the other.
pub(crate) fn put_changes(s: &mut [u8], at: usize, mark: u64, words: &[u64], n: usize)
    requires change_size_in_bounds { at + n * change_size ≤ length s.old }
    requires width_in_bounds { n * width ≤ length words.now }
    ensures { s.new
        ≡ spliced at (n * change_size) (changes_bytes mark (entries_of n words.now)) s.old }
{
    for i in 0..n {
        let here = at + i * super::CHANGE;
        let from = i * entry::WIDTH;
        put_change(s, here, mark, &words[from..from + entry::WIDTH]);
    }
}

// The key of the record at `at`, if one with this mark stands there, sealed, that says what an entry can say.
pub(crate) fn change_at(s: &[u8], at: usize, mark: u64) -> Option<u64>
    requires { at ≤ length s.now }
    ensures { result ≡ key_at mark (drop at s.now) }
{
    if !records::inner::sealed_at(s, at, super::CHANGE - 2) {
        return None;
    }
    let widths = [8usize; entry::WIDTH];
    let mut words = [0u64; entry::WIDTH];
    records::inner::get_fields(s, at + 2, &widths, &mut words);
    let marked = records::inner::get_big(s, at, 2) == mark;
    let fine = entry::inner::places_formed(&words, 1);
    (marked & fine).then_some(words[0])
}

// Loads the words of n entries from their records, to the front of some words.
fn load_words(s: &[u8], at: usize, words: &mut [u64], n: usize)
    requires change_size_in_bounds { at + n * change_size ≤ length s.now }
    requires width_in_bounds { n * width ≤ length words.old }
    ensures { words.new
        ≡ spliced 0 (n * width) (words_of change_code (changes_at n (drop at s.now))) words.old }
{
    let widths = [8usize; entry::WIDTH];
    for i in 0..n {
        let here = at + i * super::CHANGE;
        let from = i * entry::WIDTH;
        let to = from + entry::WIDTH;
        records::inner::get_fields(s, here + 2, &widths, &mut words[from..to]);
    }
}

// The same, over all that the words held.
pub(crate) fn load_changes(s: &[u8], at: usize, words: &mut [u64], n: usize)
    requires change_size_in_bounds { at + n * change_size ≤ length s.now }
    requires width_in_bounds { n * width ≤ length words.old }
    ensures { words.new
        ≡ stored (length words.old) (changes_at n (drop at s.now)) }
{
    load_words(s, at, words, n);
    words::clear(words, n * entry::WIDTH, words.len());
}
