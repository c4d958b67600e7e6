// Fields put and got. What a function needs of its arguments it requires: its callers have tested it.
ghost use Rattle.std.specs.Prelude.{◌≡◌, true, ◌&&◌, map, ◌+◌, ◌≤◌, leb, length, take, drop};
ghost use Rattle.words.specs.Words.{spliced};
ghost use Rattle.records.specs.Big.{big, value};
ghost use Rattle.records.specs.Sealed.{total, field, numbers, zipped, packed, unpacked, narrow, sum_of, sum_holds};

// Puts the k bytes of n at `at`, by their index: of what `iter_mut().rev()` writes, a proof knows nothing.
pub fn put_big(s: &mut [u8], at: usize, k: usize, n: u64)
    requires { at + k ≤ length s.old }
    ensures { s.new ≡ spliced at k (big k n) s.old }
{
    let mut m = n;
    for j in (0..k).rev() {
        s[at + j] = (m % 256) as u8;
        m /= 256;
    }
}

// The number that the k bytes at `at` are.
fn get_part(s: &[u8], at: usize, k: usize) -> u64
    requires k_in_bounds { at + k ≤ length s.now }
    requires k_bound { k ≤ 8 }
    ensures { result ≡ value (take k (drop at s.now)) }
{
    let bytes = &s[at..at + k];
    let mut n = 0;
    for b in bytes {
        n = n * 256 + u64::from(*b);
    }
    n
}

// The same; eight bytes by halves, of which the compiler makes one load, and of eight in a row a load for each.
pub fn get_big(s: &[u8], at: usize, k: usize) -> u64
    requires k_in_bounds { at + k ≤ length s.now }
    requires k_bound { k ≤ 8 }
    ensures { result ≡ value (take k (drop at s.now)) }
{
    if k == 8 {
        return get_part(s, at, 4) * 0x1_0000_0000 + get_part(s, at + 4, 4);
    }
    get_part(s, at, k)
}

// Puts numbers into fields of these widths, the first of them at `at`.
pub fn put_fields(s: &mut [u8], at: usize, widths: &[usize], ns: &[u64])
    requires widths_in_bounds { at + total widths.now ≤ length s.old }
    requires ns_len { length ns.now ≡ length widths.now }
    ensures { s.new
        ≡ spliced at (total widths.now) (packed (zipped widths.now ns.now))
        s.old }
{
    let mut here = at;
    for (width, n) in widths.iter().zip(ns) {
        put_big(s, here, *width, *n);
        here += *width;
    }
}

// Gets the numbers that fields of these widths hold, the first of them at `at`; ns by its index, since a proof knows
// nothing of what a zip with `ns.iter_mut()` writes.
pub fn get_fields(s: &[u8], at: usize, widths: &[usize], ns: &mut [u64])
    requires widths_in_bounds { at + total widths.now ≤ length s.now }
    requires widths_value { narrow widths.now ≡ true }
    requires ns_len { length ns.old ≡ length widths.now }
    ensures { ns.new ≡ numbers (unpacked widths.now (drop at s.now)) }
{
    let mut here = at;
    for (i, width) in widths.iter().enumerate() {
        ns[i] = get_big(s, here, *width);
        here += *width;
    }
}

// Puts some bytes at `at`, each a field.
pub fn put_bytes(s: &mut [u8], at: usize, bytes: &[u8])
    requires { at + length bytes.now ≤ length s.old }
    ensures { s.new
        ≡ spliced at (length bytes.now) (packed (map (field 1) bytes.now)) s.old }
{
    let to = at + bytes.len();
    s[at..to].copy_from_slice(bytes);
}

// The 16-bit sum of the k bytes at `at`.
fn sum(s: &[u8], at: usize, k: usize) -> u64
    requires k_in_bounds { at + k ≤ length s.now }
    requires k_bound { k ≤ 65536 }
    ensures { result ≡ sum_of (take k (drop at s.now)) }
{
    let t: u64 = s[at..at + k].iter().map(|b| u64::from(*b)).sum();
    t % 65536
}

// Puts the sum of the k bytes at `at` behind them.
pub fn put_sum(s: &mut [u8], at: usize, k: usize)
    requires k_in_bounds { at + k + 2 ≤ length s.old }
    requires k_bound { k ≤ 65536 }
    ensures { s.new
        ≡ spliced (at + k) 2 (big 2 (sum_of (take k (drop at s.old)))) s.old }
{
    let t = sum(s, at, k);
    put_big(s, at + k, 2, t);
}

// Whether there are k bytes at `at`, and their sum behind them.
pub fn sealed_at(s: &[u8], at: usize, k: usize) -> bool
    requires at_in_bounds { at ≤ length s.now }
    requires k_bound { k ≤ 65536 }
    ensures { result
        ≡ (leb (k + 2) (length (drop at s.now)) && sum_holds k (drop at s.now)) }
{
    if s.len() - at < k + 2 {
        return false;
    }
    get_big(s, at + k, 2) == sum(s, at, k)
}
