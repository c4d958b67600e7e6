// The header: put, read and judged; and the index record that it stands for.
ghost use Rattle.std.specs.Prelude.{◌≡◌, ◌+◌, ◌≤◌, length, take, drop};
ghost use Rattle.words.specs.Words.{spliced};
ghost use Rattle.records.specs.Big.{value};
ghost use Rattle.records.specs.Sealed.{sealed};
ghost use Rattle.state_cache.specs.State.{numbers_in};
ghost use Rattle.state_cache.specs.Inner.{Small};
ghost use Rattle.image.specs.Layout.{head_fields, head_size};
ghost use Rattle.image.specs.Reading.{head_at, head_formed, head_sound};
ghost use Rattle.image.specs.Inner.{ballot_at, head_in, index_from};

use super::{Head, flags};
use entry::{Ballot, LogIndex, StopSign};
use state_cache::IndexRecord;

// The header of a log's image.
pub(crate) fn head_of(index: IndexRecord) -> Head
    requires { Small (numbers_in index) }
    ensures { result ≡ head_in index }
{
    let accepted = state_cache::inner::accepted(index);
    let stop = index.stop;
    let promise = index.promise;
    let round = index.accepted_round;
    Head {
        snapshot: index.snapshot_held,
        stop: index.stop_held,
        metadata: stop.metadata_held,
        compacted: index.compacted.0,
        decided: index.decided.0,
        accepted,
        entries: index.retained,
        keys: index.keys,
        promise,
        round,
    }
}

// Puts a header at the front of s.
pub(crate) fn put_head(s: &mut [u8], h: Head)
    requires { head_size ≤ length s.old }
    ensures { s.new ≡ spliced 0 head_size (sealed (head_fields h)) s.old }
{
    let held = flags::flags(h.snapshot, h.stop, h.metadata);
    let promise = h.promise;
    let round = h.round;
    let widths = [2usize, 2, 1, 4, 4, 4, 2, 2, 4, 4, 4, 8, 4, 4, 4, 8];
    let ns = [
        super::HEAD_MARK,
        super::FORMAT,
        held as u64,
        h.compacted,
        h.decided,
        h.accepted,
        h.entries as u64,
        h.keys as u64,
        promise.config_id as u64,
        promise.n as u64,
        promise.priority as u64,
        promise.pid,
        round.config_id as u64,
        round.n as u64,
        round.priority as u64,
        round.pid,
    ];
    records::inner::put_fields(s, 0, &widths, &ns);
    records::inner::put_sum(s, 0, super::HEAD - 2);
}

// The number that the four bytes at `at` are.
pub(crate) fn four_at(s: &[u8], at: usize) -> u32
    requires { at + 4 ≤ length s.now }
    ensures { result ≡ value (take 4 (drop at s.now)) }
{
    records::inner::get_big(s, at, 4) as u32
}

fn ballot_at(s: &[u8], at: usize) -> Ballot
    requires { at + 20 ≤ length s.now }
    ensures { result ≡ ballot_at at s.now }
{
    let config_id = four_at(s, at);
    let n = four_at(s, at + 4);
    let priority = four_at(s, at + 8);
    let pid = records::inner::get_big(s, at + 12, 8);
    Ballot {
        config_id,
        n,
        priority,
        pid,
    }
}

// What the header at the front of s says.
pub(crate) fn head_at(s: &[u8]) -> Head
    requires { head_size ≤ length s.now }
    ensures { result ≡ head_at s.now }
{
    let held = s[4];
    let compacted = records::inner::get_big(s, 5, 4);
    let decided = records::inner::get_big(s, 9, 4);
    let accepted = records::inner::get_big(s, 13, 4);
    let entries = records::inner::get_big(s, 17, 2);
    let keys = records::inner::get_big(s, 19, 2);
    let promise = ballot_at(s, 21);
    let round = ballot_at(s, 41);
    Head {
        snapshot: flags::snapshot_held(held),
        stop: flags::stop_sign_held(held),
        metadata: flags::metadata_present(held),
        compacted,
        decided,
        accepted,
        entries: entries as usize,
        keys: keys as usize,
        promise,
        round,
    }
}

// The index record that a header and a stop-sign stand for.
pub(crate) fn index_from(h: Head, batch_size: u64, stop: StopSign) -> IndexRecord
    ensures { result ≡ index_from batch_size h stop }
{
    let promise = h.promise;
    let round = h.round;
    IndexRecord {
        batch_size,
        retained: h.entries,
        batched: 0,
        compacted: LogIndex(h.compacted),
        decided: LogIndex(h.decided),
        promise,
        accepted_round: round,
        snapshot_held: h.snapshot,
        keys: h.keys,
        stop_held: h.stop,
        stop,
    }
}

// Whether some state has these numbers and flags.
fn head_formed(h: Head) -> bool
    ensures { result ≡ head_formed h }
{
    let index = index_from(h, 0, entry::inner::no_sign());
    if !state_cache::inner::sizes_formed(index) {
        return false;
    }
    let numbers = state_cache::inner::numbers_formed(index);
    let last = state_cache::inner::accepted(index);
    (h.stop | !h.metadata)
        & ((h.snapshot | (h.keys == 0))
            & ((h.keys <= entry::KEYS) & ((h.accepted == last) & numbers)))
}

// Whether a header in form, sealed and with no unknown flag, stands at the front of s.
pub(crate) fn head_sound(s: &[u8]) -> bool
    ensures { result ≡ head_sound s.now }
{
    if !records::inner::sealed_at(s, 0, super::HEAD - 2) {
        return false;
    }
    let known = flags::flags_known(s[4]);
    let formed = head_formed(head_at(s));
    known & formed
}
