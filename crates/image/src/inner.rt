// What the calls do once their arguments are judged: not for a user, whose calls are in lib.rt.
ghost use Rattle.std.specs.Prelude.{◌≡◌, ◌≤◌, ltb, length};
ghost use Rattle.snapshot.specs.Calls.{outcome as output};
ghost use Rattle.state_cache.specs.State.{raw, log_of};
ghost use Rattle.state_cache.specs.Inner.{Ready};
ghost use Rattle.state_cache.specs.Run.{outcome};
ghost use Rattle.image.specs.Layout.{head_size};
ghost use Rattle.image.specs.Reading.{head_at};
ghost use Rattle.image.specs.Calls.{written, write_call, ReadsBack, state_in, loaded};
ghost use Rattle.image.specs.Inner.{Loadable};
ghost use Rattle.entry.specs.Guards.{passes, replied};

use super::{Head, changes, flags, header, stop};
use entry::{LogIndex, Refusal};
use state_cache::IndexRecord;

// What the header at the front of some bytes says, whether or not it is sound.
pub fn head_at(bytes: &[u8]) -> Head
    requires { head_size ≤ length bytes.now }
    ensures { result ≡ head_at bytes.now }
{
    header::head_at(bytes)
}

// Whether a header's flag byte has no unknown bit.
pub fn flags_known(flags: u8) -> bool
    ensures { result ≡ ltb flags 8 }
{
    flags::flags_known(flags)
}

// Writes the image of a well-formed log.
pub fn write(
    index: IndexRecord,
    log: &[u64],
    snapshot: &[u64],
    out: &mut [u8],
) -> Result<usize, Refusal>
    requires { Ready (raw index log.now snapshot.now) }
    ensures out_after { output (written result) out.new
        ≡ write_call (raw index log.now snapshot.now) out.old }
    ensures reads_back { ReadsBack result (log_of (raw index log.now snapshot.now)) out.new }
{
    let sign = index.stop_held.then_some(index.stop);
    let keys_end = super::HEAD + index.keys * super::CHANGE;
    let entries_end = keys_end + index.retained * super::CHANGE;
    let end = entries_end + stop::size(sign);
    if out.len() < end {
        return Err(Refusal::OutputShort);
    }
    header::put_head(out, header::head_of(index));
    changes::put_changes(out, super::HEAD, super::KEY_MARK, snapshot, index.keys);
    changes::put_changes(out, keys_end, super::ENTRY_MARK, log, index.retained);
    stop::put(out, entries_end, sign);
    Ok(end)
}

// Loads a sound image. Says the accepted index.
pub fn load(
    batch_size: u64,
    bytes: &[u8],
    log: &mut [u64],
    snapshot: &mut [u64],
) -> (IndexRecord, LogIndex)
    requires { Loadable batch_size bytes.now log.old snapshot.old }
    ensures { outcome (replied result.1.0) (raw result.0 log.new snapshot.new)
        ≡ loaded passes (state_in batch_size bytes.now) log.old snapshot.old }
{
    let h = header::head_at(bytes);
    let keys_end = super::HEAD + h.keys * super::CHANGE;
    let entries_end = keys_end + h.entries * super::CHANGE;
    changes::load_changes(bytes, super::HEAD, snapshot, h.keys);
    changes::load_changes(bytes, keys_end, log, h.entries);
    let sign = stop::load_if(bytes, entries_end, h.stop, h.metadata);
    (
        header::index_from(h, batch_size, sign),
        LogIndex(h.accepted),
    )
}
