// The stop-sign of a log that is known to be well formed: not for a user, whose calls are in stop.rt.
ghost use Rattle.std.specs.Prelude.{◌≡◌, true, is_some, unwrap_or};
ghost use Rattle.entry.specs.Guards.{first, said_by};
ghost use Rattle.entry.specs.Sign.{no_sign};
ghost use Rattle.model.specs.Numbers.{accepted_of};
ghost use Rattle.model.specs.Append.{append_stop_guards, set_stop_guards};
ghost use Rattle.model.specs.Calls.{append_stop, set_stop};
ghost use Rattle.model.specs.Inner.{Sound};
ghost use Rattle.state_cache.specs.State.{raw, numbers_in};
ghost use Rattle.state_cache.specs.Inner.{Ready, with_stop};
ghost use Rattle.state_cache.specs.Run.{outcome, run, index_said};
ghost use Rattle.internal_storage.specs.Replies.{flushed_is, sign_is};
ghost use Rattle.internal_storage.specs.Inner.{indexed, by_numbers, flush_says, all_flushed};

use super::super::Flushed;
use entry::{LogIndex, Refusal, StopSign};
use state_cache::IndexRecord;

// Refusals 4 and 9, or the batch flushed and the stop-sign after it.
fn append_stop_at(index: &mut IndexRecord, ss: StopSign) -> Result<Option<Flushed>, Refusal>
    requires { Sound (numbers_in index.old) }
    ensures { indexed (said_by flushed_is result) index.new
        ≡ by_numbers (first (append_stop_guards (numbers_in index.old))) (flush_says index.old)
        (with_stop true ss (all_flushed index.old)) index.old }
{
    let last = state_cache::inner::accepted(*index);
    if index.stop_held {
        return Err(Refusal::Stopped(LogIndex(last)));
    }
    if entry::LAST_INDEX < last + index.batched as u64 + 1 {
        return Err(Refusal::PastLastIndex(LogIndex(last)));
    }
    let flushed = super::flush::flush_answer(*index);
    super::flush::flush(index);
    index.stop_held = true;
    index.stop = ss;
    Ok(flushed)
}

pub fn append_stopsign(
    index: &mut IndexRecord,
    log: &[u64],
    snapshot: &[u64],
    ss: StopSign,
) -> Result<Option<Flushed>, Refusal>
    requires { Ready (raw index.old log.now snapshot.now) }
    ensures { outcome (said_by flushed_is result) (raw index.new log.now snapshot.now)
        ≡ run (append_stop ss) true (raw index.old log.now snapshot.now) }
{
    if !entry::sign_formed(ss) {
        return Err(Refusal::Malformed);
    }
    append_stop_at(index, ss)
}

// Refusals 4, 10 and 9, or the flag and the stop-sign set.
fn set_stop_at(index: &mut IndexRecord, ss: Option<StopSign>) -> Result<LogIndex, Refusal>
    requires { Sound (numbers_in index.old) }
    ensures { indexed (index_said result) index.new
        ≡ (let next = with_stop (is_some ss) (unwrap_or ss no_sign) index.old in
        by_numbers (first (set_stop_guards (is_some ss) (numbers_in index.old)))
        (accepted_of (numbers_in next)) next index.old) }
{
    let last = state_cache::inner::accepted(*index);
    if state_cache::inner::stop_decided(*index) {
        return Err(Refusal::Stopped(LogIndex(last)));
    }
    let waiting = index.batched;
    if ss.is_some() & (0 < waiting) {
        return Err(Refusal::BatchHeld(waiting));
    }
    let mut next = *index;
    next.stop_held = ss.is_some();
    next.stop = ss.unwrap_or(entry::inner::no_sign());
    let then = state_cache::inner::accepted(next);
    if entry::LAST_INDEX < then + waiting as u64 {
        return Err(Refusal::PastLastIndex(LogIndex(last)));
    }
    *index = next;
    Ok(LogIndex(then))
}

// Without a stop-sign the one held is taken away.
pub fn set_stopsign(
    index: &mut IndexRecord,
    log: &[u64],
    snapshot: &[u64],
    ss: Option<StopSign>,
) -> Result<LogIndex, Refusal>
    requires { Ready (raw index.old log.now snapshot.now) }
    ensures { outcome (index_said result) (raw index.new log.now snapshot.now)
        ≡ run (set_stop (sign_is ss)) true (raw index.old log.now snapshot.now) }
{
    if ss.is_some_and(|sign| !entry::sign_formed(sign)) {
        return Err(Refusal::Malformed);
    }
    set_stop_at(index, ss)
}
