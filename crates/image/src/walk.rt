// The walk over the records behind a header.
ghost use Rattle.std.specs.Prelude.{◌≡◌, ◌∷◌, ◌+◌, ◌≤◌, ◌<◌, length, drop};
ghost use Rattle.entry.specs.Limits.{key_room, entry_room};
ghost use Rattle.image.specs.declared.Want.TheVariants.{Key, Entry};
ghost use Rattle.image.specs.Layout.{head_size};
ghost use Rattle.image.specs.Reading.{wants};
ghost use Rattle.image.specs.Inner.{step_at, walked};

use super::{Head, Want, changes, stop};

// The record that is wanted after i others.
fn want_at(h: Head, i: usize) -> Want
    requires { i < length (wants h) }
    ensures { drop i (wants h) ≡ result ∷ drop (i + 1) (wants h) }
{
    if i < h.keys {
        return Want::Key;
    }
    if i - h.keys < h.entries {
        return Want::Entry;
    }
    Want::Stop(h.metadata)
}

// A sound record: how many bytes it has, and which key the next must be above; it may be any where there is none yet.
#[derive(Clone, Copy)]
pub struct Step {
    pub size: usize,
    pub above: Option<u64>,
}

fn key_at(s: &[u8], at: usize, above: Option<u64>) -> Option<Step>
    requires { at ≤ length s.now }
    ensures { result ≡ step_at above Key (drop at s.now) }
{
    let key = changes::change_at(s, at, super::KEY_MARK)?;
    let step = Step {
        size: super::CHANGE,
        above: Some(key),
    };
    above.is_none_or(|before| before < key).then_some(step)
}

fn entry_at(s: &[u8], at: usize, above: Option<u64>) -> Option<Step>
    requires { at ≤ length s.now }
    ensures { result ≡ step_at above Entry (drop at s.now) }
{
    changes::change_at(s, at, super::ENTRY_MARK)?;
    Some(Step {
        size: super::CHANGE,
        above,
    })
}

fn record_at(s: &[u8], at: usize, want: Want, above: Option<u64>) -> Option<Step>
    requires { at ≤ length s.now }
    ensures { result ≡ step_at above want (drop at s.now) }
{
    match want {
        Want::Key => key_at(s, at, above),
        Want::Entry => entry_at(s, at, above),
        Want::Stop(metadata) => {
            let size = stop::stop_at(s, at, metadata)?;
            Some(Step { size, above })
        }
    }
}

// Whether the records behind a header are all that it wants and all that is there; where not, the error says where the
// leading sound ones end.
pub(crate) fn walk(s: &[u8], h: Head) -> Result<(), usize>
    requires head_size_in_bounds { head_size ≤ length s.now }
    requires keys_le_key_room { (h.keys ≤ key_room) × (h.entries ≤ entry_room) }
    ensures { result ≡ walked h s.now }
{
    let n = h.keys + h.entries + usize::from(h.stop);
    let mut here = super::HEAD;
    let mut above = None;
    for i in 0..n {
        let step = record_at(s, here, want_at(h, i), above).ok_or(here)?;
        here += step.size;
        above = step.above;
    }
    if here != s.len() {
        return Err(here);
    }
    Ok(())
}
