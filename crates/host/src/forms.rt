// Module 1: the order of ballots, and forms.
ghost use Rattle.std.specs.Prelude.{◌≡◌};
ghost use Rattle.entry.specs.Change.{word_formed, slice_formed};
ghost use Rattle.entry.specs.Order.{ballot_order, same_ballot};
ghost use Rattle.entry.specs.Sign.{sign_formed};
ghost use Rattle.snapshot.specs.Calls.{snapshot_formed};
ghost use Rattle.host.specs.Requests.{order_as};

use entry::{Ballot, StopSign};

// 0: the first is less; 1: they are equal; 2: it is greater.
#[unsafe(no_mangle)]
pub extern "C" fn kotuseraw_ballot_cmp(a: Ballot, b: Ballot) -> u64
    ensures { result ≡ order_as (ballot_order a b) }
{
    super::answers::order_said(a.cmp(b))
}

// Whether two ballots are the same, config_id included.
#[unsafe(no_mangle)]
pub extern "C" fn kotuseraw_ballot_eq(a: Ballot, b: Ballot) -> bool
    ensures { result ≡ same_ballot a b }
{
    a == b
}

// Whether a word may be what an entry says of its key: a place below 2^48, or removed.
#[unsafe(no_mangle)]
pub extern "C" fn kotuseraw_place_formed(w: u64) -> bool
    ensures { result ≡ word_formed w }
{
    entry::place_formed(w)
}

// Whether an entry slice is in form: whole entries, and each in form.
#[unsafe(no_mangle)]
pub extern "C" fn kotuseraw_entries_formed(s: &[u64]) -> bool
    ensures { result ≡ slice_formed s.now }
{
    entry::entries_formed(s)
}

// Whether a stop-sign is in form: at least one node, and zeros where its arrays are unused.
#[unsafe(no_mangle)]
pub extern "C" fn kotuseraw_sign_formed(s: StopSign) -> bool
    ensures { result ≡ sign_formed s }
{
    entry::sign_formed(s)
}

// Whether a slice is a snapshot in form of so many keys.
#[unsafe(no_mangle)]
pub extern "C" fn kotuseraw_snapshot_formed(s: &[u64], keys: usize) -> bool
    ensures { result ≡ snapshot_formed keys s.now }
{
    snapshot::snapshot_formed(s, keys)
}
