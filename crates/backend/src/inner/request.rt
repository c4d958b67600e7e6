// Whether the arguments of an operation list's call are in form.
ghost use Rattle.std.specs.Prelude.{◌≡◌, ◌&&◌, [], ◌≤◌};
ghost use Rattle.words.specs.All.{all_of};
ghost use Rattle.entry.specs.Limits.{most_ops};
ghost use Rattle.model.specs.Backend.{supplied, ops_formed};
ghost use Rattle.backend.specs.Ops.{op_of, ops_in, lent_of, incoming_formed, whole_list};

use super::super::{Lent, OPERATIONS, Op, OpKind, OpList};

// Whether what an operation needs is lent.
fn supplied(lent: Lent, o: Op) -> bool
    ensures { result ≡ supplied (lent_of lent [] []) (op_of o) }
{
    let kind = o.kind;
    match kind {
        OpKind::AppendEntries => true,
        OpKind::AppendOnPrefix => true,
        OpKind::SetPromise => true,
        OpKind::SetDecidedIndex => true,
        OpKind::SetAcceptedRound => true,
        OpKind::SetCompactedIdx => true,
        OpKind::Trim => true,
        OpKind::SetStopsign => !o.given | lent.stop_lent,
        OpKind::SetSnapshot => !o.given | lent.snapshot_lent,
    }
}

// Whether what each operation needs is lent.
fn all_supplied(lent: Lent, list: OpList) -> bool
    requires { list.count ≤ most_ops }
    ensures { result ≡ all_of (supplied (lent_of lent [] [])) (ops_in list) }
{
    list.ops[..list.count].iter().all(|o| supplied(lent, *o))
}

// Whether the incoming slice is in form: its length always, the rest where a snapshot is lent.
fn incoming_formed(lent: Lent, incoming: &[u64]) -> bool
    ensures { result ≡ incoming_formed lent incoming.now }
{
    let fine = snapshot::snapshot_formed(incoming, lent.keys);
    let long = incoming.len() == entry::SNAPSHOT_WORDS;
    long & (!lent.snapshot_lent | fine)
}

// Whether the arguments are in form: else refusal 11.
pub fn request_formed(entries: &[u64], incoming: &[u64], lent: Lent, list: OpList) -> bool
    ensures { result
        ≡ (whole_list lent entries.now incoming.now list
        && ops_formed (lent_of lent entries.now incoming.now) (ops_in list)) }
{
    let count = list.count;
    let stop = lent.stop;
    if OPERATIONS < count {
        return false;
    }
    let fine = entry::entries_formed(entries);
    let keys = incoming_formed(lent, incoming);
    let sign = entry::sign_formed(stop);
    let ready = all_supplied(lent, list);
    fine & (keys & ((!lent.stop_lent | sign) & ((1 <= count) & ready)))
}
