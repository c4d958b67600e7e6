// A lent slice of operations as a list by value.
ghost use Rattle.std.specs.Prelude.{◌≡◌};
ghost use Rattle.backend.specs.Inner.{no_ops, put_of, put_all};

use super::super::{OPERATIONS, Op, OpKind, OpList, TOO_MANY};
use entry::{Ballot, LogIndex};

// A list of no operations.
pub fn empty() -> OpList
    ensures { result ≡ no_ops }
{
    let o = Op {
        kind: OpKind::AppendEntries,
        index: LogIndex(0),
        ballot: Ballot::with(0, 0, 0, 0),
        given: false,
    };
    OpList {
        count: 0,
        ops: [o; OPERATIONS],
    }
}

// One operation more; one too many is counted and not kept.
pub fn put(list: OpList, o: Op) -> OpList
    ensures { result ≡ put_of list o }
{
    if list.count < OPERATIONS {
        let mut ops = list.ops;
        ops[list.count] = o;
        return OpList {
            count: list.count + 1,
            ops,
        };
    }
    OpList {
        count: TOO_MANY,
        ..list
    }
}

// The lent operations as a value: each is put in turn.
pub fn gather(ops: &[Op]) -> OpList
    ensures { result ≡ put_all no_ops ops.now }
{
    ops.iter().fold(empty(), |list, o| put(list, *o))
}
