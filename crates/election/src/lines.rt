// What a line asks for.
ghost use Rattle.std.specs.Prelude.{◌<◌};
ghost use Rattle.election.specs.Sizes.{most_nodes};

use entry::Ballot;

// The configuration that all nodes are of.
pub const CONFIGURATION: u32 = 1;

// Where a node stands among those that a cluster may have.
#[derive(Clone, Copy)]
pub struct Place {
    pub at: usize,
    ghost is_one: { at < most_nodes },
}

// A line, with the places of the nodes that it names; where it may name all nodes, `None` is all.
#[derive(Clone, Copy)]
pub enum Command {
    Nodes {
        count: usize,
        priorities: [u32; super::NUMBERS],
    },
    Link(Place, Option<Place>, bool),
    Deliver(Option<Place>),
    Timeout(Place, Ballot),
    Priority(Place, u32),
    Restart(Place),
}

// The numbers that some words spell, one space between each: none where a word is no number, or they are too many. They
// stand at the front of an array, with their count beside it, since memory is fixed.
fn numbers(s: &[u8]) -> Option<([u64; super::NUMBERS], usize)> {
    let mut held = [0; super::NUMBERS];
    let mut count = 0;
    for word in s.split(|b| *b == b' ') {
        *held.get_mut(count)? = text::inner::number(word)?;
        count += 1;
    }
    Some((held, count))
}

// The place of the node with a pid, of so many.
pub(crate) fn place_of(nodes: usize, pid: u64) -> Option<Place> {
    let at = usize::try_from(pid.checked_sub(1)?).ok()?;
    if at < nodes && at < super::NUMBERS {
        return Some(Place { at });
    }
    None
}

fn narrow(n: u64) -> Option<u32> {
    u32::try_from(n).ok()
}

fn nodes(numbers: &[u64]) -> Option<Command> {
    let mut priorities = [0; super::NUMBERS];
    for (to, n) in priorities.iter_mut().zip(numbers) {
        *to = narrow(*n)?;
    }
    Some(Command::Nodes {
        count: numbers.len(),
        priorities,
    })
}

// A link, or all of a node's, cut or mended.
fn link(nodes: usize, numbers: &[u64], cut: bool) -> Option<Command> {
    match numbers {
        [a] => Some(Command::Link(place_of(nodes, *a)?, None, cut)),
        [a, b] if a != b => Some(Command::Link(
            place_of(nodes, *a)?,
            Some(place_of(nodes, *b)?),
            cut,
        )),
        _ => None,
    }
}

// A timeout, with the ballot that Sequence Paxos has promised, or with none.
fn timeout(of: Place, promised: &[u64]) -> Option<Command> {
    match promised {
        [] => Some(Command::Timeout(of, Ballot::with(0, 0, 0, 0))),
        [n, priority, pid] => Some(Command::Timeout(
            of,
            Ballot::with(CONFIGURATION, narrow(*n)?, narrow(*priority)?, *pid),
        )),
        _ => None,
    }
}

// A line whose first number names a node; the others follow.
fn of_node(word: &[u8], of: Place, others: &[u64]) -> Option<Command> {
    match (word, others) {
        (b"timeout", promised) => timeout(of, promised),
        (b"priority", [p]) => Some(Command::Priority(of, narrow(*p)?)),
        (b"deliver", []) => Some(Command::Deliver(Some(of))),
        (b"restart", []) => Some(Command::Restart(of)),
        _ => None,
    }
}

fn numbered(count: usize, word: &[u8], numbers: &[u64]) -> Option<Command> {
    match word {
        b"nodes" => nodes(numbers),
        b"cut" => link(count, numbers, true),
        b"mend" => link(count, numbers, false),
        _ => {
            let (pid, others) = numbers.split_first()?;
            of_node(word, place_of(count, *pid)?, others)
        }
    }
}

// What a line means, of so many nodes; none where it is no such line.
pub(crate) fn parse(count: usize, s: &[u8]) -> Option<Command> {
    if s == b"deliver".as_slice() {
        return Some(Command::Deliver(None));
    }
    let e = text::inner::gap(s, b' ');
    if e == s.len() {
        return None;
    }
    let (held, n) = numbers(&s[e + 1..])?;
    numbered(count, &s[..e], held.get(..n)?)
}
