// A cluster: its nodes, numbered from 1, and the links between them that are cut.
ghost use Rattle.std.specs.Prelude.{◌<◌};
ghost use Rattle.election.specs.Sizes.{most_nodes};

use super::lines::{Command, Place};
use super::{lines, show};
use ballot_leader_election::{BLEConfig, BLEMessage, BallotLeaderElection, forms};
use entry::Ballot;
use std::io;

const NODES: usize = super::NUMBERS;

// The first `count` of the nodes are there; memory is fixed, so that the array has room for the most.
#[derive(Clone, Copy)]
pub struct Cluster {
    pub count: usize,
    pub nodes: [BallotLeaderElection; NODES],
    pub cut: [[bool; NODES]; NODES],
}

// What became of the messages that were to be delivered.
#[derive(Clone, Copy, Default)]
pub struct Tally {
    pub handed: u64,
    pub lost: u64,
    pub refused: u64,
}

// The node at `at` of so many, with all others as its peers.
fn start(count: usize, at: usize, priority: u32, recovered: Option<Ballot>) -> BallotLeaderElection
    requires { at < most_nodes }
{
    let pid = at as u64 + 1;
    let nodes = count.min(NODES);
    let mut peers = [0; NODES];
    for (peer, other) in peers
        .iter_mut()
        .zip((1..=nodes as u64).filter(|p| *p != pid))
    {
        *peer = other;
    }
    let config = BLEConfig {
        configuration_id: lines::CONFIGURATION,
        pid,
        priority,
    };
    ballot_leader_election::with(config, &peers[..nodes.saturating_sub(1)], recovered).unwrap_or(
        forms::no_election(),
    )
}

impl Cluster {
    pub(crate) fn none() -> Cluster {
        Cluster {
            count: 0,
            nodes: [forms::no_election(); NODES],
            cut: [[false; NODES]; NODES],
        }
    }

    // So many nodes, with these priorities, and every link whole.
    fn begin(count: usize, priorities: [u32; NODES]) -> Cluster {
        let mut c = Cluster::none();
        c.count = count;
        for at in 0..count.min(NODES) {
            c.nodes[at] = start(count, at, priorities[at], None);
        }
        c
    }

    // Cuts or mends the link between two nodes, or all links of one, both ways.
    fn link(&mut self, a: Place, whom: Option<Place>, cut: bool) {
        let Some(b) = whom else {
            self.cut[a.at] = [cut; NODES];
            for row in &mut self.cut {
                row[a.at] = cut;
            }
            return;
        };
        self.cut[a.at][b.at] = cut;
        self.cut[b.at][a.at] = cut;
    }

    // The end of a node's round.
    fn time_out(&mut self, rt: &impl Print, of: Place, promise: Ballot) -> io::Result<()> {
        match ballot_leader_election::hb_timeout(self.nodes[of.at], promise) {
            Ok((next, led)) => {
                self.nodes[of.at] = next;
                show::stands(rt, next, led.is_some())
            }
            Err(refusal) => println!(rt; "refused {}", entry::number(refusal)),
        }
    }

    fn set_priority(&mut self, of: Place, p: u32) {
        if let Ok(next) = ballot_leader_election::set_priority(self.nodes[of.at], p) {
            self.nodes[of.at] = next;
        }
    }

    // A node starts again, with its last priority and with the leader that it had.
    fn restart(&mut self, of: Place) {
        let node = self.nodes[of.at];
        let priority = node.current_ballot.priority;
        self.nodes[of.at] = start(self.count, of.at, priority, Some(node.leader));
    }

    // Hands a message over, unless its link is cut.
    fn hand_over(&mut self, m: BLEMessage, tally: &mut Tally) {
        let (Some(from), Some(to)) = (lines::place_of(NODES, m.from), lines::place_of(NODES, m.to))
        else {
            return;
        };
        if self.cut[from.at][to.at] {
            tally.lost = tally.lost.wrapping_add(1);
            return;
        }
        match ballot_leader_election::handle(self.nodes[to.at], m) {
            Ok(next) => {
                self.nodes[to.at] = next;
                tally.handed = tally.handed.wrapping_add(1);
            }
            Err(_) => tally.refused = tally.refused.wrapping_add(1),
        }
    }

    // Takes the messages of a node, and hands each over.
    fn deliver_from(&mut self, of: Place, tally: &mut Tally) {
        let Ok((next, outgoing)) = ballot_leader_election::outgoing_mut(self.nodes[of.at]) else {
            return;
        };
        self.nodes[of.at] = next;
        for m in outgoing.held.iter().take(outgoing.count) {
            self.hand_over(*m, tally);
        }
    }

    // The messages that wait at a node; or those at each node in turn and then, once more, the replies to those.
    fn deliver(&mut self, whom: Option<Place>) -> Tally {
        let mut tally = Tally::default();
        if let Some(of) = whom {
            self.deliver_from(of, &mut tally);
            return tally;
        }
        for _ in 0..2 {
            for at in 0..NODES {
                self.deliver_from(Place { at }, &mut tally);
            }
        }
        tally
    }

    // Does what a line says, and prints what answers it.
    pub(crate) fn carry_out(
        &mut self,
        rt: &impl Print,
        command: Option<Command>,
    ) -> io::Result<()> {
        match command {
            None => return println!(rt; "bad line"),
            Some(Command::Deliver(whom)) => return show::delivered(rt, self.deliver(whom)),
            Some(Command::Timeout(of, promise)) => return self.time_out(rt, of, promise),
            Some(Command::Nodes { count, priorities }) => *self = Cluster::begin(count, priorities),
            Some(Command::Link(a, whom, cut)) => self.link(a, whom, cut),
            Some(Command::Priority(of, p)) => self.set_priority(of, p),
            Some(Command::Restart(of)) => self.restart(of),
        }
        println!(rt; "ok")
    }
}
