// What is printed: where a node stands after its timeout, and what became of messages.
use super::cluster::Tally;
use ballot_leader_election::BallotLeaderElection;
use std::io;

// Who is the leader for a node, by which ballot, its own ballot, whether it is happy, and whether it leads.
pub(crate) fn stands(rt: &impl Print, e: BallotLeaderElection, leads: bool) -> io::Result<()> {
    let (leader, mine) = (e.leader, e.current_ballot);
    print!(rt; "node {}: leader {} n {} ", e.pid, leader.pid, leader.n)?;
    print!(rt;
        "priority {}, own n {} priority {}, ",
        leader.priority, mine.n, mine.priority
    )?;
    let mood = if e.happy { "happy" } else { "unhappy" };
    let does = if leads { "leads" } else { "follows" };
    println!(rt; "{mood}, {does}")
}

pub(crate) fn delivered(rt: &impl Print, tally: Tally) -> io::Result<()> {
    println!(rt;
        "delivered {} lost {} refused {}",
        tally.handed, tally.lost, tally.refused
    )
}
