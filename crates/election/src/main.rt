// Plays a cluster of nodes that elect a leader, by the lines of standard input, and prints what each answers. Nothing is
// sent or timed but by a line, so that an election can be watched, and told again.
#![tactic(auto)]

use cluster::Cluster;
use input::Input;
use std::io;

mod cluster;
mod input;
mod lines;
mod show;

// The most numbers of a line: a priority for each of a node and its peers.
pub const NUMBERS: usize = ballot_leader_election::PEERS + 1;

// The longest line that is no bad line: its first word, and numbers, each after a space.
pub const LINE: usize = 8 + NUMBERS * (1 + text::DIGITS);

fn main(rt: HostRuntime) -> io::Result<()> {
    let mut stdin = rt.stdin();
    let mut input = Input::new();
    let mut cluster = Cluster::none();
    // Nothing says that input ends: the turns are counted.
    for _ in 0..u64::MAX {
        if !input.more {
            break;
        }
        if input.step(&mut stdin)? {
            let command = input
                .line()
                .and_then(|line| lines::parse(cluster.count, line));
            cluster.carry_out(&rt, command)?;
            input.next();
        }
    }
    Ok(())
}
