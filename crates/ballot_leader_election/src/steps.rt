// The steps of a timeout on where a node stands, in the Rust's order: the leader, happiness, the takeover and, after
// the new round, the promise.
ghost use Rattle.std.specs.Prelude.{◌≡◌, true, ◌+◌, ◌<◌, if◌then◌else◌};
ghost use Rattle.entry.specs.Limits.{last_round};
ghost use Rattle.ballot_leader_election.specs.State.{standing_in};
ghost use Rattle.ballot_leader_election.specs.Steps.{quorum, update_leader, update_happiness, takeover_due, taken_over};
ghost use Rattle.ballot_leader_election.specs.Steps.{promised, leading};
ghost use Rattle.ballot_leader_election.specs.Run.{ballot_is};
ghost use Rattle.ballot_leader_election.specs.Inner.{with_standing};

use super::{BallotLeaderElection, HeartbeatReply, seen};
use entry::Ballot;

// Where a node stands: its own ballot, the leader's, and whether it is happy with that.
#[derive(Clone, Copy, Debug, PartialEq, Eq)]
pub struct Standing {
    pub current_ballot: Ballot,
    pub leader: Ballot,
    pub happy: bool,
}

pub(crate) fn standing_of(e: &BallotLeaderElection) -> Standing
    ensures { result ≡ standing_in e.now }
{
    Standing {
        current_ballot: e.current_ballot,
        leader: e.leader,
        happy: e.happy,
    }
}

pub(crate) fn set_standing(e: &mut BallotLeaderElection, s: Standing)
    ensures { e.new ≡ with_standing s e.old }
{
    e.current_ballot = s.current_ballot;
    e.leader = s.leader;
    e.happy = s.happy;
}

// Whether the node itself and so many others are a majority of it and its peers.
fn is_quorum(peers: usize, others: usize) -> bool
    ensures { result ≡ quorum peers (others + 1) }
{
    peers.div_ceil(2) <= others
}

pub(crate) fn update_leader(s: Standing, replies: &[HeartbeatReply]) -> Standing
    ensures { result ≡ update_leader replies.now s }
{
    let Some(max) = seen::max_ballot(replies) else {
        return s;
    };
    if seen::above(max, s.leader) {
        return Standing { leader: max, ..s };
    }
    s
}

pub(crate) fn update_happiness(s: Standing, replies: &[HeartbeatReply], peers: usize) -> Standing
    ensures { result ≡ update_happiness peers replies.now s }
{
    let happy = if s.leader == s.current_ballot {
        let formed = is_quorum(peers, seen::potential_followers(replies, s.current_ballot));
        let larger = seen::larger_happy(replies, s.current_ballot);
        formed || larger
    } else {
        seen::leader_happy(replies, s.leader)
    };
    Standing { happy, ..s }
}

// Whether the node is to take over: it is unhappy, so is everyone who replied, and with itself they are a quorum.
pub(crate) fn takeover_due(s: Standing, replies: &[HeartbeatReply], peers: usize) -> bool
    ensures { result ≡ takeover_due peers replies.now s }
{
    let happy = seen::any_happy(replies);
    if s.happy || happy {
        return false;
    }
    is_quorum(peers, replies.len())
}

// A takeover goes past the leader's number.
pub(crate) fn check_takeover(s: Standing, due: bool) -> Standing
    requires { due ≡ true → s.leader.n < last_round }
    ensures { result ≡ (if due then taken_over s else s) }
{
    if !due {
        return s;
    }
    let mine = Ballot {
        n: s.leader.n + 1,
        ..s.current_ballot
    };
    Standing {
        current_ballot: mine,
        leader: mine,
        happy: true,
    }
}

// A promise above the leader is the leader, and the node's own ballot where it is of its pid.
pub(crate) fn sync_promise(s: Standing, pid: u64, promise: Ballot) -> Standing
    ensures { result ≡ promised pid promise s }
{
    if !seen::above(promise, s.leader) {
        return s;
    }
    let mine = if promise.pid == pid {
        promise
    } else {
        s.current_ballot
    };
    Standing {
        current_ballot: mine,
        leader: promise,
        happy: true,
    }
}

// The node's ballot where it leads.
pub(crate) fn leads(s: Standing) -> Option<Ballot>
    ensures { ballot_is result ≡ leading s }
{
    if s.leader == s.current_ballot {
        return Some(s.current_ballot);
    }
    None
}
