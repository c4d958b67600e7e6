// Rounds and messages: how a node starts, what it sends, what it keeps, and the end of a round. What is
// refused is decided before anything is made. A state has five thousand bytes, so that it is changed in place: each
// copy of it costs as much as the rest of a call.
ghost use Rattle.std.specs.Prelude.{◌≡◌, map, ◌++◌, ◌≤◌, ◌&&◌, ◌||◌, eqb, length};
ghost use Rattle.entry.specs.Limits.{most_peers, last_round};
ghost use Rattle.entry.specs.Guards.{said_by};
ghost use Rattle.ballot_leader_election.specs.State.{peers_in, messages_in, election_of, laid_peers, laid_messages};
ghost use Rattle.ballot_leader_election.specs.State.{laid_election};
ghost use Rattle.ballot_leader_election.specs.Steps.{request, new_round, reply_from, requested, replying, starting_at};
ghost use Rattle.ballot_leader_election.specs.Steps.{initial, leading, timed_out, ours};
ghost use Rattle.ballot_leader_election.specs.Calls.{request_guards, reply_guards, round_guards, timeout_guards};
ghost use Rattle.ballot_leader_election.specs.Run.{outcome, told, ballot_is};
ghost use Rattle.ballot_leader_election.specs.Inner.{Listed, Begins, comes_formed};

use super::steps::Standing;
use super::{
    BLEConfig, BLEMessage, BallotLeaderElection, HeartbeatReply, Outgoing, Peers, forms, steps,
};
use entry::{Ballot, Refusal};

// A request of the round to each peer.
fn send_requests(outgoing: &mut Outgoing, peers: Peers, from: u64, round: u32)
    requires { Listed peers outgoing.old }
    ensures { outgoing.new ≡ laid_messages (messages_in outgoing.old ++ map (request from round) (peers_in peers)) }
{
    for to in &peers.held[..peers.count] {
        forms::push(
            &mut outgoing.count,
            &mut outgoing.held,
            forms::request(from, *to, round),
        );
    }
}

// The next round begins: there is room for its requests, and the round has not its largest number.
pub(crate) fn new_round(e: &mut BallotLeaderElection)
    requires { Begins e.old }
    ensures { e.new ≡ laid_election (new_round (election_of e.old)) }
{
    e.hb_round += 1;
    e.prev_replies = e.heartbeat_replies;
    e.heartbeat_replies = forms::no_replies();
    send_requests(&mut e.outgoing, e.peers, e.pid, e.hb_round);
}

fn lent_peers(peers: &[u64]) -> Peers
    requires { length peers.now ≤ most_peers }
    ensures { result ≡ laid_peers peers.now }
{
    let count = peers.len();
    let mut held = [0; super::PEERS];
    held[..count].copy_from_slice(peers);
    Peers { count, held }
}

// A node takes itself for the leader, or the one that it recovered, if that is not the default ballot: then it starts
// below every ballot, so that it cannot lead by one that it had before.
fn start(config: BLEConfig, recovered: Option<Ballot>) -> Standing
    ensures { result ≡ starting_at config (ballot_is recovered) }
{
    let mut mine = Ballot::with(
        config.configuration_id,
        super::INITIAL_ROUND,
        config.priority,
        config.pid,
    );
    let new = Standing {
        current_ballot: mine,
        leader: mine,
        happy: true,
    };
    let Some(leader) = recovered else {
        return new;
    };
    if leader == forms::no_ballot() {
        return new;
    }
    mine.n = super::RECOVERY_ROUND;
    Standing {
        current_ballot: mine,
        leader,
        happy: true,
    }
}

// A node before its first round.
pub(crate) fn initial(
    config: BLEConfig,
    peers: &[u64],
    recovered: Option<Ballot>,
) -> BallotLeaderElection
    requires { length peers.now ≤ most_peers }
    ensures { result ≡ laid_election (initial config peers.now (ballot_is recovered)) }
{
    let s = start(config, recovered);
    BallotLeaderElection {
        configuration_id: config.configuration_id,
        pid: config.pid,
        peers: lent_peers(peers),
        hb_round: 0,
        heartbeat_replies: forms::no_replies(),
        prev_replies: forms::no_replies(),
        current_ballot: s.current_ballot,
        leader: s.leader,
        happy: s.happy,
        outgoing: forms::no_messages(),
    }
}

// The reply to a request: where the node stands.
fn reply_to(e: &BallotLeaderElection, to: u64, round: u32) -> BLEMessage
    ensures { result ≡ reply_from (election_of e.now) to round }
{
    BLEMessage {
        from: e.pid,
        to,
        is_reply: true,
        reply: HeartbeatReply {
            round,
            ballot: e.current_ballot,
            leader: e.leader,
            happy: e.happy,
        },
    }
}

// A request is replied to.
pub(crate) fn handle_request(
    e: &mut BallotLeaderElection,
    from: u64,
    round: u32,
) -> Result<(), Refusal>
    ensures { outcome (told result) e.new
        ≡ comes_formed (request_guards (election_of e.old)) tt (requested from round (election_of e.old)) e.old }
{
    forms::checked(e)?;
    if super::OUTGOING <= e.outgoing.count {
        return Err(Refusal::OutgoingShort);
    }
    let reply = reply_to(e, from, round);
    forms::push(&mut e.outgoing.count, &mut e.outgoing.held, reply);
    Ok(())
}

// Whether a reply is of the node's round and configuration.
fn is_ours(e: &BallotLeaderElection, rep: HeartbeatReply) -> bool
    ensures { result ≡ ours rep (election_of e.now) }
{
    rep.round == e.hb_round && rep.ballot.config_id == e.configuration_id
}

// A reply of another round, or of another configuration, is of no use, and nothing changes.
pub(crate) fn handle_reply(e: &mut BallotLeaderElection, rep: HeartbeatReply) -> Result<(), Refusal>
    ensures { outcome (told result) e.new
        ≡ comes_formed (reply_guards rep (election_of e.old)) tt (replying rep (election_of e.old)) e.old }
{
    forms::checked(e)?;
    if !is_ours(e, rep) {
        return Ok(());
    }
    if super::REPLIES <= e.heartbeat_replies.count {
        return Err(Refusal::RepliesFull);
    }
    forms::push(
        &mut e.heartbeat_replies.count,
        &mut e.heartbeat_replies.held,
        rep,
    );
    Ok(())
}

// A round begins where it can.
pub(crate) fn new_round_at(e: &mut BallotLeaderElection) -> Result<(), Refusal>
    ensures { outcome (told result) e.new
        ≡ comes_formed (round_guards (election_of e.old)) tt (new_round (election_of e.old)) e.old }
{
    forms::checked(e)?;
    if super::OUTGOING < e.outgoing.count + e.peers.count {
        return Err(Refusal::OutgoingShort);
    }
    if e.hb_round == super::LAST_ROUND {
        return Err(Refusal::AtLargest);
    }
    new_round(e);
    Ok(())
}

// Whether the round, or with a takeover the leader's number, is at its largest.
fn is_spent(round: u32, leader: Ballot, due: bool) -> bool
    ensures { result ≡ (eqb round last_round || (due && eqb leader.n last_round)) }
{
    round == super::LAST_ROUND || due && leader.n == super::LAST_ROUND
}

// The end of a round: the leader, happiness, the takeover, the new round, the promise.
pub(crate) fn time_out(
    e: &mut BallotLeaderElection,
    promise: Ballot,
) -> Result<Option<Ballot>, Refusal>
    ensures { outcome (said_by ballot_is result) e.new
        ≡ comes_formed (timeout_guards (election_of e.old)) (leading (timed_out promise (election_of e.old)).standing)
        (timed_out promise (election_of e.old)) e.old }
{
    forms::checked(e)?;
    let replies = &e.heartbeat_replies.held[..e.heartbeat_replies.count];
    let peers = e.peers.count;
    let updated = steps::update_leader(steps::standing_of(e), replies);
    let judged = steps::update_happiness(updated, replies, peers);
    let due = steps::takeover_due(judged, replies, peers);
    let full = super::OUTGOING < e.outgoing.count + peers;
    let spent = is_spent(e.hb_round, judged.leader, due);
    if full {
        return Err(Refusal::OutgoingShort);
    }
    if spent {
        return Err(Refusal::AtLargest);
    }
    let taken = steps::check_takeover(judged, due);
    new_round(e);
    let stands = steps::sync_promise(taken, e.pid, promise);
    steps::set_standing(e, stands);
    Ok(steps::leads(stands))
}
