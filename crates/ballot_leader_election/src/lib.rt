// The leader election of document 003, request E8 of document 02. It stands apart from the log: a node's state goes
// into a call by value and comes back in the answer. A contract is one equation: the answer and the whole state
// after the call, which where it is refused is the one that was lent. Names are the Rust's.
#![tactic(auto)]

ghost use Rattle.std.specs.Prelude.{◌≡◌};
ghost use Rattle.ballot_leader_election.specs.State.{laid_replies, laid_messages, formed, no_election};
ghost use Rattle.ballot_leader_election.specs.Calls.{set_priority, outgoing_mut, handle, new_hb_round, hb_timeout};
ghost use Rattle.ballot_leader_election.specs.Calls.{get_current_ballot, get_ballots};
ghost use Rattle.ballot_leader_election.specs.Run.{outcome, run, with_call, ballot_is, told, changed, changed_at};
ghost use Rattle.ballot_leader_election.specs.Run.{handed_out};

use entry::{Ballot, Refusal};

pub mod forms;
mod rounds;
mod seen;
mod steps;

// Peers of a node, replies of a round, and outgoing messages at most.
pub const PEERS: usize = 6;

pub const REPLIES: usize = 16;

pub const OUTGOING: usize = 32;

// The largest round, and the largest number of a ballot.
pub const LAST_ROUND: u32 = 4_294_967_295;

// A ballot's number in a node that is new, and in one that is recovered.
const INITIAL_ROUND: u32 = 1;

const RECOVERY_ROUND: u32 = 0;

// The pid that no node has.
const NO_PID: u64 = 0;

// A reply to a heartbeat: of which round, and where its sender stood.
#[repr(C)]
#[derive(Clone, Copy, Debug, PartialEq, Eq)]
pub struct HeartbeatReply {
    pub round: u32,
    pub ballot: Ballot,
    pub leader: Ballot,
    pub happy: bool,
}

// A message from one node to another: the reply to a heartbeat, or the request of one, which has a round and nothing
// else of a reply. It has a flag and is no enum because of the C interface, which takes none.
#[repr(C)]
#[derive(Clone, Copy, Debug, PartialEq, Eq)]
pub struct BLEMessage {
    pub from: u64,
    pub to: u64,
    pub is_reply: bool,
    pub reply: HeartbeatReply,
}

// Lists by value: the first `count` elements are held, and the others are zero. They are three and not one generic
// struct because of the C interface: an exported function's struct has no type or const parameters.
#[repr(C)]
#[derive(Clone, Copy, Debug, PartialEq, Eq)]
pub struct Peers {
    pub count: usize,
    pub held: [u64; PEERS],
}

#[repr(C)]
#[derive(Clone, Copy, Debug, PartialEq, Eq)]
pub struct Replies {
    pub count: usize,
    pub held: [HeartbeatReply; REPLIES],
}

#[repr(C)]
#[derive(Clone, Copy, Debug, PartialEq, Eq)]
pub struct Outgoing {
    pub count: usize,
    pub held: [BLEMessage; OUTGOING],
}

// A node's state.
#[repr(C)]
#[derive(Clone, Copy, Debug, PartialEq, Eq)]
pub struct BallotLeaderElection {
    pub configuration_id: u32,
    pub pid: u64,
    pub peers: Peers,
    pub hb_round: u32,
    pub heartbeat_replies: Replies,
    pub prev_replies: Replies,
    pub current_ballot: Ballot,
    pub leader: Ballot,
    pub happy: bool,
    pub outgoing: Outgoing,
}

// What a node starts from, beside its peers.
#[repr(C)]
#[derive(Clone, Copy, Debug, PartialEq, Eq)]
pub struct BLEConfig {
    pub configuration_id: u32,
    pub pid: u64,
    pub priority: u32,
}

// Document 02's "well formed": the own number is not above the leader's, no list has more than fits, what is unused is
// zero, and the node has a pid.
pub fn well_formed(e: BallotLeaderElection) -> bool
    ensures { result ≡ formed e }
{
    is_formed(&e)
}

// The same of a state by reference: a test copies none of its five thousand bytes.
fn is_formed(e: &BallotLeaderElection) -> bool
    ensures { result ≡ formed e.now }
{
    let (reply, message) = (forms::no_reply(), forms::no_message());
    let peers = forms::list_formed(e.peers.count, &e.peers.held, &0);
    let replies = forms::list_formed(e.heartbeat_replies.count, &e.heartbeat_replies.held, &reply);
    let prev = forms::list_formed(e.prev_replies.count, &e.prev_replies.held, &reply);
    let outgoing = forms::list_formed(e.outgoing.count, &e.outgoing.held, &message);
    (e.current_ballot.n <= e.leader.n)
        & ((e.pid != NO_PID) & (peers & (replies & (prev & outgoing))))
}

// A node that starts, or starts again with the leader that it had promised to: round 1 has begun.
pub fn with(
    config: BLEConfig,
    peers: &[u64],
    recovered: Option<Ballot>,
) -> Result<BallotLeaderElection, Refusal>
    ensures { changed no_election result ≡ with_call config peers.now (ballot_is recovered) }
{
    if config.pid == NO_PID || PEERS < peers.len() {
        return Err(Refusal::Malformed);
    }
    let mut start = rounds::initial(config, peers, recovered);
    rounds::new_round(&mut start);
    Ok(start)
}

// Sets the priority that the node's ballot has from now on.
pub fn set_priority(e: BallotLeaderElection, p: u32) -> Result<BallotLeaderElection, Refusal>
    ensures { changed e result ≡ run (set_priority p) e }
{
    forms::checked(&e)?;
    let mut next = e;
    next.current_ballot.priority = p;
    Ok(next)
}

// The outgoing messages, which leave the state: the Rust hands out its list, and its users empty that.
pub fn outgoing_mut(e: BallotLeaderElection) -> Result<(BallotLeaderElection, Outgoing), Refusal>
    ensures { changed_at (λ l. l) e result ≡ handed_out laid_messages (run outgoing_mut e) }
{
    forms::checked(&e)?;
    let next = BallotLeaderElection {
        outgoing: forms::no_messages(),
        ..e
    };
    Ok((next, e.outgoing))
}

// Handles a message: a request is replied to, a reply of this round is kept.
pub fn handle(e: BallotLeaderElection, m: BLEMessage) -> Result<BallotLeaderElection, Refusal>
    ensures { changed e result ≡ run (handle m) e }
{
    let mut next = e;
    if m.is_reply {
        rounds::handle_reply(&mut next, m.reply)?;
    } else {
        rounds::handle_request(&mut next, m.from, m.reply.round)?;
    }
    Ok(next)
}

// Begins a round: the replies of the last one are kept aside, and every peer is sent a request.
pub fn new_hb_round(e: BallotLeaderElection) -> Result<BallotLeaderElection, Refusal>
    ensures { changed e result ≡ run new_hb_round e }
{
    let mut next = e;
    rounds::new_round_at(&mut next)?;
    Ok(next)
}

// The end of a round, by what came in it and by what Sequence Paxos has promised: the node's ballot where it leads.
pub fn hb_timeout(
    e: BallotLeaderElection,
    promise: Ballot,
) -> Result<(BallotLeaderElection, Option<Ballot>), Refusal>
    ensures { changed_at ballot_is e result ≡ run (hb_timeout promise) e }
{
    let mut next = e;
    let leads = rounds::time_out(&mut next, promise)?;
    Ok((next, leads))
}

pub fn get_current_ballot(e: BallotLeaderElection) -> Result<Ballot, Refusal>
    ensures { outcome (told result) e ≡ run get_current_ballot e }
{
    Ok(forms::checked(&e)?.state.current_ballot)
}

// The replies of the round before.
pub fn get_ballots(e: BallotLeaderElection) -> Result<Replies, Refusal>
    ensures { outcome (told result) e ≡ handed_out laid_replies (run get_ballots e) }
{
    Ok(forms::checked(&e)?.state.prev_replies)
}
