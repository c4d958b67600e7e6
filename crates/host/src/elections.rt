// The leader election of one node: its state goes by value and comes back.
ghost use Rattle.std.specs.Prelude.{◌≡◌};
ghost use Rattle.ballot_leader_election.specs.State.{laid_replies, laid_messages, formed};
ghost use Rattle.ballot_leader_election.specs.Calls.{set_priority, outgoing_mut, handle, new_hb_round, hb_timeout};
ghost use Rattle.ballot_leader_election.specs.Calls.{get_current_ballot, get_ballots};
ghost use Rattle.ballot_leader_election.specs.Run.{run, with_call, changed, told, handed_out, laid_by};
ghost use Rattle.host.specs.Plain.{nothing};
ghost use Rattle.host.specs.Requests.{of_flag};
ghost use Rattle.host.specs.Elections.{a_lead, election_as, taken_as, ballots_as, ballot_as};

use super::{ElectionBallot, ElectionBallots, ElectionReply, ElectionTaken, answers};
use ballot_leader_election::{BLEConfig, BLEMessage, BallotLeaderElection, forms};
use entry::{Ballot, Refusal};

fn ballot_said(answer: Result<Ballot, Refusal>) -> ElectionBallot
    ensures { result ≡ ballot_as (told answer) }
{
    match answer {
        Ok(ballot) => ElectionBallot {
            said: answers::tell(1, 0, 0),
            ballot,
        },
        Err(refusal) => ElectionBallot {
            said: answers::refuse(refusal),
            ballot: Ballot::with(0, 0, 0, 0),
        },
    }
}

// What a call says that was lent a state, and the state after it. A refusal returns at once: where each arm of the
// match makes a reply, all five thousand bytes of one are zeroed and copied once more.
fn reply(lent: BallotLeaderElection, answer: Result<BallotLeaderElection, Refusal>) -> ElectionReply
    ensures { result ≡ election_as nothing (changed lent answer) }
{
    let election = match answer {
        Ok(next) => next,
        Err(refusal) => {
            return ElectionReply {
                said: answers::refuse(refusal),
                election: lent,
            };
        }
    };
    ElectionReply {
        said: answers::tell(0, 0, 0),
        election,
    }
}

// Whether a node's state is well formed.
#[unsafe(no_mangle)]
pub extern "C" fn kotuseraw_election_well_formed(e: BallotLeaderElection) -> bool
    ensures { result ≡ formed e }
{
    ballot_leader_election::well_formed(e)
}

// A node that starts or, where `given`, starts again with the leader that it had promised to.
#[unsafe(no_mangle)]
pub extern "C" fn kotuseraw_election_with(
    config: BLEConfig,
    peers: &[u64],
    given: bool,
    leader: Ballot,
) -> ElectionReply
    ensures { result ≡ election_as nothing (with_call config peers.now (of_flag given leader)) }
{
    reply(
        forms::no_election(),
        ballot_leader_election::with(config, peers, given.then_some(leader)),
    )
}

// Sets the priority of the node's ballot.
#[unsafe(no_mangle)]
pub extern "C" fn kotuseraw_election_set_priority(e: BallotLeaderElection, p: u32) -> ElectionReply
    ensures { result ≡ election_as nothing (run (set_priority p) e) }
{
    reply(e, ballot_leader_election::set_priority(e, p))
}

// Takes the outgoing messages.
#[unsafe(no_mangle)]
pub extern "C" fn kotuseraw_election_outgoing_mut(e: BallotLeaderElection) -> ElectionTaken
    ensures { result ≡ taken_as (handed_out laid_messages (run outgoing_mut e)) }
{
    let (election, outgoing) = match ballot_leader_election::outgoing_mut(e) {
        Ok(taken) => taken,
        Err(refusal) => {
            return ElectionTaken {
                said: answers::refuse(refusal),
                outgoing: forms::no_messages(),
                election: e,
            };
        }
    };
    ElectionTaken {
        said: answers::tell(0, 0, 0),
        outgoing,
        election,
    }
}

// Handles a message.
#[unsafe(no_mangle)]
pub extern "C" fn kotuseraw_election_handle(e: BallotLeaderElection, m: BLEMessage) -> ElectionReply
    ensures { result ≡ election_as nothing (run (handle m) e) }
{
    reply(e, ballot_leader_election::handle(e, m))
}

// Begins a round.
#[unsafe(no_mangle)]
pub extern "C" fn kotuseraw_election_new_hb_round(e: BallotLeaderElection) -> ElectionReply
    ensures { result ≡ election_as nothing (run new_hb_round e) }
{
    reply(e, ballot_leader_election::new_hb_round(e))
}

// The end of a round. Tells 1 where the node leads, by the ballot that the state then has.
#[unsafe(no_mangle)]
pub extern "C" fn kotuseraw_election_hb_timeout(
    e: BallotLeaderElection,
    promise: Ballot,
) -> ElectionReply
    ensures { result ≡ election_as a_lead (run (hb_timeout promise) e) }
{
    let (election, leads) = match ballot_leader_election::hb_timeout(e, promise) {
        Ok(timed) => timed,
        Err(refusal) => {
            return ElectionReply {
                said: answers::refuse(refusal),
                election: e,
            };
        }
    };
    ElectionReply {
        said: answers::tell(u64::from(leads.is_some()), 0, 0),
        election,
    }
}

// The node's ballot.
#[unsafe(no_mangle)]
pub extern "C" fn kotuseraw_election_get_current_ballot(e: BallotLeaderElection) -> ElectionBallot
    ensures { result ≡ ballot_as (run get_current_ballot e).answer }
{
    ballot_said(ballot_leader_election::get_current_ballot(e))
}

// The replies of the round before.
#[unsafe(no_mangle)]
pub extern "C" fn kotuseraw_election_get_ballots(e: BallotLeaderElection) -> ElectionBallots
    ensures { result ≡ ballots_as (laid_by laid_replies (run get_ballots e).answer) }
{
    match ballot_leader_election::get_ballots(e) {
        Ok(replies) => ElectionBallots {
            said: answers::tell(0, 0, 0),
            replies,
        },
        Err(refusal) => ElectionBallots {
            said: answers::refuse(refusal),
            replies: forms::no_replies(),
        },
    }
}
