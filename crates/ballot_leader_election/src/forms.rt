// States and lists by value: when they are in form, and one element more; and values that hold nothing.
ghost use Rattle.std.specs.Prelude.{◌≡◌, true, false, MatchResult, ◌+◌, ◌<◌, [], drop, length, set};
ghost use Rattle.std.specs.List.{list_all};
ghost use Rattle.entry.specs.Order.{no_ballot};
ghost use Rattle.ballot_leader_election.specs.State.{no_reply, no_message, list_formed, formed};
ghost use Rattle.ballot_leader_election.specs.State.{laid_replies, laid_messages, no_election};
ghost use Rattle.ballot_leader_election.specs.Steps.{request};

use super::{BLEMessage, BallotLeaderElection, HeartbeatReply, Outgoing, Peers, Replies};
use entry::{Ballot, Refusal};

// A state that is well formed, as every call needs it.
#[derive(Clone, Copy)]
pub(crate) struct WellFormed<'a> {
    pub(crate) state: &'a BallotLeaderElection,
    ghost is_formed: { formed state.now ≡ true },
}

pub(crate) fn checked(e: &BallotLeaderElection) -> Result<WellFormed<'_>, Refusal>
    ensures { MatchResult result (λ w. w.state.now ≡ e.now) (λ r. (r ≡ Refusal.IllFormed) × (formed e.now ≡ false)) }
{
    if super::is_formed(e) {
        return Ok(WellFormed { state: e });
    }
    Err(Refusal::IllFormed)
}

pub(crate) fn no_ballot() -> Ballot
    ensures { result ≡ no_ballot }
{
    Ballot::with(0, 0, 0, 0)
}

pub(crate) fn no_reply() -> HeartbeatReply
    ensures { result ≡ no_reply }
{
    HeartbeatReply {
        round: 0,
        ballot: no_ballot(),
        leader: no_ballot(),
        happy: false,
    }
}

pub(crate) fn no_message() -> BLEMessage
    ensures { result ≡ no_message }
{
    BLEMessage {
        from: 0,
        to: 0,
        is_reply: false,
        reply: no_reply(),
    }
}

// What a reply in C holds beside a refusal: no replies, no messages, and a state of which every field is zero.
pub fn no_replies() -> Replies
    ensures { result ≡ laid_replies [] }
{
    Replies {
        count: 0,
        held: [no_reply(); super::REPLIES],
    }
}

pub fn no_messages() -> Outgoing
    ensures { result ≡ laid_messages [] }
{
    Outgoing {
        count: 0,
        held: [no_message(); super::OUTGOING],
    }
}

pub fn no_election() -> BallotLeaderElection
    ensures { result ≡ no_election }
{
    BallotLeaderElection {
        configuration_id: 0,
        pid: 0,
        peers: Peers {
            count: 0,
            held: [0; super::PEERS],
        },
        hb_round: 0,
        heartbeat_replies: no_replies(),
        prev_replies: no_replies(),
        current_ballot: no_ballot(),
        leader: no_ballot(),
        happy: false,
        outgoing: no_messages(),
    }
}

// A request of a round.
pub(crate) fn request(from: u64, to: u64, round: u32) -> BLEMessage
    ensures { result ≡ request from round to }
{
    BLEMessage {
        from,
        to,
        is_reply: false,
        reply: HeartbeatReply {
            round,
            ..no_reply()
        },
    }
}

// Whether all that is held from `from` on is blank.
fn blank_from<T: PartialEq>(held: &[T], from: usize, blank: &T) -> bool
    ensures { result ≡ list_all (λ x. T.eq x blank.now) (drop from held.now) }
{
    held.iter().skip(from).all(|x| x == blank)
}

// Whether a list is in form: no more are held than fit, and what is unused is blank.
pub(crate) fn list_formed<T: PartialEq>(count: usize, held: &[T], blank: &T) -> bool
    ensures { result ≡ list_formed (λ x. T.eq x blank.now) (length held.now) count held.now }
{
    let rest = blank_from(held, count, blank);
    count <= held.len() && rest
}

// One element more.
pub(crate) fn push<T: Copy>(count: &mut usize, held: &mut [T], x: T)
    requires { count.old < length held.old }
    ensures counted { count.new ≡ count.old + 1 }
    ensures kept { held.new ≡ set held.old count.old x }
{
    held[*count] = x;
    *count += 1;
}
