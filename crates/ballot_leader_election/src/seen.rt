// What the replies of a round show; a repeated one counts twice.
ghost use Rattle.std.specs.Prelude.{◌≡◌};
ghost use Rattle.ballot_leader_election.specs.Steps.{above, later_of, max_ballot, potential_followers};
ghost use Rattle.ballot_leader_election.specs.Steps.{any_happy, leader_happy, larger_happy};

use super::HeartbeatReply;
use entry::Ballot;

// Whether a is greater than b.
pub(crate) fn above(a: Ballot, b: Ballot) -> bool
    ensures { result ≡ above a b }
{
    a.cmp(b).is_gt()
}

// The greater of two, and of equal ones the second.
fn later(a: Ballot, b: Ballot) -> Ballot
    ensures { result ≡ later_of a b }
{
    if above(a, b) { a } else { b }
}

// The Rust's `max()` over the ballots of the replies.
pub(crate) fn max_ballot(replies: &[HeartbeatReply]) -> Option<Ballot>
    ensures { result ≡ max_ballot replies.now }
{
    let (first, rest) = replies.split_first()?;
    Some(
        rest.iter()
            .fold(first.ballot, |max, r| later(max, r.ballot)),
    )
}

// How many replies have a leader that is not above a ballot.
pub(crate) fn potential_followers(replies: &[HeartbeatReply], mine: Ballot) -> usize
    ensures { result ≡ potential_followers mine replies.now }
{
    replies.iter().filter(|r| !above(r.leader, mine)).count()
}

// Whether anyone who replied is happy.
pub(crate) fn any_happy(replies: &[HeartbeatReply]) -> bool
    ensures { result ≡ any_happy replies.now }
{
    replies.iter().any(|r| r.happy)
}

// Whether the leader replied, and is happy.
pub(crate) fn leader_happy(replies: &[HeartbeatReply], leader: Ballot) -> bool
    ensures { result ≡ leader_happy leader replies.now }
{
    replies.iter().any(|r| r.ballot == leader && r.happy)
}

// Whether someone is happy with a leader that is above a ballot.
pub(crate) fn larger_happy(replies: &[HeartbeatReply], mine: Ballot) -> bool
    ensures { result ≡ larger_happy mine replies.now }
{
    replies.iter().any(|r| above(r.leader, mine) && r.happy)
}
