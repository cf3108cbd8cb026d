//! What is so of packets, of the table, and of all runs of a leader and its follower.

ghost use Rattle.standby.specs.Once.{AnswersOnce, OnePacket};
ghost use Rattle.standby.specs.Reaches.{ReachesAll};
ghost use Rattle.standby.specs.Runs.{FollowsItsLeader, NeverMalformed};

use state_codec::{bounds_are_low, snapshots_are_short, snapshots_have_one_spelling};

/// In every run of a leader and a follower, whatever is lost, repeated or reordered, the follower's state is that of a
/// history from which the leader's durable history goes on, and no number that it ever acknowledged is greater than the
/// length of that history.
pub fn follows_its_leader()
    ensures law { FollowsItsLeader }
{
    snapshots_have_one_spelling();
    bounds_are_low();
}

/// A packet that a leader offered is never malformed to its follower.
pub fn never_malformed()
    ensures law { NeverMalformed }
{
    snapshots_have_one_spelling();
    bounds_are_low();
}

/// The packets that a leader offers behind the number of events that a follower has bring this one to the leader's whole
/// history, where each of them is taken once.
pub fn leader_reaches_all()
    ensures law { ReachesAll }
{
    snapshots_have_one_spelling();
    snapshots_are_short();
    bounds_are_low();
}

/// The table gives one answer, and one way to go on.
pub fn answers_once()
    ensures law { AnswersOnce }
{
    snapshots_have_one_spelling();
    bounds_are_low();
}

/// Octets are the packet of one list of events behind one number of others, or of one piece of a snapshot, and never of both;
/// and each of these has one packet.
pub fn packets_have_one_spelling()
    ensures spelling { OnePacket }
{}
