//! The law of the order in which notes are sent and finished.

ghost use Rattle.outbox.specs.Finishing.{FinishesInOrder, SendsSeldom, SendsThesePlaces};

/// The notes of a recipient are finished in their order and for good, each by what may finish it: one that is to be
/// confirmed by an answer with its invoke ID or by its last deadline, any other by the pump that sends it. The note in
/// flight keeps its invoke ID. No note is sent before those in front of it are finished, and each is sent at most once
/// more than there are retries. Each transmission is a datagram that a pump sends, and a pump sends no other.
pub fn finishes_in_order()
    ensures order { FinishesInOrder }
    ensures times { SendsSeldom }
    ensures sends { SendsThesePlaces }
{}
