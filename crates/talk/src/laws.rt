//! Laws of the synchronous run. Each function says its law and does nothing.

ghost use Rattle.talk.specs.Law.{HeardFits, PostHeard, ReadFits, RingHeard};

/// What is heard of a seat in a round is its word as read where the mask has the seat, else nothing said.
#[tactic(auto, using(crate::proofs::Entries::post_entry, crate::proofs::Entries::ring_entry))]
pub fn heard_of_a_seat()
    ensures post { PostHeard }
    ensures ring { RingHeard }
{}

/// What a run lets a seat hear, and messages that were read one by one, may be told to a mind.
pub fn read_messages_fit()
    ensures run { HeardFits }
    ensures each { ReadFits }
{}
