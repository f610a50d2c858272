//! What a new member comes to.

use field61::{Fe, FeList};

/// What a new member comes to by the posts of the sixth round.
#[derive(Drop)]
pub enum MoveOut {
    /// Its shares, lane by lane. `corrected` is the mask of the old members whose shares had an error in some lane: member
    /// `i` has bit `i - 1`.
    Shares { shares: [Fe; 5], corrected: u32 },
    /// A lane isn't opened: the least such lane, and the least place of it for which no polynomial is nearest to what was
    /// posted. It doesn't come where at most the new committee's bound are faulty.
    NotOpened { lane: u32, place: u32 },
    /// All lanes are opened, and the opened syndrome of some lane has no error vector: the least such lane, and its opened
    /// syndrome.
    NoWord { lane: u32, syndrome: FeList },
}
