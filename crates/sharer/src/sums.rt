//! What a member has in the end.

ghost use Rattle.std.specs.Prelude.{◌≡◌, ℕ, ◌+◌, ◌*◌, ◌<◌, ◌≤◌, length, map};
ghost use Rattle.std.specs.List.{count_by};
ghost use Rattle.talk.specs.Shape.{instances};
ghost use Rattle.plays.specs.Said.{places};
ghost use Rattle.members.specs.Shares.{share_sum};

use field61::Fe;
use sizes::Instance;
use vss_core::Done;

// The shares of all five lanes.
pub(crate) fn lane_shares(done: &Done, dealers: u32) -> [Fe; 5]
    requires all { dealers ≡ done.now.shape.dealers }
    requires few { dealers ≤ 15 }
    ensures { result ≡ map (share_sum dealers done.now.kept) (places 5) }
{
    [
        lane_share(done, dealers, 0),
        lane_share(done, dealers, 1),
        lane_share(done, dealers, 2),
        lane_share(done, dealers, 3),
        lane_share(done, dealers, 4),
    ]
}

// The share of one lane: the sum over the dealers.
fn lane_share(done: &Done, dealers: u32, lane: u32) -> Fe
    requires all { dealers ≡ done.now.shape.dealers }
    requires few { dealers ≤ 15 }
    requires lane { lane < 5 }
    ensures { result ≡ share_sum dealers done.now.kept lane }
{
    let mut sum = Fe::ZERO;
    for i in 0..dealers {
        let instance = Instance {
            dealer: i + 1,
            lane,
        };
        sum = sum.add(done.share(instance.number()));
    }
    sum
}

// How many instances are accepted.
pub(crate) fn accepted_of(done: &Done, all: u32) -> u32
    requires all { all ≡ instances done.now.shape }
    requires each { length done.now.accepted ≡ all }
    ensures { result ≡ count_by (λ b. b) done.now.accepted }
{
    let mut count = 0;
    for i in 0..all {
        if done.accepted(i) {
            count += 1;
        }
    }
    count
}
