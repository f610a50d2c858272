//! The instances of a phase.

ghost use Rattle.std.specs.Prelude.{◌≡◌, ◌<◌, ◌≤◌};
ghost use Rattle.sizes.specs.Instances.{dealer_of, instance_at, lane_of};

/// How many lanes each dealer shares in, and so how many elements a key has.
pub const LANES: u32 = 5;

/// One sharing of a phase: who deals, and in which lane. The instances of a phase are numbered from 0, dealer by dealer.
#[derive(Clone, Copy, Debug, Drop, PartialEq, Eq)]
pub struct Instance {
    /// The dealer, from 1.
    pub dealer: u32,
    /// The lane, from 0 to 4.
    pub lane: u32,
}

impl Instance {
    /// The instance with this number.
    pub fn of(number: u32) -> Instance
        ensures dealer { result.dealer ≡ dealer_of number }
        ensures lane { result.lane ≡ lane_of number }
        ensures some { 1 ≤ result.dealer }
        ensures below { result.lane < 5 }
        ensures back { instance_at result.dealer result.lane ≡ number }
    {
        Instance {
            dealer: number / LANES + 1,
            lane: number % LANES,
        }
    }

    /// The number of the instance.
    pub fn number(self) -> u32
        requires dealer { (1 ≤ self.dealer) × (self.dealer ≤ 1000) }
        requires lane { self.lane < 5 }
        ensures is { result ≡ instance_at self.dealer self.lane }
        ensures dealer { dealer_of result ≡ self.dealer }
        ensures lane { lane_of result ≡ self.lane }
    {
        (self.dealer - 1) * LANES + self.lane
    }
}
