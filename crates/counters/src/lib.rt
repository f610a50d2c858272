//! Counts that rise by one: of faults, refusals and misses.
#![tactic(auto)]

ghost use Rattle.counters.specs.Counts.{RoseByOne};

/// The count raised by one. At its last value it stands still.
pub fn raised(count: u64) -> u64
    ensures { RoseByOne count result }
{
    count.saturating_add(1)
}

#[cfg(test)]
mod tests {
    use super::raised;

    #[test]
    fn a_count_stands_still_at_its_last_value(rt: HostRuntime) {
        assert!(rt;
            raised(0) == 1 && raised(u64::MAX - 1) == u64::MAX && raised(u64::MAX) == u64::MAX
        );
    }
}
