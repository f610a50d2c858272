//! Seeds from the entropy that was handed in.
ghost use Rattle.std.specs.Prelude.{◌≡◌, ◌≤◌, length, IfSome, IfOk, IfErr};
ghost use Rattle.shelf.specs.Causes.{Takes, HasMore};
ghost use Rattle.keyroom.specs.Outcome.{AreFirst};
ghost use Rattle.commands.specs.Planning.{Took, TookUpTo};
ghost use Rattle.commands.specs.Causes.{IsFromEntropy};

use keyroom::Status;
use shelf::Entropy;
use std::alloc::Global;

/// The next seed.
fn seed_of<E: Entropy>(entropy: &mut E) -> Result<[u8; 32], Status>
    ensures taken { IfOk result (λ seed. Takes seed (E.coming entropy.old) (E.coming entropy.new)) }
    ensures kept { IfErr result (λ _. E.coming entropy.new ≡ E.coming entropy.old) }
    ensures later { E.fault_count entropy.old ≤ E.fault_count entropy.new }
    ensures cause { IfErr result (IsFromEntropy (E.fault_count entropy.old) (E.fault_count entropy.new)) }
    ensures calm { E.calm entropy.old → HasMore (E.coming entropy.old) → E.calm entropy.new }
{
    let mut seed = [0; 32];
    match entropy.fill(&mut seed) {
        Ok(()) => Ok(seed),
        Err(_) => Err(Status::EntropyFault),
    }
}

/// So many seeds, in the order in which they came. It refuses with `EntropyFault` only where the entropy's count of
/// faults rose. After a refusal, want of memory among them, at most so many seeds were taken.
pub(crate) fn seeds_of<E: Entropy>(
    alloc: Global,
    count: u32,
    entropy: &mut E,
) -> Result<Vec<[u8; 32]>, Status>
    ensures count { IfOk result (λ seeds. length seeds.items ≡ count) }
    ensures first { IfOk result (λ seeds. AreFirst seeds.items (E.coming entropy.old)) }
    ensures took { IfOk result (λ _. Took count (E.coming entropy.old) (E.coming entropy.new)) }
    ensures some { IfErr result (λ _. TookUpTo count (E.coming entropy.old) (E.coming entropy.new)) }
    ensures later { E.fault_count entropy.old ≤ E.fault_count entropy.new }
    ensures cause { IfErr result (IsFromEntropy (E.fault_count entropy.old) (E.fault_count entropy.new)) }
    ensures calm { E.calm entropy.old → IfSome (E.coming entropy.old) (λ seeds. count ≤ length seeds) → E.calm entropy.new }
{
    let mut seeds = Vec::new(alloc);
    for _member in 0..count {
        let seed = seed_of(entropy)?;
        seeds.push(seed)?;
    }
    Ok(seeds)
}
