//! The factors of the products that a translation adds to grids.

ghost use Rattle.std.specs.Prelude.{◌≡◌, IfOk};
ghost use Rattle.algebra61.specs.Poly.{eval};
ghost use Rattle.algebra61.specs.Polynomial.{poly};
ghost use Rattle.talk.specs.Sync.{has};
ghost use Rattle.playback.specs.Recorded.{kind_of};
ghost use Rattle.phaseshift.specs.Factors.{AreFactors, gap_over_y, multiplied, unit_in_y, weights_of};

use crate::vanishing::{over_y, vanisher_of};
use field61::Fe;
use lists::OutOfMemory;
use playback::{Phase, PhaseKind};
use poly61::Poly;
use std::alloc::Global;

// A grid of a dealer gets in_x(x) * in_y(y), times the weight of the dealer, times the difference of the keys in its lane.
#[derive(Drop)]
pub(crate) struct Factors {
    // 1 at 0, and 0 at the receivers that are down.
    pub(crate) in_x: Poly,
    // 0 at the receivers that are exposed after the phase, or in a refresh the gap between before and after.
    pub(crate) in_y: Poly,
    // Its value at a dealer's point is the weight of the dealer.
    pub(crate) weights: Poly,
}

impl Factors {
    // Those of a phase before and after which these members are exposed.
    pub(crate) fn of(
        alloc: Global,
        phase: &Phase,
        before: u32,
        after: u32,
    ) -> Result<Factors, OutOfMemory>
        ensures { IfOk result (AreFactors (kind_of phase.now.kind) phase.now.setting (has phase.now.down) (has before) (has after)) }
    {
        let shift = phase.setting.shift();
        let receivers = phase.setting.receivers();
        let in_x = vanisher_of(alloc, phase.down, shift, receivers)?;
        let in_y = unit_in_y(alloc, phase, before, after)?;
        let weights = weights_of(alloc, phase, before)?;
        Ok(Factors {
            in_x,
            in_y,
            weights,
        })
    }

    // The factor in y for a dealer, where the keys differ by this element.
    pub(crate) fn multiplied(
        &self,
        alloc: Global,
        difference: Fe,
        dealer: u32,
    ) -> Result<Poly, OutOfMemory>
        ensures { IfOk result (λ p. p ≡ poly (multiplied self.now difference dealer)) }
    {
        let weight = self.weights.eval(Fe::reduce(u64::from(dealer)));
        self.in_y.scale(alloc, weight.mul(difference))
    }
}

// The factor in y where the weight is 1 and the keys differ by 1.
fn unit_in_y(alloc: Global, phase: &Phase, before: u32, after: u32) -> Result<Poly, OutOfMemory>
    ensures { IfOk result (λ p. p ≡ poly (unit_in_y (kind_of phase.now.kind) phase.now.setting (has before) (has after))) }
{
    let to = vanisher_of(alloc, after, 0, phase.setting.receivers())?;
    match phase.kind {
        PhaseKind::Create => Ok(to),
        PhaseKind::Refresh => {
            let from = vanisher_of(alloc, before, 0, phase.setting.dealers())?;
            gap_over_y(alloc, &to, &from)
        }
        PhaseKind::Move => Ok(to),
    }
}

// The difference of two polynomials, divided by y.
fn gap_over_y(alloc: Global, to: &Poly, from: &Poly) -> Result<Poly, OutOfMemory>
    ensures { IfOk result (λ p. p ≡ poly (gap_over_y to.now.coeffs from.now.coeffs)) }
{
    let negative = from.scale(alloc, Fe::ONE.neg())?;
    let gap = to.plus(alloc, &negative)?;
    over_y(alloc, &gap)
}

// The polynomial whose value at a dealer's point is the weight of the dealer: in a move 0 for those who are exposed.
fn weights_of(alloc: Global, phase: &Phase, before: u32) -> Result<Poly, OutOfMemory>
    ensures { IfOk result (λ p. p ≡ poly (weights_of (kind_of phase.now.kind) phase.now.setting (has before))) }
{
    match phase.kind {
        PhaseKind::Create => Poly::from_coeffs(alloc, &[Fe::ONE]),
        PhaseKind::Refresh => Poly::from_coeffs(alloc, &[Fe::ONE]),
        PhaseKind::Move => vanisher_of(alloc, before, 0, phase.setting.dealers()),
    }
}
