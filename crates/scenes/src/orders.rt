//! What the drilled members of a phase are told.

ghost use Rattle.std.specs.Prelude.{◌≡◌, ◌≤◌, ◌++◌, IfOk, OnOk};
ghost use Rattle.drillbook.specs.declared.order.Verb.TheVariants.{Accuse};
ghost use Rattle.scenes.specs.Law.{AreSides, IsSide};
ghost use Rattle.scenes.specs.Orders.{following, listed, orders_of, shape_of, told_among, told_coming, told_leaving};

use crate::{Scene, Side};
use drillbook::{Drill, Order, Verb};
use field61::Fe;
use lists::OutOfMemory;
use std::alloc::Global;
use talk::Setting;

impl Scene {
    /// The phase's setting.
    pub fn setting(&self) -> Setting
        requires { AreSides self.now }
        ensures { result ≡ shape_of self.now }
    {
        match self {
            Scene::Create { side } => Setting::create(side.members, side.bound),
            Scene::Refresh { side } => Setting::refresh(side.members, side.bound),
            Scene::Move { old, new } => {
                Setting::moving(old.members, old.bound, new.members, new.bound)
            }
        }
    }

    /// What its drilled members are told: one order for each committee that has one. They are lawful for its setting. The
    /// error is want of memory.
    pub fn drill(&self, alloc: Global) -> Result<Drill, OutOfMemory>
        requires { AreSides self.now }
        ensures { IfOk result (λ drill. drill ≡ orders_of self.now) }
    {
        let mut drill = Drill::none(alloc);
        match self {
            Scene::Create { side } => tell(&mut drill, told_among(side))?,
            Scene::Refresh { side } => tell(&mut drill, told_among(side))?,
            Scene::Move { old, new } => {
                tell(&mut drill, told_leaving(old))?;
                tell(&mut drill, told_coming(old.members, new))?;
            }
        }
        Ok(drill)
    }
}

// Puts an order at the end, where there is one.
fn tell(drill: &mut Drill, order: Option<Order>) -> Result<(), OutOfMemory>
    ensures { OnOk result (drill.new ≡ drill.old ++ listed order) }
{
    match order {
        Some(order) => drill.push(order),
        None => Ok(()),
    }
}

// The order for the drilled member of a committee that deals and receives.
fn told_among(side: &Side) -> Option<Order>
    requires { IsSide side.now }
    ensures { result ≡ told_among side.now }
{
    let member = side.drilled?;
    let (round, verb) = match side.manner {
        0 => (1, Verb::Silent),
        1 => (1, Verb::Skew { by: Fe::ONE }),
        2 => (3, accuse_following(side.members, member)),
        _ => (5, Verb::Veto),
    };
    Some(Order {
        party: member,
        round,
        verb,
    })
}

// Of one that hands a key on.
fn told_leaving(side: &Side) -> Option<Order>
    ensures { result ≡ told_leaving side.now }
{
    let member = side.drilled?;
    let (round, verb) = match side.manner {
        0 => (1, Verb::Silent),
        1 => (1, Verb::Skew { by: Fe::ONE }),
        2 => (1, Verb::Wrong { by: Fe::ONE }),
        _ => (4, Verb::Silent),
    };
    Some(Order {
        party: member,
        round,
        verb,
    })
}

// Of one that gets it, whose members sit behind so many others.
fn told_coming(shift: u32, side: &Side) -> Option<Order>
    requires side { IsSide side.now }
    requires shift { shift ≤ 15 }
    ensures { result ≡ told_coming shift side.now }
{
    let member = side.drilled?;
    let (round, verb) = match side.manner {
        0 => (1, Verb::Silent),
        1 => (2, Verb::Skew { by: Fe::ONE }),
        2 => (3, accuse_following(side.members, member)),
        _ => (5, Verb::Veto),
    };
    Some(Order {
        party: shift + member,
        round,
        verb,
    })
}

// A false complaint of the member that follows in the circle.
fn accuse_following(members: u32, member: u32) -> Verb
    requires { 1 ≤ members }
    ensures { result ≡ Accuse (following members member) }
{
    Verb::Accuse {
        receiver: member % members + 1,
    }
}
