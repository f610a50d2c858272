//! Who is down in a drawn phase.

ghost use Rattle.std.specs.Prelude.{◌≡◌, ◌<◌, ◌≤◌, ◌^◌};
ghost use Rattle.talk.specs.Shape.{seats};
ghost use Rattle.hearsay.specs.Said.{Marks};
ghost use Rattle.scenes.specs.Law.{AreSides};
ghost use Rattle.scenes.specs.Orders.{shape_of};
ghost use Rattle.scenes.specs.Scenes.{is_drilled};
ghost use Rattle.rehearsal_laws.specs.Down.{down_on};

use scenes::{Scene, Side};

/// The mask of the seats that are down in a phase: the new members of a move sit behind the old ones.
pub(crate) fn down_seats(scene: &Scene) -> u32
    requires { AreSides scene.now }
    ensures marks { Marks (shape_of scene.now) result (down_on scene.now) }
    ensures seated { result < 2 ^ seats (shape_of scene.now) }
{
    let seats = scene.setting().seats();
    let mut mask = 0;
    for seat in 1..seats + 1 {
        if is_down(scene, seat) {
            mask += 1 << (seat - 1);
        }
    }
    mask
}

/// Whether the member on a seat is down.
fn is_down(scene: &Scene, seat: u32) -> bool
    requires sides { AreSides scene.now }
    requires seat { (1 ≤ seat) × (seat ≤ seats (shape_of scene.now)) }
    ensures { result ≡ down_on scene.now seat }
{
    match scene {
        Scene::Create { side } => is_drilled(side, seat),
        Scene::Refresh { side } => side.is_down(seat),
        Scene::Move { old, .. } if seat <= old.members => old.is_down(seat),
        Scene::Move { old, new } => is_drilled(new, seat - old.members),
    }
}

/// Whether a member is drilled.
pub(crate) fn is_drilled(side: &Side, member: u32) -> bool
    ensures { result ≡ is_drilled side.now.drilled member }
{
    match side.drilled {
        Some(drilled) => drilled == member,
        None => false,
    }
}
