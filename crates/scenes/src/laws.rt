//! Laws of the phases of a rehearsal. Each function says its law and does nothing.

ghost use Rattle.scenes.specs.Law.{ScenesAreOfCommittees, ScenesFollow, TheExposedAreAsMany};
ghost use Rattle.scenes.specs.Lawful.{OrdersAreLawful};

/// The committees of each phase are ones that a command can make, and at most the bound of each is down.
pub fn committees_can_be_made()
    ensures { ScenesAreOfCommittees }
{}

/// The committee that holds a key begins the next phase, and who was down has no share in it.
pub fn who_is_down_stays_down()
    ensures { ScenesFollow }
{}

/// The orders of a phase are lawful for its setting, name the drilled members alone, and tell nobody to speak late.
pub fn orders_are_lawful()
    ensures { OrdersAreLawful }
{}

/// In each period exactly as many are exposed as the bound, among them all who are down in the phases before and after it.
pub fn as_many_as_the_bound_are_exposed()
    ensures { TheExposedAreAsMany }
{}
