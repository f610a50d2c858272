//! Laws on minds that go like machines. Each function's contract is a law, and its body is empty. A machine is given
//! by the ways of a mind, so these laws hold of any machine and of any mind, whatever minds sit on the other seats.

ghost use Rattle.talk.specs.Sync.{ways};
ghost use Rattle.machines.specs.Machines.{MachinesAreHeard, MindsEnd, RunsByMachines, SpeakersStay};

use talk::Mind;

/// A mind on an honest seat that begins where a machine begins, and goes like it, ends where the machine does, whatever
/// the masks are. Where the honest seats are in the masks, the run goes by their machines.
pub fn minds_go_like_their_machines<M: Mind, C: Mind>()
    ensures end { MindsEnd (ways M.word M.after_say M.after_hear) (ways C.word C.after_say C.after_hear) }
    ensures run { RunsByMachines (ways M.word M.after_say M.after_hear) (ways C.word C.after_say C.after_hear) }
{}

/// An honest seat whose machine always speaks in time, and that isn't cut, is in each mask that the words allow.
pub fn who_speaks_stays_in_the_masks<M: Mind, C: Mind>()
    ensures { SpeakersStay (ways M.word M.after_say M.after_hear) (ways C.word C.after_say C.after_hear) }
{}

/// In a run that goes by machines everybody hears of an honest seat what its machine says.
pub fn machines_are_heard<C: Mind>()
    ensures { MachinesAreHeard (ways C.word C.after_say C.after_hear) }
{}
