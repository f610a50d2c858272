//! Laws on histories that are kept as lists. Each function's contract is a law, and its body is empty.

ghost use Rattle.viewshift.specs.Fits.{ListsAreHistory};
ghost use Rattle.viewshift.specs.Others.{OthersAreCourse, OthersAreHistory, PhasesComeAgain};

/// What is kept as a history is one in the sense of the definitions.
pub fn lists_are_histories()
    ensures { ListsAreHistory }
{}

/// The other phases of a history are its other choices in the sense of the definitions, and a history again.
pub fn other_phases_are_other_choices()
    ensures course { OthersAreCourse }
    ensures history { OthersAreHistory }
{}

/// With the difference back, the other phases of the other phases are the first ones, list by list.
pub fn the_first_phases_come_again()
    ensures { PhasesComeAgain }
{}
